// Linear equations over a finite field, and what they tell: Gaussian elimination.
#![tactic(auto)]

mod elimination;
mod equation;
mod pivot;
mod sets;
mod verdict;

pub use crate::equation::{Equation, Equations, MOST_EQUATIONS};
pub use crate::sets::{told_bays, told_without};
pub use crate::verdict::{agree, told};
