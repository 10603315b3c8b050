// What the account of a program that keeps archives on disk says, line by line.
#![tactic(auto)]

mod change;
mod finding;
mod standing;
mod tally;

pub use crate::change::Change;
pub use crate::finding::Finding;
pub use crate::standing::Standing;
pub use crate::tally::Tally;
