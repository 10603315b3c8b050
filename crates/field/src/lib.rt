// Finite fields: one trait, whose meaning is an arithmetic with its laws, and the three fields of the archive.
#![tactic(auto)]

mod arithmetic;
mod modular;
mod polynomials;
mod products;
mod tables;

pub use crate::arithmetic::Field;
pub use crate::modular::Count;
pub use crate::polynomials::{Byte, Nibble};
pub use crate::products::products_are_remainders;
