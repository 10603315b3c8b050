// Worked examples of the fields and of arrays over them, in one table, which holds of the definitions that the contracts cite.
#![tactic(auto)]

mod blank;
mod examples;

pub use crate::blank::{Three, new_array};
pub use crate::examples::worked_examples;
