// The lines of a program's input, and the account that the program prints of them.
#![tactic(auto)]

mod script;

pub use crate::script::Script;
