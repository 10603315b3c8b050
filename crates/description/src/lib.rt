// The description of an archive on disk: a text of lines, read and printed.
#![tactic(auto)]

mod description;
mod fault;
mod kind;
mod line;
mod printing;
mod reading;
mod rest;

pub use description::{Below, Description, PlanName};
pub use fault::{Fault, Wanted};
pub use printing::print_description;
pub use reading::read_description;
