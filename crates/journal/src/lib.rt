// The files of a change that is made of several: the names under which they are written aside, and the list by which they are renamed.
#![tactic(auto)]

mod list;
mod names;

pub use crate::list::list_text;
pub use crate::names::{aside_of, list_of};
