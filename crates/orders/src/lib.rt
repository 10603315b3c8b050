// Reads the commands of the program: what is asked of an archive on disk, and where its description is.
#![tactic(auto)]

mod order;
mod paths;
mod read;
mod verb;

pub use crate::order::{Order, Run, Task};
pub use crate::read::read_order;
pub use crate::verb::Verb;
