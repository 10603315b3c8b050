// Commands on archives on disk: asked and changed.
#![tactic(auto)]

mod cells;
mod create;
mod files;
mod service;
mod status;
mod table;
mod task;

pub use crate::task::{Input, carry_out};
