use shelf::Refusal;
use std::alloc::AllocError;
use std::io;
use thiserror::Error;

// Why an example can't be told.
#[derive(Debug, Drop, Error)]
pub enum Fault {
    // A plan is refused.
    #[error("refused by {}: {}", .0.number(), .0)]
    Plan(#[from] plan::Refusal),
    // A call is refused.
    #[error("refused by {}", .0.number())]
    Call(#[from] Refusal),
    // A line could not be printed.
    #[error("{0}")]
    Printing(#[from] io::Error),
    // There was no memory for a shelf.
    #[error("out of memory")]
    Memory(#[from(alloc)] AllocError),
}
