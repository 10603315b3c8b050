use shelf::Refusal;
use std::alloc::AllocError;
use thiserror::Error;

// Why there is no history to tell.
#[derive(Debug, Drop, Error)]
pub enum Fault {
    // A plan is refused.
    #[error("refused by {}: {}", .0.number(), .0)]
    Plan(#[from] plan::Refusal),
    // A run is refused.
    #[error("refused by {}", .0.number())]
    Run(#[from] Refusal),
    // There was no memory for a list, or for what the arrays stand on.
    #[error("out of memory")]
    Memory(#[from(alloc)] AllocError),
}
