use crate::answer::BookWord;
use layers::Overfull;
use shelf::Refusal;
use std::alloc::AllocError;
use thiserror::Error;
use trays::Misfit;

// Why a line of a shelf in memory was not carried out. Then nothing was changed. Each variant prints the number of its own enum of refusals, as in
// the archive.
#[derive(Debug, Drop, Error)]
pub enum Fault {
    // The line gives no call.
    #[error("{0}")]
    Text(#[from] command::Fault),
    // The shelf has not 1 to 65,535 places.
    #[error("a shelf in memory has 1 to 65535 places")]
    PlacesOutOfRange,
    // A tray of that limit or length is none.
    #[error("refused by {}: {}", .0.number(), .0)]
    Misfit(#[from] Misfit),
    // The plan is refused.
    #[error("refused by {}: {}", .0.number(), .0)]
    Plan(#[from] plan::Refusal),
    // Not four bays below the array on a pile.
    #[error("the array of a pile stands on 4 bays")]
    BaysBelow,
    // The shelf has no such call.
    #[error("the shelf has no such call")]
    NoSuchCall,
    // A history answers each call by its kind, so this never comes.
    #[error("an answer of another call")]
    OtherAnswer,
    // The call is refused.
    #[error("refused by {}: {}", .0.number(), .0)]
    Refused(#[from] Refusal),
    // The cell of a read is lost; the book has this word for it.
    #[error("refused by {}: {}; book {}", Refusal::Lost.number(), Refusal::Lost, .0)]
    LostRead(BookWord),
    // The half has as many stops as it can have.
    #[error("refused by {}: {}", .0.number(), .0)]
    Overfull(#[from] Overfull),
    // There was no memory for the shelf, or for what the call reads.
    #[error("out of memory")]
    Memory(#[from(alloc)] AllocError),
}
