ghost use Rattle.std.specs.Prelude.{◌≡◌};
ghost use Rattle.archive.specs.Outcome.{read_fault};
ghost use Rattle.archive.specs.declared.fault.Fault.TheVariants.{Memory, Plan, Refused};

use shelf::Refusal;
use std::alloc::AllocError;
use thiserror::Error;

// Why a line was not carried out. Then nothing was changed. Each variant prints the number of its own enum of refusals: those of several
// crates have no trait in common, which would be longer than the line.
#[derive(Clone, Copy, Debug, Error)]
pub enum Fault {
    // The line gives no command.
    #[error("{0}")]
    Text(command::Fault),
    // No archive is described yet.
    #[error("no archive is described yet")]
    NoArchive,
    // The archive's plan is refused.
    #[error("refused by {}: {}", .0.number(), .0)]
    Plan(plan::Refusal),
    // The archive has not 1 to 65,536 places.
    #[error("an archive has 1 to 65536 places")]
    PlacesOutOfRange,
    // The call is refused.
    #[error("refused by {}: {}", .0.number(), .0)]
    Refused(Refusal),
    // There was no memory for the line, or for the new words.
    #[error("out of memory")]
    Memory,
}

// By hand: a derived From has no contract, and the contracts above say which fault a `?` makes.
impl From<AllocError> for Fault {
    ghost from_gives = { λ _ r. r ≡ Memory };

    fn from(_e: AllocError) -> Fault {
        Fault::Memory
    }
}

impl From<Refusal> for Fault {
    ghost from_gives = { λ e r. r ≡ Refused e };

    fn from(e: Refusal) -> Fault {
        Fault::Refused(e)
    }
}

impl From<plan::Refusal> for Fault {
    ghost from_gives = { λ e r. r ≡ Plan e };

    fn from(e: plan::Refusal) -> Fault {
        Fault::Plan(e)
    }
}

impl From<command::Fault> for Fault {
    ghost from_gives = { λ e r. r ≡ read_fault e };

    fn from(e: command::Fault) -> Fault {
        match e {
            command::Fault::Memory => Fault::Memory,
            other => Fault::Text(other),
        }
    }
}
