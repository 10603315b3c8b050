// Reads the lines that begin a shelf in memory. An opening is one branch of `read_opening` and one case of what its tokens mean.
ghost use Rattle.command.specs.Openings.{ReadsOpening, opening_named};
ghost use Rattle.command.specs.Cursors.{tokens_left};
ghost use Rattle.command.specs.Outcome.{Answers};

use crate::arguments::read_exactly;
use crate::command::{Description, Fault};
use crate::cursor::{Cursor, name_of};
use crate::read::read_description;
use std::alloc::Global;

// Which shelf the lines after it are for.
#[derive(Clone, Copy, Debug, PartialEq, Eq)]
pub enum Opening {
    // A pair of drills, each over two bays: trays below the first, image trays below the second.
    Drill { places: u32 },
    // A drill over three trays of this limit.
    Trays { limit: u32, places: u32 },
    // An array over a drill over trays.
    Array(Description),
    // An array over a pair of arrays, each over a drill over trays.
    Pile(Description),
}

// The shelf that a line begins, or None where the line begins none.
#[tactic(auto, unfolding(crate::specs::Openings::opening))]
pub fn read_opening(heap: Global, line: &[u8]) -> Result<Option<Opening>, Fault>
    ensures { ReadsOpening line.now result }
{
    match name_of(line) {
        None => Ok(None),
        Some((name, arguments)) => read_named_opening(heap, name, arguments),
    }
}

// The opening of this name, with the tokens after it as its arguments. Any other name is of a command.
#[tactic(auto, using(crate::proofs::Names::bytes_eq_reads))]
fn read_named_opening(
    heap: Global,
    name: &[u8],
    arguments: Cursor,
) -> Result<Option<Opening>, Fault>
    ensures { Answers (λ o. o) (opening_named name.now (tokens_left arguments.entry)) result }
{
    match name {
        b"drill" => {
            let [places] = read_exactly::<1>(heap, arguments, 2)?;
            Ok(Some(Opening::Drill { places }))
        }
        b"trays" => {
            let [limit, places] = read_exactly::<2>(heap, arguments, 2)?;
            Ok(Some(Opening::Trays { limit, places }))
        }
        b"array" => {
            let description = read_description(heap, arguments)?;
            Ok(Some(Opening::Array(description)))
        }
        b"pile" => {
            let description = read_description(heap, arguments)?;
            Ok(Some(Opening::Pile(description)))
        }
        _ => Ok(None),
    }
}
