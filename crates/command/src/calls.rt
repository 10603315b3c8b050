// Reads the calls of a shelf in memory, a line each. The tokens after a line's name are numbers. A call is one branch of `read_call_named` and one definition of what its tokens mean.
ghost use Rattle.command.specs.Calls.{ReadsCall, called, call_named};
ghost use Rattle.command.specs.Cursors.{tokens_left};
ghost use Rattle.command.specs.Outcome.{Answers};

use crate::arguments::{read_exactly, read_one_and_rest};
use crate::command::Fault;
use crate::cursor::{Cursor, name_of};
use std::alloc::Global;

// What a line asks of a shelf in memory. A bay is a device, a place a position on each device, and a word the number in one cell.
#[derive(Debug, Drop, PartialEq, Eq)]
pub enum ShelfCall {
    // The bay stops at the call of this number.
    Stop { call: u32, bay: u32 },
    // The word of a cell.
    Read { bay: u32, place: u32 },
    // Another word in a filled cell.
    Write { bay: u32, place: u32, word: u32 },
    // One word for each bay at a place.
    Lay { place: u32, words: Vec<u32> },
    // A word in a cell, blank or filled.
    Patch { bay: u32, place: u32, word: u32 },
    // A fresh device in a bay.
    Exchange { bay: u32 },
    // The word that the others tell, in a cell of a bay below an array.
    Mend { bay: u32, place: u32 },
    // The same in so many places of the bay, from the first on.
    Sweep { bay: u32, first: u32, count: u32 },
    // The word of a cell of a bay below an array.
    Below { bay: u32, place: u32 },
    // The words of so many places of a bay, from the first on.
    Fetch { bay: u32, first: u32, count: u32 },
    // The lost cells of so many places, from the first on.
    Survey { first: u32, count: u32 },
    // The end of the shelf's lines.
    End,
}

// The call that a line gives, or None where the line has no token, or where its first begins with '#'.
#[tactic(auto, unfolding(crate::specs::Calls::calling))]
pub fn read_call(heap: Global, line: &[u8]) -> Result<Option<ShelfCall>, Fault>
    ensures { ReadsCall line.now result }
{
    match name_of(line) {
        None => Ok(None),
        Some((name, arguments)) => Ok(Some(read_call_named(heap, name, arguments)?)),
    }
}

// The call of this name, with the tokens after it as its arguments.
#[tactic(auto, using(crate::proofs::Names::bytes_eq_reads))]
fn read_call_named(heap: Global, name: &[u8], arguments: Cursor) -> Result<ShelfCall, Fault>
    ensures { Answers called (call_named name.now (tokens_left arguments.entry)) result }
{
    match name {
        b"stop" => {
            let [call, bay] = read_exactly::<2>(heap, arguments, 2)?;
            Ok(ShelfCall::Stop { call, bay })
        }
        b"read" => {
            let [bay, place] = read_exactly::<2>(heap, arguments, 2)?;
            Ok(ShelfCall::Read { bay, place })
        }
        b"write" => {
            let [bay, place, word] = read_exactly::<3>(heap, arguments, 2)?;
            Ok(ShelfCall::Write { bay, place, word })
        }
        b"lay" => {
            let (place, words) = read_one_and_rest(heap, arguments, 2)?;
            Ok(ShelfCall::Lay { place, words })
        }
        b"patch" => {
            let [bay, place, word] = read_exactly::<3>(heap, arguments, 2)?;
            Ok(ShelfCall::Patch { bay, place, word })
        }
        b"exchange" => {
            let [bay] = read_exactly::<1>(heap, arguments, 2)?;
            Ok(ShelfCall::Exchange { bay })
        }
        b"mend" => {
            let [bay, place] = read_exactly::<2>(heap, arguments, 2)?;
            Ok(ShelfCall::Mend { bay, place })
        }
        b"sweep" => {
            let [bay, first, count] = read_exactly::<3>(heap, arguments, 2)?;
            Ok(ShelfCall::Sweep { bay, first, count })
        }
        b"below" => {
            let [bay, place] = read_exactly::<2>(heap, arguments, 2)?;
            Ok(ShelfCall::Below { bay, place })
        }
        b"fetch" => {
            let [bay, first, count] = read_exactly::<3>(heap, arguments, 2)?;
            Ok(ShelfCall::Fetch { bay, first, count })
        }
        b"survey" => {
            let [first, count] = read_exactly::<2>(heap, arguments, 2)?;
            Ok(ShelfCall::Survey { first, count })
        }
        b"end" => {
            let [] = read_exactly::<0>(heap, arguments, 2)?;
            Ok(ShelfCall::End)
        }
        _ => Err(Fault::UnknownCommand),
    }
}
