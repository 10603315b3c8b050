// Reads a line as a command. A line's first token is the command's name, and the tokens after it are read from left to right: the
// first that is wrong is the fault, and only where none is wrong does their number count. A command is one branch
// of `read_named` and one definition of what its tokens mean.
ghost use Rattle.std.specs.Prelude.{◌≡◌};
ghost use Rattle.command.specs.Cursors.{tokens_left};
ghost use Rattle.command.specs.Outcome.{Answers};
ghost use Rattle.command.specs.Reading.{Reads, meant, named, describing, plan_of};

use crate::arguments::{read_exactly, read_one_and_rest};
use crate::command::{Command, Description, Fault, FieldName};
use crate::cursor::{Cursor, name_of};
use crate::number::numbers;
use std::alloc::Global;

// The command that a line gives, or None where the line has no token, or where its first begins with '#'.
#[tactic(auto, unfolding(crate::specs::Reading::reading))]
pub fn read_command(heap: Global, line: &[u8]) -> Result<Option<Command>, Fault>
    ensures { Reads line.now result }
{
    match name_of(line) {
        None => Ok(None),
        Some((name, arguments)) => Ok(Some(read_named(heap, name, arguments)?)),
    }
}

// The command of this name, with the tokens after it as its arguments.
#[tactic(auto, using(crate::proofs::Names::bytes_eq_reads))]
fn read_named(heap: Global, name: &[u8], arguments: Cursor) -> Result<Command, Fault>
    ensures { Answers meant (named name.now (tokens_left arguments.entry)) result }
{
    match name {
        b"archive" => {
            let description = read_description(heap, arguments)?;
            Ok(Command::Archive(description))
        }
        b"lay" => {
            let (place, words) = read_one_and_rest(heap, arguments, 2)?;
            Ok(Command::Lay { place, words })
        }
        b"write" => {
            let [bay, place, word] = read_exactly::<3>(heap, arguments, 2)?;
            Ok(Command::Write { bay, place, word })
        }
        b"lost" => {
            let bays = numbers(heap, arguments, 2)?;
            Ok(Command::Lost { bays })
        }
        _ => Err(Fault::UnknownCommand),
    }
}

// FIELD PLAN DATA CHECKS PLACES
#[tactic(auto, unfolding(crate::specs::Reading::describing))]
pub(crate) fn read_description(heap: Global, mut arguments: Cursor) -> Result<Description, Fault>
    ensures { Answers (λ d. d) (describing (tokens_left arguments.entry)) result }
{
    let field = FieldName::try_from(arguments.next().ok_or(Fault::TokenCount)?)?;
    read_plan(arguments.next().ok_or(Fault::TokenCount)?)?;
    let [data_bays, check_bays, places] = read_exactly::<3>(heap, arguments, 4)?;
    Ok(Description {
        field,
        data_bays,
        check_bays,
        places,
    })
}

// Whether a token names a plan. There is only one, so nothing else is told.
#[tactic(auto, using(crate::proofs::Names::bytes_eq_reads))]
fn read_plan(token: &[u8]) -> Result<(), Fault>
    ensures { result ≡ plan_of token.now }
{
    match token {
        b"powers" => Ok(()),
        _ => Err(Fault::UnknownPlan),
    }
}
