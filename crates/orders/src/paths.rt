// Reads the tokens after a command's name that are paths, and the optional numbers.
ghost use Rattle.std.specs.Prelude.{◌≡◌, ◌%◌, ◌^◌};
ghost use Rattle.std.specs.Option.{option_map};
ghost use Rattle.command.specs.Cursors.{tokens_left};
ghost use Rattle.command.specs.Outcome.{Answers};
ghost use Rattle.orders.specs.Orders.{last, at_most_one, run_or_all, one_or_all, run_meant, bytes_in};

use crate::order::Run;
use command::{Cursor, Fault, numbers};
use std::alloc::Global;

// The last token.
pub(crate) fn last_path<'a>(mut arguments: Cursor<'a>) -> Result<&'a [u8], Fault>
    ensures { Answers bytes_in (last (tokens_left arguments.entry)) result }
{
    let path = arguments.next().ok_or(Fault::TokenCount)?;
    match arguments.next() {
        None => Ok(path),
        Some(_) => Err(Fault::TokenCount),
    }
}

// The last token, if there is one.
pub(crate) fn optional_path<'a>(mut arguments: Cursor<'a>) -> Result<Option<&'a [u8]>, Fault>
    ensures { Answers (option_map bytes_in) (at_most_one (tokens_left arguments.entry)) result }
{
    let Some(path) = arguments.next() else {
        return Ok(None);
    };
    match arguments.next() {
        None => Ok(Some(path)),
        Some(_) => Err(Fault::TokenCount),
    }
}

// A run of places, if there is one: the first and how many. The next token is the third of its line.
pub(crate) fn optional_run(heap: Global, arguments: Cursor) -> Result<Option<Run>, Fault>
    ensures { Answers (option_map run_meant) (run_or_all (tokens_left arguments.entry)) result }
{
    let read = numbers(heap, arguments, 3)?;
    match read.as_slice() {
        [] => Ok(None),
        [first, count] => Ok(Some(Run {
            first: *first,
            count: *count,
        })),
        _ => Err(Fault::TokenCount),
    }
}

// A number, if there is one.
pub(crate) fn optional_number(heap: Global, arguments: Cursor) -> Result<Option<u32>, Fault>
    ensures { Answers (λ n. n) (one_or_all (tokens_left arguments.entry)) result }
{
    let read = numbers(heap, arguments, 3)?;
    match read.as_slice() {
        [] => Ok(None),
        [number] => Ok(Some(*number)),
        _ => Err(Fault::TokenCount),
    }
}
