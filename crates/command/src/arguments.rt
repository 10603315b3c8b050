// Reads the tokens after a line's name, where they are numbers. All are read, and only where none is wrong does their number count.
// The next token is number `first` of its line, which a fault counts from. It is a number that each caller writes out: a struct of it and
// the tokens would be made at each call and taken apart in it.
ghost use Rattle.command.specs.Arguments.{exactly, one_and_rest, counted};
ghost use Rattle.command.specs.Cursors.{tokens_left};
ghost use Rattle.command.specs.Outcome.{Answers};

use crate::command::Fault;
use crate::cursor::Cursor;
use crate::number::numbers;
use std::alloc::Global;

// N numbers and no more.
pub fn read_exactly<const N: usize>(
    heap: Global,
    arguments: Cursor,
    first: u8,
) -> Result<[u32; N], Fault>
    ensures { Answers (λ n. n) (counted (exactly N) first (tokens_left arguments.entry)) result }
{
    let read = numbers(heap, arguments, first)?;
    <[u32; N]>::try_from(read).map_err(|_| Fault::TokenCount)
}

// A number, and any number of others.
pub fn read_one_and_rest(
    heap: Global,
    arguments: Cursor,
    first: u8,
) -> Result<(u32, Vec<u32>), Fault>
    ensures { Answers (λ n. (n.0, n.1.items)) (counted one_and_rest first (tokens_left arguments.entry)) result }
{
    let mut rest = numbers(heap, arguments, first)?;
    if rest.is_empty() {
        return Err(Fault::TokenCount);
    }
    let a = rest.remove(0);
    Ok((a, rest))
}
