// Reads tokens as decimal numbers.
ghost use Rattle.std.specs.Prelude.{◌≡◌, vec_items};
ghost use Rattle.command.specs.Cursors.{tokens_left};
ghost use Rattle.command.specs.Numerals.{numeral, numerals};
ghost use Rattle.command.specs.Outcome.{Answers};

use crate::command::Fault;
use crate::cursor::Cursor;
use std::alloc::Global;

// The number that a token writes in one or more decimal digits, or None where another byte stands in it or the number is not below 2^32.
#[tactic(auto, using(crate::proofs::Decimals::digits))]
pub fn number(token: &[u8]) -> Option<u32>
    ensures { result ≡ numeral token.now }
{
    if token.is_empty() {
        return None;
    }
    let mut value: u32 = 0;
    for byte in token {
        if !byte.is_ascii_digit() {
            return None;
        }
        value = value.checked_mul(10)?.checked_add(u32::from(*byte - b'0'))?;
    }
    Some(value)
}

// The numbers that the tokens left write, up to the line's end. The next token is number `first` of its line, which a fault counts from.
pub fn numbers(heap: Global, arguments: Cursor, first: u8) -> Result<Vec<u32>, Fault>
    ensures { Answers vec_items (numerals first (tokens_left arguments.entry)) result }
{
    let mut read = Vec::new(heap);
    for token in arguments {
        let value = number(token).ok_or(Fault::NotANumber(read.len() + usize::from(first)))?;
        read.push(value)?;
    }
    Ok(read)
}
