// Sums of words that may not be told.
ghost use Rattle.std.specs.Prelude.{◌≡◌, ◌^◌, ◌<◌, IfSome};
ghost use Rattle.tables.specs.Sums.{plus, sum_of, total, IsTotal};
ghost use Rattle.tables.specs.Cells.{told};

use crate::cell::Cell;

// The sum of the words, where all cells are told. Where one isn't, or where the sum has more than 64 bits, there is none.
pub fn total(cells: &[Cell]) -> Option<u64>
    ensures value { result ≡ total cells.now }
    ensures meaning { IsTotal cells.now result }
{
    let mut sum = Some(0);
    for cell in cells {
        sum = plus(sum, word_of(*cell));
    }
    sum
}

// The sum of numbers, where all are told and it has no more than 64 bits.
pub(crate) fn sum_of(numbers: &[Option<u64>]) -> Option<u64>
    ensures { result ≡ sum_of numbers.now }
{
    let mut sum = Some(0);
    for number in numbers {
        sum = plus(sum, *number);
    }
    sum
}

// The word of a cell, where it is told, in 64 bits.
pub(crate) fn word_of(cell: Cell) -> Option<u64>
    ensures value { result ≡ told cell }
    ensures small { IfSome result (λ w. w < 2 ^ 32) }
{
    match cell.told() {
        Some(word) => Some(u64::from(word)),
        None => None,
    }
}

// The sum of two numbers, where both are told and it has no more than 64 bits.
pub(crate) fn plus(a: Option<u64>, b: Option<u64>) -> Option<u64>
    ensures { result ≡ plus a b }
{
    a?.checked_add(b?)
}
