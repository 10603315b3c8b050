// Reads a line of a table.
ghost use Rattle.std.specs.Prelude.{◌≡◌, Some, vec_items};
ghost use Rattle.tables.specs.Left.{fields_after, fields_left};
ghost use Rattle.tables.specs.Rows.{Answers, row_after, row_meant, words_from, ReadsRow, ReadsBack};
ghost use Rattle.tables.specs.Texts.{fault_text, row_text};
ghost use Rattle.tables.specs.declared.row.RowFault.TheVariants.{Memory};

use crate::fields::{Fields, field_number, fields_of, first_field, is_empty, is_heading};
use std::alloc::{AllocError, AllocFailed, Global};
use std::fmt;

// A place and the words at it.
#[derive(Debug, Drop, PartialEq, Eq)]
pub struct Row {
    pub place: u32,
    pub words: Vec<u32>,
}

// Why a line of a table gives no row.
#[derive(Clone, Copy, Debug, PartialEq, Eq)]
pub enum RowFault {
    // This field of the line, counted from 1, is not a number below 2^32.
    NotANumber(usize),
    // The line has a place alone.
    NoWords,
    // There was no memory for the words.
    Memory,
}

// By hand, here and below: what a derive makes of an error, or prints, has no contract.
impl From<AllocError> for RowFault {
    ghost from_gives = { λ _ r. r ≡ Memory };

    fn from(_e: AllocError) -> RowFault {
        RowFault::Memory
    }
}

impl<T: Drop> From<AllocFailed<T>> for RowFault {
    ghost from_gives = { λ _ r. r ≡ Memory };

    fn from(_e: AllocFailed<T>) -> RowFault {
        RowFault::Memory
    }
}

impl fmt::Display for RowFault {
    ghost output = { λ f. Some (fault_text f) };

    fn fmt<W: fmt::Write>(&self, f: &mut fmt::Formatter<W>) -> fmt::Result {
        match *self {
            RowFault::NotANumber(field) => write!(
                f,
                "field {field} is not a number below 4294967296"
            ),
            RowFault::NoWords => write!(f, "a place with no words"),
            RowFault::Memory => write!(f, "out of memory"),
        }
    }
}

// A row prints as its place and its words, with commas between them.
impl fmt::Display for Row {
    ghost output = { λ r. Some (row_text r.place r.words.items) };

    fn fmt<W: fmt::Write>(&self, f: &mut fmt::Formatter<W>) -> fmt::Result {
        write!(f, "{}", self.place)?;
        for word in &self.words {
            write!(f, ",{word}")?;
        }
        Ok(())
    }
}

// The row that a line gives: a place and its words, with commas between them. There is none in an empty line, nor in a heading, whose
// first field is `place`.
pub fn read_row(heap: Global, line: &[u8]) -> Result<Option<Row>, RowFault>
    ensures meaning { ReadsRow line.now result }
    ensures read_back { ReadsBack line.now result }
{
    let (first, after) = first_field(line);
    if is_empty(line) || is_heading(first) {
        return Ok(None);
    }
    Ok(Some(read_fields(heap, first, after)?))
}

// The row of a line's first field and what comes after it.
fn read_fields(heap: Global, first: &[u8], after: Option<&[u8]>) -> Result<Row, RowFault>
    ensures { Answers row_meant (row_after first.now (fields_after after.entry)) result }
{
    let place = field_number(first).ok_or(RowFault::NotANumber(1))?;
    let words = read_words(heap, fields_of(after))?;
    if words.is_empty() {
        return Err(RowFault::NoWords);
    }
    Ok(Row { place, words })
}

// The words of the fields after the first.
fn read_words(heap: Global, rest: Fields) -> Result<Vec<u32>, RowFault>
    ensures { Answers vec_items (words_from 2 (fields_left rest.entry)) result }
{
    let mut words = Vec::new(heap);
    for field in rest {
        let word = field_number(field).ok_or(RowFault::NotANumber(words.len() + 2))?;
        words.push(word)?;
    }
    Ok(words)
}
