// The commands that a line can give, and what can be wrong with a line.
ghost use Rattle.std.specs.Prelude.{◌≡◌, Ok, Some};
ghost use Rattle.command.specs.Reading.{field_of};
ghost use Rattle.command.specs.Wording.{wording, field_name};
ghost use Rattle.command.specs.declared.command.Fault.TheVariants.{Memory};

use std::alloc::{AllocError, AllocFailed};
use std::fmt;

// The arithmetic that an archive's words are coded in.
#[derive(Clone, Copy, Debug, PartialEq, Eq)]
pub enum FieldName {
    // Words of 4 bits.
    Nibble,
    // Words of 8 bits.
    Byte,
    // The numbers below 65,537.
    Count,
}

impl TryFrom<&[u8]> for FieldName {
    type Error = Fault;

    ghost try_from_gives = { λ token r. r ≡ field_of token.now };

    // The field that a token names.
    #[tactic(auto, using(crate::proofs::Names::bytes_eq_reads))]
    fn try_from(token: &[u8]) -> Result<FieldName, Fault> {
        match token {
            b"nibble" => Ok(FieldName::Nibble),
            b"byte" => Ok(FieldName::Byte),
            b"count" => Ok(FieldName::Count),
            _ => Err(Fault::UnknownField),
        }
    }
}

impl FieldName {
    // The name of a field: a script that has it there names this field.
    pub fn name(self) -> &'static str
        ensures spelled { result.now ≡ field_name self }
        ensures read_back { field_of result.now ≡ Ok self }
    {
        match self {
            FieldName::Nibble => "nibble",
            FieldName::Byte => "byte",
            FieldName::Count => "count",
        }
    }
}

// By hand: what a derive prints has no contract.
impl fmt::Display for FieldName {
    ghost output = { λ f. Some (field_name f) };

    fn fmt<W: fmt::Write>(&self, f: &mut fmt::Formatter<W>) -> fmt::Result {
        f.write_str(self.name())
    }
}

// What an archive or an array is to be: the field of its words, how many bays hold data, how many hold checks, and how many places each
// bay has.
#[derive(Clone, Copy, Debug, PartialEq, Eq)]
pub struct Description {
    pub field: FieldName,
    pub data_bays: u32,
    pub check_bays: u32,
    pub places: u32,
}

// What a line asks for. A bay is a device, a place a position on each device, and a word the number in one cell.
#[derive(Debug, Drop, PartialEq, Eq)]
pub enum Command {
    // Build an archive.
    Archive(Description),
    // Put the words, one for each data bay, at a place.
    Lay { place: u32, words: Vec<u32> },
    // Put one word at a place of a bay.
    Write { bay: u32, place: u32, word: u32 },
    // Tell which data bays the other bays still tell where these bays are lost.
    Lost { bays: Vec<u32> },
}

// Why a line gives no command.
#[derive(Clone, Copy, Debug, PartialEq, Eq)]
pub enum Fault {
    // The line's first token names no command.
    UnknownCommand,
    // The token in the field's position names no field.
    UnknownField,
    // The token in the plan's position names no plan.
    UnknownPlan,
    // This token of the line, counted from 1, is not a number below 2^32.
    NotANumber(usize),
    // The line has too few or too many tokens for its command.
    TokenCount,
    // There was no memory for what the line holds.
    Memory,
}

// By hand, here and below: what a derive makes of an error, or prints, has no contract, and readers promise both.
impl From<AllocError> for Fault {
    ghost from_gives = { λ _ r. r ≡ Memory };

    fn from(_e: AllocError) -> Fault {
        Fault::Memory
    }
}

impl<T: Drop> From<AllocFailed<T>> for Fault {
    ghost from_gives = { λ _ r. r ≡ Memory };

    fn from(_e: AllocFailed<T>) -> Fault {
        Fault::Memory
    }
}

impl fmt::Display for Fault {
    ghost output = { λ f. Some (wording f) };

    fn fmt<W: fmt::Write>(&self, f: &mut fmt::Formatter<W>) -> fmt::Result {
        match *self {
            Fault::UnknownCommand => write!(f, "unknown command"),
            Fault::UnknownField => write!(f, "unknown field: nibble, byte or count"),
            Fault::UnknownPlan => write!(f, "unknown plan: powers"),
            Fault::NotANumber(token) => write!(f, "token {token} is not a number below 4294967296"),
            Fault::TokenCount => write!(f, "too few or too many tokens for the command"),
            Fault::Memory => write!(f, "out of memory"),
        }
    }
}
