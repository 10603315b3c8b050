ghost use Rattle.std.specs.Prelude.{◌≡◌, Some};
ghost use Rattle.packing.specs.Wording.{wording};
ghost use Rattle.packing.specs.declared.fault.PackFault.TheVariants.{Memory};

use std::alloc::{AllocError, AllocFailed};
use std::fmt;

// Why a file isn't packed or unpacked.
#[derive(Clone, Copy, PartialEq, Eq, Debug)]
pub enum PackFault {
    // The file has 2^32 bytes or more.
    TooLong,
    // The words begin with no file: there are too few, or one that is needed is too large for the packing.
    NoFile,
    // There was no memory for the words or the bytes.
    Memory,
}

// By hand, here and below: what a derive makes of an error, or prints, has no contract.
impl From<AllocError> for PackFault {
    ghost from_gives = { λ _ r. r ≡ Memory };

    fn from(_e: AllocError) -> PackFault {
        PackFault::Memory
    }
}

impl<T: Drop> From<AllocFailed<T>> for PackFault {
    ghost from_gives = { λ _ r. r ≡ Memory };

    fn from(_e: AllocFailed<T>) -> PackFault {
        PackFault::Memory
    }
}

impl fmt::Display for PackFault {
    ghost output = { λ f. Some (wording f) };

    fn fmt<W: fmt::Write>(&self, f: &mut fmt::Formatter<W>) -> fmt::Result {
        f.write_str(match *self {
            PackFault::TooLong => "the file has 4294967296 bytes or more",
            PackFault::NoFile => "the words begin with no file",
            PackFault::Memory => "out of memory",
        })
    }
}
