// What can be wrong with the text of a description.
ghost use Rattle.std.specs.Prelude.{◌≡◌, Some};
ghost use Rattle.description.specs.Outcome.{placed};
ghost use Rattle.description.specs.Wording.{wording, line_form};
ghost use Rattle.description.specs.declared.fault.Fault.TheVariants.{Memory};

use std::alloc::{AllocError, AllocFailed};
use std::fmt;

// The line that is wanted at a place of the text.
#[derive(Clone, Copy, Debug, PartialEq, Eq)]
pub enum Wanted {
    // The line that begins the text.
    Title,
    // The field of the archive's words.
    Field,
    // The plan, how many bays hold data, and how many hold checks.
    Plan,
    // The coefficients of a check of a written plan.
    Row,
    // How many places each bay has.
    Places,
    // The path of a bay's image, or that of an archive's description.
    Path,
    // The path of a bay's image, where the lines before are such paths.
    Bay,
    // The path of an archive's description, where the lines before are such paths.
    Part,
}

// Why a text gives no description.
#[derive(Clone, Copy, Debug, PartialEq, Eq)]
pub enum Fault {
    // The text ends where this line is wanted.
    Missing(Wanted),
    // The line of this number, counted from 1, is not the one that is wanted there.
    Misplaced { line: usize, wanted: Wanted },
    // The tokens of the line of this number have this fault.
    Line { line: usize, fault: command::Fault },
    // There was no memory for what the text holds.
    Memory,
}

// By hand, here and below: what a derive makes of an error, or prints, has no contract, and readers promise both.
impl From<AllocError> for Fault {
    ghost from_gives = { λ _ r. r ≡ Memory };

    fn from(_e: AllocError) -> Fault {
        Fault::Memory
    }
}

impl<T: Drop> From<AllocFailed<T>> for Fault {
    ghost from_gives = { λ _ r. r ≡ Memory };

    fn from(_e: AllocFailed<T>) -> Fault {
        Fault::Memory
    }
}

// The fault of the tokens of a line, as one of the text.
pub fn placed(line: usize, fault: command::Fault) -> Fault
    ensures { result ≡ placed line fault }
{
    match fault {
        command::Fault::Memory => Fault::Memory,
        fault => Fault::Line { line, fault },
    }
}

impl fmt::Display for Wanted {
    ghost output = { λ f. Some (line_form f) };

    fn fmt<W: fmt::Write>(&self, f: &mut fmt::Formatter<W>) -> fmt::Result {
        f.write_str(match self {
            Wanted::Title => "raskold archive",
            Wanted::Field => "field FIELD",
            Wanted::Plan => "plan PLAN DATA CHECKS",
            Wanted::Row => "row CODE ..",
            Wanted::Places => "places PLACES",
            Wanted::Path => "bay PATH or part PATH",
            Wanted::Bay => "bay PATH",
            Wanted::Part => "part PATH",
        })
    }
}

impl fmt::Display for Fault {
    ghost output = { λ f. Some (wording f) };

    fn fmt<W: fmt::Write>(&self, f: &mut fmt::Formatter<W>) -> fmt::Result {
        match *self {
            Fault::Missing(wanted) => write!(
                f,
                "the text ends where this line is wanted: {wanted}"
            ),
            Fault::Misplaced { line, wanted } => {
                write!(f, "line {line}: this line is wanted here: {wanted}")
            }
            Fault::Line { line, fault } => match fault {
                command::Fault::UnknownPlan => {
                    write!(f, "line {line}: unknown plan: powers, groups or written")
                }
                command::Fault::TokenCount => write!(f, "line {line}: too few or too many tokens"),
                fault => write!(f, "line {line}: {fault}"),
            },
            Fault::Memory => write!(f, "out of memory"),
        }
    }
}
