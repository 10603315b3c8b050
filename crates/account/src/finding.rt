ghost use Rattle.std.specs.Prelude.{Some};
ghost use Rattle.account.specs.Findings.{finding_text};

use std::fmt;

// What a command found at a cell or a place.
#[derive(Clone, Copy, Debug, PartialEq, Eq)]
pub enum Finding {
    // The word of a cell.
    Word { bay: usize, place: usize, word: u32 },
    // How many cells of a run are lost.
    Surveyed { lost: usize },
    // One of them.
    LostCell { place: usize, bay: usize },
    // One of them, at a torn place.
    TornCell { place: usize, bay: usize },
    // How many cells of a place of a file are lost.
    LostAt { place: usize, cells: u32 },
    // The same where the place is torn.
    TornAt { place: usize, cells: u32 },
    // A file was got back.
    Got { bytes: usize },
}

// By hand: what a derive prints has no contract.
impl fmt::Display for Finding {
    ghost output = { λ e. Some (finding_text e) };

    fn fmt<W: fmt::Write>(&self, f: &mut fmt::Formatter<W>) -> fmt::Result {
        match *self {
            Finding::Word { bay, place, word } => write!(f, "bay {bay} place {place}: {word}"),
            Finding::Surveyed { lost } => write!(f, "lost cells {lost}"),
            Finding::LostCell { place, bay } => write!(f, "place {place} bay {bay}"),
            Finding::TornCell { place, bay } => write!(
                f,
                "place {place} bay {bay}, the place is torn"
            ),
            Finding::LostAt { place, cells } => write!(f, "place {place}: {cells} cells lost"),
            Finding::TornAt { place, cells } => write!(f, "place {place}: {cells} cells torn"),
            Finding::Got { bytes } => write!(f, "got {bytes} bytes"),
        }
    }
}
