// What is known of a cell of an archive's table.
ghost use Rattle.std.specs.Prelude.{◌≡◌, Some};
ghost use Rattle.tables.specs.Cells.{told};
ghost use Rattle.tables.specs.Texts.{cell_text};

use std::fmt;

#[derive(Clone, Copy, PartialEq, Eq, Debug)]
pub enum Cell {
    // Its word is told.
    Told(u32),
    // Nothing tells its word.
    Lost,
    // The words of its place were left by no calls.
    Torn,
}

impl Cell {
    // The word of the cell, if it is told.
    pub fn told(self) -> Option<u32>
        ensures { result ≡ told self }
    {
        match self {
            Cell::Told(word) => Some(word),
            Cell::Lost | Cell::Torn => None,
        }
    }
}

// By hand: what a derive prints has no contract.
impl fmt::Display for Cell {
    ghost output = { λ c. Some (cell_text c) };

    fn fmt<W: fmt::Write>(&self, f: &mut fmt::Formatter<W>) -> fmt::Result {
        match *self {
            Cell::Told(word) => write!(f, "{word}"),
            Cell::Lost => f.write_str("lost"),
            Cell::Torn => f.write_str("torn"),
        }
    }
}
