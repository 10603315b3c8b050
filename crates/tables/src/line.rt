// A line of a table.
ghost use Rattle.std.specs.Prelude.{Some};
ghost use Rattle.tables.specs.Texts.{line_text};

use crate::cell::Cell;
use crate::sums::total;
use std::fmt;

// A place and its cells. It prints as the place, the cells and their total, with commas between them.
#[derive(Clone, Copy)]
pub struct Line<'a> {
    pub place: u32,
    pub cells: &'a [Cell],
}

impl fmt::Display for Line<'_> {
    ghost output = { λ l. Some (line_text l.place l.cells.now) };

    fn fmt<W: fmt::Write>(&self, f: &mut fmt::Formatter<W>) -> fmt::Result {
        write!(f, "{}", self.place)?;
        for cell in self.cells {
            write!(f, ",{cell}")?;
        }
        match total(self.cells) {
            Some(sum) => write!(f, ",{sum}"),
            None => f.write_str(",not told"),
        }
    }
}
