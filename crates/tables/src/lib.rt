// The words of an archive as tables of text: the lines that are printed of its cells, with their totals, and the lines that are read.
#![tactic(auto)]

mod cell;
mod columns;
mod fields;
mod line;
mod row;
mod sums;

pub use cell::Cell;
pub use columns::Totals;
pub use line::Line;
pub use row::{Row, RowFault, read_row};
pub use sums::total;
