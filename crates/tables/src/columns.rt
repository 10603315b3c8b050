// The totals of the columns of a table.
ghost use Rattle.std.specs.Prelude.{◌≡◌, IfOk};
ghost use Rattle.tables.specs.Columns.{sums_of, column_at, Starts, Adds};
ghost use Rattle.tables.specs.Sums.{sum_of};

use crate::cell::Cell;
use crate::sums::{plus, sum_of, word_of};
use std::alloc::{AllocError, Global};

// The total of each column, none once a cell of it is not told.
#[derive(Drop)]
pub struct Totals {
    sums: Vec<Option<u64>>,
}

impl Totals {
    // The totals of so many columns, before any row.
    pub fn new(heap: Global, columns: usize) -> Result<Totals, AllocError>
        ensures { IfOk result (λ t. Starts columns (sums_of t)) }
    {
        let sums = vec![in heap; Some(0); columns]?;
        Ok(Totals { sums })
    }

    // Counts a row. A cell past the columns is passed over, and a column past the cells keeps its total.
    pub fn add(&mut self, cells: &[Cell])
        ensures { Adds cells.now (sums_of self.old) (sums_of self.new) }
    {
        let count = self.sums.len().min(cells.len());
        for j in 0..count {
            self.sums[j] = plus(self.sums[j], word_of(cells[j]));
        }
    }

    // The total of a column; none where there is no such column.
    pub fn column(&self, j: usize) -> Option<u64>
        ensures { result ≡ column_at (sums_of self.now) j }
    {
        *self.sums.get(j)?
    }

    // The total of all columns.
    pub fn whole(&self) -> Option<u64>
        ensures { result ≡ sum_of (sums_of self.now) }
    {
        sum_of(&self.sums)
    }
}
