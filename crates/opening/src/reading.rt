ghost use Rattle.std.specs.Prelude.{◌≤◌};
ghost use Rattle.shelf.specs.Bounds.{most_bays};
ghost use Rattle.opening.specs.Words.{ReadsPlace};

use arrayvec::ArrayVec;
use shelf::{MOST_BAYS, Shelf};

// What the cells of a place gave, bay after bay: a word, or none.
pub(crate) type Cells = ArrayVec<Option<u32>, MOST_BAYS>;

// Reads each cell of a place once.
pub(crate) fn read_place<S: Shelf>(below: &mut S, place: usize, bays: usize) -> Cells
    requires { bays ≤ most_bays }
    ensures { ReadsPlace S.Shelf.table S.Shelf.sound place bays below.old below.new result.items }
{
    let mut cells = Cells::new();
    // No index: a bay is named by its number.
    for bay in 0..bays {
        cells.push(below.read(bay, place).ok());
    }
    cells
}
