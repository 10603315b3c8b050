ghost use Rattle.array.specs.Moving.{MovesCheck, Rewrites};

use plan::{Plan, moved_word};
use shelf::Shelf;

// Moves the word of check `i` where the word of data bay `bay` goes from the old to the new one. A check without that bay is not touched.
fn move_check<S: Shelf, P: Plan>(
    below: &mut S,
    plan: &P,
    i: usize,
    bay: usize,
    place: usize,
    old: u32,
    new: u32,
)
    ensures { MovesCheck S.Shelf.table S.Shelf.sound P.F.Field.arithmetic (P.Plan.coefficients plan.now) i bay place old new below.old below.new }
{
    if plan.coefficient(i, bay) == 0 {
        return;
    }
    let check_bay = plan.data_bays() + i;
    if let Ok(check) = below.read(check_bay, place) {
        // Where the cell went blank there is nothing to move.
        let _ = below.write(check_bay, place, moved_word(plan, i, bay, check, old, new));
    }
}

// Writes the new word of a data bay over the old one, and moves the checks.
pub(crate) fn rewrite<S: Shelf, P: Plan>(
    below: &mut S,
    plan: &P,
    bay: usize,
    place: usize,
    old: u32,
    new: u32,
)
    ensures { Rewrites S.Shelf.table S.Shelf.sound P.F.Field.arithmetic (P.Plan.coefficients plan.now) bay place old new below.old below.new }
{
    // Where the cell is blank, its word is told by the checks.
    let _ = below.write(bay, place, new);
    // No index: a check is named by its number.
    for i in 0..plan.check_bays() {
        move_check(below, plan, i, bay, place, old, new);
    }
}
