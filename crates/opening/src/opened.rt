ghost use Rattle.std.specs.Prelude.{IfOk};
ghost use Rattle.opening.specs.Opening.{OpensPlace, Opens};

use crate::agreement::{agrees, array_places};
use array::Array;
use plan::Plan;
use shelf::Clearable;
use std::alloc::{AllocError, Global};

// An array, and which of its places were torn when it was opened: their words were not those that any calls of an array left, and
// their cells were made blank.
#[derive(Drop)]
pub struct Opened<S, P> {
    pub array: Array<S, P>,
    pub torn: Vec<bool>,
}

// Clears a place of the array that no vector agrees with, and says whether it did.
fn clear_torn<S: Clearable, P: Plan>(below: &mut S, plan: &P, place: usize) -> bool
    ensures { OpensPlace S.Shelf.table S.Shelf.sound P.F.Field.arithmetic (P.Plan.coefficients plan.now) place below.old below.new result }
{
    let torn = agrees(below, plan, place) == Ok(false);
    if torn {
        below.clear(place);
    }
    torn
}

// Opens an array over a shelf: tests every place, clears those that no vector agrees with, and assembles. The memory for the marks is
// taken first, so that where there is none nothing is done.
pub fn open<S: Clearable + Drop, P: Plan + Drop>(
    heap: Global,
    below: S,
    plan: P,
) -> Result<Opened<S, P>, AllocError>
    ensures { IfOk result (Opens S.Shelf.table S.Shelf.sound P.F.Field.arithmetic P.Plan.coefficients below plan) }
{
    let mut below = below;
    let places = array_places(&below, &plan);
    let mut torn = vec![in heap; false; places]?;
    for place in 0..places {
        torn[place] = clear_torn(&mut below, &plan, place);
    }
    Ok(Opened {
        array: Array::assemble(below, plan),
        torn,
    })
}
