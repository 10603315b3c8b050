ghost use Rattle.std.specs.Prelude.{◌≡◌};
ghost use Rattle.shelf.specs.Calls.{Outcome};
ghost use Rattle.array.specs.Decoding.{decoded};
ghost use Rattle.opening.specs.Agreement.{refuses_test, Tested, TestsExactly};

use crate::deciding::are_given;
use crate::reading::read_place;
use field::Field;
use plan::Plan;
use shelf::{Refusal, Shape, Shelf};

// How many places the array over the shelf by the plan has: none where the shelf doesn't match the plan.
pub(crate) fn array_places<S: Shelf, P: Plan>(below: &S, plan: &P) -> usize
    ensures { result ≡ (decoded P.F.Field.arithmetic (P.Plan.coefficients plan.now) (S.Shelf.table below.now)).places }
{
    let shape = Shape::from(below.shape());
    let order = P::F::size();
    if shape.bays == plan.data_bays() + plan.check_bays() && order <= shape.limit {
        shape.places
    } else {
        0
    }
}

// Whether some vector agrees with a place of the shelf below, so that calls of an array may have left its cells. Yes says that one
// agrees at the end, and no that none agreed at the start: cells may go blank meanwhile.
pub fn agrees<S: Shelf, P: Plan>(below: &mut S, plan: &P, place: usize) -> Result<bool, Refusal>
    ensures promised { Outcome S.Shelf.table S.Shelf.sound below.old below.new (refuses_test P.F.Field.arithmetic (P.Plan.coefficients plan.now) place) (Tested P.F.Field.arithmetic (P.Plan.coefficients plan.now) place) result }
    ensures exactly { TestsExactly S.Shelf.table S.Shelf.sound P.F.Field.arithmetic (P.Plan.coefficients plan.now) place below.old below.new result }
{
    if place >= array_places(below, plan) {
        return Err(Refusal::NoSuchPlace);
    }
    let cells = read_place(below, place, plan.data_bays() + plan.check_bays());
    Ok(are_given(plan, &cells))
}
