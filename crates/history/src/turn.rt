ghost use Rattle.history.specs.Turns.{ShelfTurn, ArrayTurn, ServiceTurn};

use crate::call::{Answer, Call, Service};
use array::Array;
use plan::Plan;
use shelf::{Serviceable, Shelf};

// Makes one call, and says what it answered.
macro_rules! answer {
    ($shelf:ident, $call:ident) => {
        match $call {
            Call::Read { bay, place } => Answer::Word($shelf.read(*bay, *place)),
            Call::Write { bay, place, word } => Answer::Done($shelf.write(*bay, *place, *word)),
            Call::Lay { place, words } => Answer::Bits($shelf.lay(*place, words)),
        }
    };
}

// One call of a shelf.
pub(crate) fn shelf_turn<S: Shelf>(shelf: &mut S, call: &Call) -> Answer
    ensures { ShelfTurn S.Shelf.table S.Shelf.sound shelf.old shelf.new call.now result }
{
    answer!(shelf, call)
}

// One call of an array, which says more of the shelf below than a shelf does.
pub(crate) fn array_turn<S: Shelf, P: Plan>(array: &mut Array<S, P>, call: &Call) -> Answer
    ensures { ArrayTurn S.Shelf.table S.Shelf.sound P.F.Field.arithmetic P.Plan.coefficients array.old array.new call.now result }
{
    answer!(array, call)
}

// One call of an array that is serviced.
pub(crate) fn service_turn<S: Serviceable, P: Plan>(
    array: &mut Array<S, P>,
    call: &Service,
) -> Answer
    ensures { ServiceTurn S.Shelf.table S.Shelf.sound P.F.Field.arithmetic P.Plan.coefficients array.old array.new call.now result }
{
    match call {
        Service::Plain(call) => array_turn(array, call),
        Service::Mend { bay, place } => Answer::Mended(array.mend(*bay, *place)),
        Service::Exchange { bay } => Answer::Done(array.exchange(*bay)),
    }
}
