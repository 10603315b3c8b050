ghost use Rattle.history.specs.Runs.{RunsShelf, RunsArray, RunsNew, RunsService, RunsServiceNew};

use crate::call::{Answer, Call, Service};
use crate::turn::{array_turn, service_turn, shelf_turn};
use array::Array;
use plan::Plan;
use shelf::{Refusal, Serviceable, Shelf};

// Makes the calls on a shelf in turn, and records what each answered. Where the answers are not as many as the calls it is refused.
pub fn keep<S: Shelf>(shelf: &mut S, calls: &[Call], answers: &mut [Answer]) -> Result<(), Refusal>
    ensures { RunsShelf S.Shelf.table S.Shelf.sound shelf.old shelf.new calls.now answers.old answers.new result }
{
    if calls.len() != answers.len() {
        return Err(Refusal::WrongCount);
    }
    for (i, call) in calls.iter().enumerate() {
        answers[i] = shelf_turn(shelf, call);
    }
    Ok(())
}

// The same on an array, over any shelf and by any plan.
pub fn run<S: Shelf, P: Plan>(
    array: &mut Array<S, P>,
    calls: &[Call],
    answers: &mut [Answer],
) -> Result<(), Refusal>
    ensures law { RunsArray S.Shelf.table S.Shelf.sound P.F.Field.arithmetic P.Plan.coefficients array.old array.new calls.now answers.old answers.new result }
    ensures new { RunsNew S.Shelf.table S.Shelf.sound P.F.Field.arithmetic P.Plan.coefficients array.old array.new calls.now answers.new result }
{
    if calls.len() != answers.len() {
        return Err(Refusal::WrongCount);
    }
    for (i, call) in calls.iter().enumerate() {
        answers[i] = array_turn(array, call);
    }
    Ok(())
}

// The same on an array over a serviceable shelf, with mends and exchanges among the calls.
pub fn serve<S: Serviceable, P: Plan>(
    array: &mut Array<S, P>,
    calls: &[Service],
    answers: &mut [Answer],
) -> Result<(), Refusal>
    ensures law { RunsService S.Shelf.table S.Shelf.sound P.F.Field.arithmetic P.Plan.coefficients array.old array.new calls.now answers.old answers.new result }
    ensures new { RunsServiceNew S.Shelf.table S.Shelf.sound P.F.Field.arithmetic P.Plan.coefficients array.old array.new calls.now answers.new result }
{
    if calls.len() != answers.len() {
        return Err(Refusal::WrongCount);
    }
    for (i, call) in calls.iter().enumerate() {
        answers[i] = service_turn(array, call);
    }
    Ok(())
}
