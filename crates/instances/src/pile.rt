// A pile of three arrays: one over one over a pair of arrays, each of which is over a drill over three trays.
ghost use Rattle.history.specs.Runs.{RunsArray, RunsNew};

use crate::account::tell;
use crate::fault::Fault;
use crate::lists::{lay, read, write};
use crate::trays_below::{Three, drilled, three};
use array::Array;
use field::{Field, Nibble};
use history::{Answer, Book, Call, run};
use layers::{Drill, Pair};
use plan::{Plan, Powers};
use shelf::{Refusal, Shelf};
use std::alloc::{AllocError, Global};
use trays::blank_words;

// The three arrays, from below: 2 bays over 3, 3 over the 4 of two such, 2 over those 3.
type Low<'a> = Array<Drill<Three<'a>>, Powers<Nibble>>;

type Middle<'a> = Array<Pair<Low<'a>, Low<'a>>, Powers<Nibble>>;

type High<'a> = Array<Middle<'a>, Powers<Nibble>>;

// A run on the pile: the law at its type.
fn run_high(high: &mut High, calls: &[Call], answers: &mut [Answer]) -> Result<(), Refusal>
    ensures law { RunsArray ⟦<Middle<'static> as Shelf>⟧.table ⟦<Middle<'static> as Shelf>⟧.sound ⟦<Nibble as Field>⟧.arithmetic ⟦<Powers<Nibble> as Plan>⟧.coefficients high.old high.new calls.now answers.old answers.new result }
    ensures new { RunsNew ⟦<Middle<'static> as Shelf>⟧.table ⟦<Middle<'static> as Shelf>⟧.sound ⟦<Nibble as Field>⟧.arithmetic ⟦<Powers<Nibble> as Plan>⟧.coefficients high.old high.new calls.now answers.new result }
{
    run(high, calls, answers)
}

// The calls of the history. In the first low array a data tray stops and then the check tray, so that it loses a bay, and the array over
// it tells that; the same in the second, and then a word of the high array is lost.
fn calls(heap: Global) -> Result<Vec<Call>, AllocError> {
    Ok(vec![in heap;
        lay(heap, 0, &[5, 6])?,
        read(0, 0),
        read(1, 0),
        write(1, 0, 9),
        read(0, 0),
        write(0, 0, 4),
        read(0, 0),
        read(1, 0),
        write(0, 0, 3),
        read(0, 0),
        read(0, 0),
        read(0, 0),
        read(1, 0),
        write(0, 0, 1),
        read(0, 0),
        lay(heap, 0, &[7, 8])?,
        read(0, 0),
        read(1, 0),
        read(1, 1),
        write(1, 1, 3),
        read(2, 0),
        read(0, 2),
        write(0, 0, 16),
        lay(heap, 0, &[1])?,
        lay(heap, 2, &[1, 2])?,
        lay(heap, 0, &[1, 16])?,
    ]?)
}

// Makes the pile, and runs the history on it.
fn answers(heap: Global, calls: &[Call]) -> Result<Vec<Answer>, Fault> {
    let low_plan = Powers::<Nibble>::new(2, 1)?;
    let middle_plan = Powers::<Nibble>::new(3, 1)?;
    let high_plan = Powers::<Nibble>::new(2, 1)?;
    let mut first = blank_words(heap, 6)?;
    let mut second = blank_words(heap, 6)?;
    let first = drilled(three(&mut first), &[(10, 0), (29, 2)]);
    let second = drilled(three(&mut second), &[(56, 0), (60, 2)]);
    let low = Pair::new(
        Array::assemble(first, low_plan),
        Array::assemble(second, low_plan),
    );
    let mut high = Array::assemble(Array::assemble(low, middle_plan), high_plan);
    let mut answers = vec![in heap; Answer::Done(Ok(())); calls.len()]?;
    run_high(&mut high, calls, &mut answers)?;
    Ok(answers)
}

// Runs the history, and tells it.
pub fn show(rt: &HostRuntime) -> anyhow::Result<()> {
    let heap = rt.alloc();
    let calls = calls(heap)?;
    let answers = answers(heap, &calls)?;
    let mut book = Book::new(heap, 2, 2)?;
    for (call, answer) in calls.iter().zip(answers.iter()) {
        tell(rt, &mut book, call, *answer)?;
    }
    Ok(())
}
