// An array of nibbles over a drill over six trays, with every kind of call and of refusal.
use crate::account::tell_service;
use crate::fault::Fault;
use crate::lists::{exchange, lay, mend, read, write};
use crate::trays_below::{drilled, three};
use array::Array;
use field::Nibble;
use history::{Answer, Book, Service, serve};
use layers::Pair;
use plan::Powers;
use std::alloc::{AllocError, Global};
use trays::blank_words;

// The calls of the history. Fresh devices come into bays 1, 2 and 5, and later bays 2, 3 and 4 stop.
fn calls(heap: Global) -> Result<Vec<Service>, AllocError> {
    Ok(vec![in heap;
        Service::Plain(lay(heap, 0, &[3, 13, 9])?),
        Service::Plain(write(1, 0, 1)),
        exchange(1),
        exchange(2),
        exchange(5),
        Service::Plain(read(1, 0)),
        Service::Plain(read(2, 0)),
        mend(5, 0),
        mend(5, 0),
        mend(2, 0),
        Service::Plain(write(2, 0, 7)),
        Service::Plain(read(2, 0)),
        Service::Plain(read(1, 0)),
        mend(1, 0),
        Service::Plain(write(1, 0, 2)),
        Service::Plain(read(1, 0)),
        Service::Plain(read(0, 0)),
        Service::Plain(read(0, 1)),
    ]?)
}

// Calls that are refused for their arguments.
fn refused(heap: Global) -> Result<Vec<Service>, AllocError> {
    Ok(vec![in heap;
        Service::Plain(read(3, 0)),
        Service::Plain(read(0, 2)),
        Service::Plain(write(3, 0, 1)),
        Service::Plain(write(0, 2, 1)),
        Service::Plain(write(0, 0, 16)),
        Service::Plain(lay(heap, 2, &[1, 2, 3])?),
        Service::Plain(lay(heap, 0, &[1, 2, 16])?),
        Service::Plain(lay(heap, 0, &[1, 2])?),
        mend(6, 0),
        mend(0, 2),
        exchange(6),
    ]?)
}

// Makes the array, and runs the history on it.
fn answers(heap: Global, calls: &[Service]) -> Result<Vec<Answer>, Fault> {
    let mut first = blank_words(heap, 6)?;
    let mut second = blank_words(heap, 6)?;
    let below = Pair::new(three(&mut first), three(&mut second));
    let stops = [(33, 2), (59, 3), (59, 4)];
    let mut array = Array::assemble(drilled(below, &stops), Powers::<Nibble>::new(3, 3)?);
    let mut answers = vec![in heap; Answer::Done(Ok(())); calls.len()]?;
    serve(&mut array, calls, &mut answers)?;
    Ok(answers)
}

// Runs a list of calls, and tells it.
fn show_list(rt: &HostRuntime, calls: &[Service]) -> anyhow::Result<()> {
    let heap = rt.alloc();
    let answers = answers(heap, calls)?;
    let mut book = Book::new(heap, 3, 2)?;
    for (call, answer) in calls.iter().zip(answers.iter()) {
        tell_service(rt, &mut book, call, *answer)?;
    }
    Ok(())
}

// What a run answers that has no room for its answers.
fn without_room(heap: Global, calls: &[Service]) -> Result<(), Fault> {
    let mut words = blank_words(heap, 3)?;
    let mut array = Array::assemble(three(&mut words), Powers::<Nibble>::new(2, 1)?);
    Ok(serve(&mut array, calls, &mut [])?)
}

// Runs the history and the refused calls, each on an array of its own.
pub fn show(rt: &HostRuntime) -> anyhow::Result<()> {
    let heap = rt.alloc();
    let calls = calls(heap)?;
    show_list(rt, &calls)?;
    show_list(rt, &refused(heap)?)?;
    match without_room(heap, &calls) {
        Ok(()) => println!(rt; "a run without room for its answers: done")?,
        Err(fault) => println!(rt; "a run without room for its answers: {fault}")?,
    }
    Ok(())
}
