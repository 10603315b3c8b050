// Calls that are refused, on any shelf of two bays and two places with limit 256, of which place 0 is filled and place 1 blank.
use crate::log::Log;
use shelf::{Refusal, Serviceable, Shelf};
use std::io;

// A call of a shelf.
#[derive(Clone, Copy)]
enum Attempt {
    Read(usize, usize),
    Write(usize, usize, u32),
    Lay(usize, &'static [u32]),
}

// A call of a serviceable shelf.
#[derive(Clone, Copy)]
enum Service {
    Patch(usize, usize, u32),
    Exchange(usize),
}

// The number of a refusal.
pub fn number<T: Copy>(answer: Result<T, Refusal>) -> Option<u32> {
    match answer {
        Ok(_) => None,
        Err(refusal) => Some(refusal.number()),
    }
}

impl Attempt {
    fn on<S: Shelf>(self, shelf: &mut S) -> Option<u32> {
        match self {
            Attempt::Read(bay, place) => number(shelf.read(bay, place)),
            Attempt::Write(bay, place, word) => number(shelf.write(bay, place, word)),
            Attempt::Lay(place, words) => number(shelf.lay(place, words)),
        }
    }
}

impl Service {
    fn on<S: Serviceable>(self, shelf: &mut S) -> Option<u32> {
        match self {
            Service::Patch(bay, place, word) => number(shelf.patch(bay, place, word)),
            Service::Exchange(bay) => number(shelf.exchange(bay)),
        }
    }
}

// By the refusal that comes, the earlier one where two apply.
const ATTEMPTS: [(&str, u32, Attempt); 17] = [
    ("read of no bay", 1, Attempt::Read(2, 0)),
    ("read of no bay and no place", 1, Attempt::Read(2, 2)),
    ("read of no place", 2, Attempt::Read(1, 2)),
    ("read of a blank cell", 5, Attempt::Read(1, 1)),
    ("write in no bay", 1, Attempt::Write(2, 0, 1)),
    (
        "write in no bay and no place, of no word",
        1,
        Attempt::Write(2, 2, 256),
    ),
    (
        "write in no place, of no word",
        2,
        Attempt::Write(0, 2, 256),
    ),
    ("write of no word", 3, Attempt::Write(0, 0, 256)),
    (
        "write of no word in a blank cell",
        3,
        Attempt::Write(0, 1, 256),
    ),
    ("write in a blank cell", 5, Attempt::Write(0, 1, 1)),
    ("lay at no place", 2, Attempt::Lay(2, &[1, 2])),
    ("lay of one word at no place", 2, Attempt::Lay(2, &[1])),
    ("lay of no word at no place", 2, Attempt::Lay(2, &[1, 256])),
    ("lay of one word", 4, Attempt::Lay(0, &[1])),
    ("lay of three words", 4, Attempt::Lay(0, &[1, 2, 3])),
    ("lay of one word that is none", 4, Attempt::Lay(0, &[256])),
    ("lay of a word that is none", 3, Attempt::Lay(0, &[1, 256])),
];

const SERVICES: [(&str, u32, Service); 6] = [
    ("patch in no bay", 1, Service::Patch(2, 0, 1)),
    (
        "patch in no bay and no place, of no word",
        1,
        Service::Patch(2, 2, 256),
    ),
    (
        "patch in no place, of no word",
        2,
        Service::Patch(1, 2, 256),
    ),
    ("patch of no word", 3, Service::Patch(1, 0, 256)),
    (
        "patch of no word in a blank cell",
        3,
        Service::Patch(1, 1, 256),
    ),
    ("exchange of no bay", 1, Service::Exchange(2)),
];

// The cells, by reads.
fn cells<S: Shelf>(shelf: &mut S) -> [Option<u32>; 4] {
    let mut found = [None; 4];
    for (k, cell) in found.iter_mut().enumerate() {
        *cell = shelf.read(k % 2, k / 2).ok();
    }
    found
}

// Makes the calls of a shelf, and reads its cells again after each.
pub fn refused<S: Shelf>(log: &mut Log, shelf: &mut S) -> io::Result<()> {
    let before = cells(shelf);
    for (what, expected, attempt) in ATTEMPTS.iter() {
        let found = attempt.on(shelf);
        let same = cells(shelf) == before;
        log.tell(what, Some(*expected), found, same)?;
    }
    Ok(())
}

// The same with the calls of a serviceable shelf.
pub fn services_refused<S: Serviceable>(log: &mut Log, shelf: &mut S) -> io::Result<()> {
    refused(log, shelf)?;
    let before = cells(shelf);
    for (what, expected, service) in SERVICES.iter() {
        let found = service.on(shelf);
        let same = cells(shelf) == before;
        log.tell(what, Some(*expected), found, same)?;
    }
    Ok(())
}
