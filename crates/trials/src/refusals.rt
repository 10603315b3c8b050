// One of every refusal of every call, on shelves of each kind.
use crate::attempts::{number, refused, services_refused};
use crate::log::{Log, Subject};
use array::{Array, Mending};
use disk::Disk;
use field::{Byte, Field, Nibble};
use history::{Call, keep};
use layers::{Drill, Pair};
use plan::{Plan, Powers};
use rack::Rack;
use shelf::{LostCell, Refusal, Serviceable, Shelf, fetch, survey};
use std::alloc::Global;
use std::io;
use trays::{BLANK, ImageTray, Tray};

// A word, and a blank place.
const WORDS: [u32; 2] = [7, BLANK];

// The refused calls of a pair of trays, whose words are looked at too.
fn on_trays(log: &mut Log) -> io::Result<()> {
    let (mut first, mut second) = (WORDS, WORDS);
    let mut pair = Pair::new(Tray::new(&mut first, 256), Tray::new(&mut second, 256));
    log.of = Subject::TrayPair;
    services_refused(log, &mut pair)?;
    let same = first == WORDS && second == WORDS;
    log.kept("its words after that", same)
}

// The same of image trays.
fn on_images(log: &mut Log) -> io::Result<()> {
    let bytes = [2u8, 0, 1, 5, 2, 0, 7, 8];
    let (mut first, mut second) = (bytes, bytes);
    let mut pair = Pair::new(ImageTray::new(&mut first), ImageTray::new(&mut second));
    log.of = Subject::ImagePair;
    services_refused(log, &mut pair)?;
    let same = first == bytes && second == bytes;
    log.kept("its bytes after that", same)
}

// A rack of two disks.
fn two_disks(heap: Global) -> Result<Rack<Disk>, std::alloc::AllocError> {
    let first = Disk::new(WORDS.to_vec(heap)?, 256);
    let second = Disk::new(WORDS.to_vec(heap)?, 256);
    Ok(Rack::new(vec![in heap; first, second]?))
}

// The same of a rack, and of a drill over one.
fn on_disks(log: &mut Log) -> anyhow::Result<()> {
    let mut rack = two_disks(log.heap())?;
    log.of = Subject::Rack;
    services_refused(log, &mut rack)?;
    let mut drill = Drill::new(two_disks(log.heap())?);
    log.of = Subject::Drill;
    services_refused(log, &mut drill)?;
    let _ = drill.add(0, 1);
    log.of = Subject::StoppedDrill;
    log.refused("read", 5, number(drill.read(1, 0)))?;
    log.refused("write", 5, number(drill.write(1, 0, 1)))?;
    log.refused("patch", 5, number(drill.patch(1, 0, 1)))?;
    log.done("lay", number(drill.lay(1, &[1, 2])))?;
    log.done("exchange", number(drill.exchange(1)))?;
    Ok(())
}

// An array of two data bays and one check bay over a drill over trays, with words at place 0 alone.
fn on_array(log: &mut Log, plan: Powers<Byte>) -> io::Result<()> {
    let (mut first, mut second, mut third) = ([BLANK; 2], [BLANK; 2], [BLANK; 2]);
    let trays = Pair::new(Tray::new(&mut second, 256), Tray::new(&mut third, 256));
    let below = Drill::new(Pair::new(Tray::new(&mut first, 256), trays));
    let mut array = Array::assemble(below, plan);
    log.of = Subject::Array;
    log.done("lay", number(array.lay(0, &[7, 7])))?;
    refused(log, &mut array)?;
    log.refused("exchange of no bay", 1, number(array.exchange(3)))?;
    mends(log, &mut array)?;
    sweeps(log, &mut array)?;
    let (mut below, _) = array.take_apart();
    let _ = below.add(0, 2);
    let mut array = Array::assemble(below, plan);
    log.of = Subject::StoppedArray;
    log.refused("mend of it", 6, number(array.mend(2, 0)))?;
    log.refused("mend of it at a blank place", 5, number(array.mend(2, 1)))?;
    log.done("mend of another", number(array.mend(1, 0)))
}

// Mends of an array, which count the bays below.
fn mends<S: Serviceable, P: Plan>(log: &mut Log, array: &mut Array<S, P>) -> io::Result<()> {
    log.refused("mend in no bay", 1, number(array.mend(3, 0)))?;
    log.refused("mend in no bay and no place", 1, number(array.mend(3, 2)))?;
    log.refused("mend in no place", 2, number(array.mend(2, 2)))?;
    log.refused("mend at a blank place", 5, number(array.mend(2, 1)))?;
    let whole = array.mend(2, 0);
    log.tell(
        "mend of a whole cell",
        None,
        number(whole),
        whole == Ok(Mending::Whole),
    )?;
    log.done("exchange", number(array.exchange(2)))?;
    let patched = array.mend(2, 0);
    log.tell(
        "mend of a blank one",
        None,
        number(patched),
        patched == Ok(Mending::Patched),
    )
}

// A sweep into bytes that hold 9 before, and those that it should leave.
fn sweep<S: Serviceable, P: Plan, const N: usize>(
    log: &mut Log,
    array: &mut Array<S, P>,
    what: &str,
    run: (usize, usize),
    expected: Option<u32>,
    left: [u8; N],
) -> io::Result<()> {
    let mut bytes = [9u8; N];
    let found = number(array.sweep(run.0, run.1, &mut bytes));
    log.tell(what, expected, found, bytes == left)
}

fn sweeps<S: Serviceable, P: Plan>(log: &mut Log, array: &mut Array<S, P>) -> io::Result<()> {
    sweep(log, array, "sweep of no bay", (3, 0), Some(1), [9, 9])?;
    sweep(
        log,
        array,
        "sweep of no bay past the places",
        (3, 1),
        Some(1),
        [9, 9],
    )?;
    sweep(log, array, "sweep past the places", (0, 1), Some(2), [9, 9])?;
    sweep(
        log,
        array,
        "sweep of no place behind the last",
        (0, 2),
        None,
        [],
    )?;
    sweep(
        log,
        array,
        "sweep of no place further on",
        (0, 3),
        Some(2),
        [],
    )?;
    sweep(log, array, "sweep", (0, 0), None, [0, 5])
}

// An array that does not fit the shelf below it: it has no bays and no places.
fn on_misfit(log: &mut Log, plan: Powers<Byte>) -> io::Result<()> {
    let (mut first, mut second) = (WORDS, WORDS);
    let below = Pair::new(Tray::new(&mut first, 256), Tray::new(&mut second, 256));
    let mut array = Array::assemble(below, plan);
    log.of = Subject::MisfitArray;
    let none = array.shape() == (0, 0, 256);
    log.kept("its shape", none)?;
    log.refused("read", 1, number(array.read(0, 0)))?;
    log.refused("write", 1, number(array.write(0, 0, 1)))?;
    log.refused("lay", 2, number(array.lay(0, &[1, 2])))?;
    log.refused("mend", 1, number(array.mend(0, 0)))?;
    log.refused("exchange", 1, number(array.exchange(0)))?;
    log.refused("sweep", 1, number(array.sweep(0, 0, &mut [])))?;
    log.kept("its words after that", first == WORDS && second == WORDS)
}

// A fetch on a tray of three places, of which the second is blank, into words and marks that hold 9 before, and what they should hold.
fn fetch_from<const N: usize, const M: usize>(
    log: &mut Log,
    what: &str,
    run: (usize, usize),
    expected: (Option<u32>, usize),
    left: ([u32; N], [u8; M]),
) -> io::Result<()> {
    let mut cells = [4u32, BLANK, 6];
    let mut tray = Tray::new(&mut cells, 16);
    let (mut words, mut marks) = ([9u32; N], [9u8; M]);
    let answer = fetch(&mut tray, run.0, run.1, &mut words, &mut marks);
    let count = answer.unwrap_or(0) == expected.1;
    let same = count && words == left.0 && marks == left.1 && cells == [4, BLANK, 6];
    log.tell(what, expected.0, number(answer), same)
}

fn fetches(log: &mut Log) -> io::Result<()> {
    log.of = Subject::Fetch;
    fetch_from(log, "all places", (0, 0), (None, 2), ([4, 9, 6], [1, 0, 1]))?;
    fetch_from(log, "no place behind the last", (0, 3), (None, 0), ([], []))?;
    fetch_from(log, "no place further on", (0, 4), (Some(2), 0), ([], []))?;
    fetch_from(log, "of no bay", (1, 0), (Some(1), 0), ([9], [9]))?;
    fetch_from(
        log,
        "of no bay, two lengths, too far",
        (1, 4),
        (Some(1), 0),
        ([9], [9, 9]),
    )?;
    fetch_from(log, "two lengths", (0, 0), (Some(4), 0), ([9], [9, 9]))?;
    fetch_from(log, "two lengths, too far", (0, 4), (Some(4), 0), ([9], []))?;
    fetch_from(log, "too far", (0, 2), (Some(2), 0), ([9, 9], [9, 9]))
}

const NO_CELL: LostCell = LostCell { bay: 9, place: 9 };

const LOST_CELL: LostCell = LostCell { bay: 0, place: 1 };

// A survey of such a tray, into a list that holds no cell before, and what it should hold.
fn survey_of<const N: usize>(
    log: &mut Log,
    what: &str,
    run: (usize, usize),
    expected: (Option<u32>, usize),
    left: [LostCell; N],
) -> io::Result<()> {
    let mut cells = [4u32, BLANK, BLANK];
    let mut tray = Tray::new(&mut cells, 16);
    let mut list = [NO_CELL; N];
    let answer = survey(&mut tray, run.0, run.1, &mut list);
    let same = answer.unwrap_or(0) == expected.1 && list == left;
    log.tell(what, expected.0, number(answer), same)
}

fn surveys(log: &mut Log) -> io::Result<()> {
    log.of = Subject::Survey;
    let next = LostCell { bay: 0, place: 2 };
    survey_of(
        log,
        "all places",
        (0, 3),
        (None, 2),
        [LOST_CELL, next, NO_CELL],
    )?;
    survey_of(
        log,
        "no place behind the last",
        (3, 0),
        (None, 0),
        [NO_CELL],
    )?;
    survey_of(log, "no place further on", (4, 0), (Some(2), 0), [NO_CELL])?;
    survey_of(log, "too far", (1, 3), (Some(2), 0), [NO_CELL])?;
    survey_of(
        log,
        "too far, with too short a list",
        (1, 3),
        (Some(2), 0),
        [],
    )?;
    survey_of(log, "too short a list", (0, 3), (Some(7), 0), [LOST_CELL])
}

// A run of calls without room for its answers.
fn without_room(log: &mut Log) -> io::Result<()> {
    log.of = Subject::Run;
    let mut words = WORDS;
    let mut tray = Tray::new(&mut words, Nibble::size());
    let kept: Result<(), Refusal> = keep(
        &mut tray,
        &[Call::Write {
            bay: 0,
            place: 0,
            word: 1,
        }],
        &mut [],
    );
    log.tell(
        "without room for its answers",
        Some(4),
        number(kept),
        words == WORDS,
    )
}

// All of these.
pub fn show(log: &mut Log) -> anyhow::Result<()> {
    on_trays(log)?;
    on_images(log)?;
    on_disks(log)?;
    if let Ok(plan) = Powers::<Byte>::new(2, 1) {
        on_array(log, plan)?;
        on_misfit(log, plan)?;
    }
    fetches(log)?;
    surveys(log)?;
    without_room(log)?;
    Ok(())
}
