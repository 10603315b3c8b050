// What is refused where shelves and plans are made.
use crate::log::{Log, Subject};
use field::{Byte, Count, Nibble};
use layers::Drill;
use plan::{Groups, Powers, Refusal, Written};
use shelf::Shelf;
use std::io;
use trays::{ImageTray, Misfit, Tray};

// The number of why memory makes no tray.
fn misfit(checked: Result<(), Misfit>) -> Option<u32> {
    match checked {
        Ok(()) => None,
        Err(misfit) => Some(misfit.number()),
    }
}

// The number of why a plan is not made.
fn number<P: Drop>(made: Result<P, Refusal>) -> Option<u32> {
    match made {
        Ok(_) => None,
        Err(refusal) => Some(refusal.number()),
    }
}

// A tray over so many words with this limit: what its check answers, and whether an unfit one has no bay and a fit one has its own shape.
fn tray(
    log: &mut Log,
    what: &str,
    words: &mut [u32],
    limit: u32,
    expected: Option<u32>,
) -> io::Result<()> {
    let places = words.len();
    let tray = Tray::new(words, limit);
    let shape = match expected {
        None => (1, places, limit),
        Some(_) => (0, 0, 16),
    };
    let same = tray.shape() == shape;
    log.tell(what, expected, misfit(tray.check()), same)
}

// Trays.
pub fn trays(log: &mut Log) -> io::Result<()> {
    log.of = Subject::Tray;
    let mut words = [0u32; 3];
    tray(log, "limit 16", &mut words, 16, None)?;
    tray(log, "limit 15", &mut words, 15, Some(11))?;
    tray(log, "limit 65537", &mut words, 65_537, None)?;
    tray(log, "limit 65538", &mut words, 65_538, Some(11))?;
    tray(log, "no words", &mut words[..0], 16, Some(12))?;
    tray(log, "no words and limit 15", &mut words[..0], 15, Some(11))
}

// An image tray over these bytes.
fn image(log: &mut Log, what: &str, bytes: &mut [u8], expected: Option<u32>) -> io::Result<()> {
    let places = bytes.len().saturating_sub(4) / 2;
    let image = ImageTray::new(bytes);
    let shape = match expected {
        None => (1, places, 256),
        Some(_) => (0, 0, 16),
    };
    let same = image.shape() == shape;
    log.tell(what, expected, misfit(image.check()), same)
}

// Image trays.
pub fn images(log: &mut Log) -> io::Result<()> {
    log.of = Subject::ImageTray;
    image(log, "two places", &mut [2, 0, 1, 0, 2, 0, 7, 8], None)?;
    image(log, "no bytes", &mut [], Some(13))?;
    image(log, "one byte", &mut [1], Some(13))?;
    image(log, "no places", &mut [0, 0, 0, 0], Some(13))?;
    image(
        log,
        "counts that differ",
        &mut [2, 0, 1, 0, 1, 0, 7, 8],
        Some(13),
    )?;
    image(
        log,
        "a byte after the words",
        &mut [1, 0, 1, 1, 0, 7, 8],
        Some(13),
    )?;
    image(log, "a byte too few", &mut [1, 0, 1, 1, 0], Some(13))?;
    image(
        log,
        "counts with the high byte first",
        &mut [0, 1, 1, 0, 1, 7],
        Some(13),
    )
}

// Plans.
pub fn plans(log: &mut Log) -> io::Result<()> {
    log.of = Subject::Powers;
    log.done("15 and 8", number(Powers::<Nibble>::new(15, 8)))?;
    log.refused("0 and 1", 14, number(Powers::<Nibble>::new(0, 1)))?;
    log.refused("16 and 1", 14, number(Powers::<Byte>::new(16, 1)))?;
    log.refused("1 and 0", 14, number(Powers::<Count>::new(1, 0)))?;
    log.refused("1 and 9", 14, number(Powers::<Count>::new(1, 9)))?;
    log.of = Subject::Groups;
    log.done("3 and 3", number(Groups::<Nibble>::new(3, 3)))?;
    log.refused("3 and 4", 14, number(Groups::<Nibble>::new(3, 4)))?;
    log.of = Subject::Written;
    let table = [1u32; 31];
    log.done("30 codes", number(Written::new(15, 2, &table[..30])))?;
    log.refused("29 codes", 15, number(Written::new(15, 2, &table[..29])))?;
    log.refused("31 codes", 15, number(Written::new(15, 2, &table)))?;
    log.refused(
        "16 and 2, 29 codes",
        14,
        number(Written::new(16, 2, &table[..29])),
    )
}

// The events of a drill: it takes 16, and a 17th leaves it as it was.
pub fn events(log: &mut Log) -> io::Result<()> {
    log.of = Subject::Drill;
    let mut words = [7u32];
    let mut drill = Drill::new(Tray::new(&mut words, 16));
    let mut taken = 0u32;
    for _ in 0..16 {
        if drill.add(100, 0).is_ok() {
            taken = taken.saturating_add(1);
        }
    }
    log.kept("16 events", taken == 16)?;
    let refused = match drill.add(0, 0) {
        Ok(()) => None,
        Err(overfull) => Some(overfull.number()),
    };
    let same = drill.read(0, 0) == Ok(7);
    log.tell("a further event", Some(16), refused, same)
}
