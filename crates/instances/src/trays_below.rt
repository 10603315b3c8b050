// What the arrays stand on: trays over words of memory, and drills over them.
use field::{Field, Nibble};
use layers::{Drill, Pair};
use shelf::Serviceable;
use trays::Tray;

// Three trays side by side.
pub type Three<'a> = Pair<Tray<'a>, Pair<Tray<'a>, Tray<'a>>>;

// Three trays of nibbles over as many words each.
pub fn three<'a>(words: &'a mut [u32]) -> Three<'a> {
    let places = words.len() / 3;
    let (first, rest) = words.split_at_mut(places);
    let (second, third) = rest.split_at_mut(places);
    Pair::new(
        Tray::new(first, Nibble::size()),
        Pair::new(
            Tray::new(second, Nibble::size()),
            Tray::new(third, Nibble::size()),
        ),
    )
}

// A drill over a shelf, whose bays stop at those calls.
pub fn drilled<S: Serviceable>(shelf: S, stops: &[(u32, usize)]) -> Drill<S> {
    let mut drill = Drill::new(shelf);
    for (call, bay) in stops.iter() {
        // A new drill has room for 16 of them.
        let _ = drill.add(*call, *bay);
    }
    drill
}
