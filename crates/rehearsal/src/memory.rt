// The memory of shelves, all blank at first: trays over it, and disks that own theirs.
use crate::fault::Fault;
use disk::Disk;
use layers::Pair;
use rack::Rack;
use std::alloc::Global;
use trays::{ImageTray, Tray, blank_image, blank_words};

// Three trays side by side.
pub(crate) type Three<'a> = Pair<Tray<'a>, Pair<Tray<'a>, Tray<'a>>>;

// So many places of a shelf in memory: 1 to 65,535, since the counts of an image go no further.
fn fit_places(places: u32) -> Result<u16, Fault> {
    match u16::try_from(places) {
        Ok(count) if count > 0 => Ok(count),
        _ => Err(Fault::PlacesOutOfRange),
    }
}

// Blank words for so many trays of so many places.
pub(crate) fn blank_bays(heap: Global, bays: usize, places: u32) -> Result<Vec<u32>, Fault> {
    let places = fit_places(places)?;
    Ok(blank_words(heap, bays.saturating_mul(usize::from(places)))?)
}

// Three trays over as many words each.
pub(crate) fn three<'a>(words: &'a mut [u32], limit: u32) -> Three<'a> {
    let places = words.len() / 3;
    let (first, rest) = words.split_at_mut(places);
    let (second, third) = rest.split_at_mut(places);
    Pair::new(
        Tray::new(first, limit),
        Pair::new(Tray::new(second, limit), Tray::new(third, limit)),
    )
}

// A row of so many disks of so many places, all blank.
pub(crate) fn blank_rack(
    heap: Global,
    bays: usize,
    places: u32,
    limit: u32,
) -> Result<Rack<Disk>, Fault> {
    let places = usize::from(fit_places(places)?);
    let mut disks = Vec::new(heap);
    for _ in 0..bays {
        disks.push(Disk::new(blank_words(heap, places)?, limit))?;
    }
    Ok(Rack::new(disks))
}

// The memory of a drill's four bays: the words of two trays, and the bytes of two image trays.
#[derive(Drop)]
pub(crate) struct Memory {
    first: Vec<u32>,
    second: Vec<u32>,
    third: Vec<u8>,
    fourth: Vec<u8>,
}

impl Memory {
    // All places are blank.
    pub(crate) fn blank(heap: Global, places: u32) -> Result<Memory, Fault> {
        let places = fit_places(places)?;
        Ok(Memory {
            first: blank_words(heap, usize::from(places))?,
            second: blank_words(heap, usize::from(places))?,
            third: blank_image(heap, places)?,
            fourth: blank_image(heap, places)?,
        })
    }

    // The two trays, and the two image trays.
    pub(crate) fn trays<'a>(
        &'a mut self,
        limit: u32,
    ) -> (Pair<Tray<'a>, Tray<'a>>, Pair<ImageTray<'a>, ImageTray<'a>>) {
        (
            Pair::new(
                Tray::new(&mut self.first, limit),
                Tray::new(&mut self.second, limit),
            ),
            Pair::new(
                ImageTray::new(&mut self.third),
                ImageTray::new(&mut self.fourth),
            ),
        )
    }
}
