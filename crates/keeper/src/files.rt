// The bytes of a file over the data bays of an archive.
use crate::cells::refused;
use account::{Change, Finding};
use anyhow::{anyhow, bail};
use packing::{file_words, length_words, pack, unpack};
use shelf::{Refusal, Shape, Shelf};
use storage::{Archive, FieldKind, Filing, Part, is_there};

// How many places so many words take, with so many at each.
fn places_for(words: usize, bays: usize) -> usize {
    if bays == 0 { 0 } else { words.div_ceil(bays) }
}

// Puts the bytes of a file over the places from the first on: word after word, bay after bay. The last place is filled with zeros.
pub(crate) fn put<F: FieldKind, S: Part<F>>(
    rt: &HostRuntime,
    archive: &mut Archive<F, S>,
    name: &str,
    bytes: &[u8],
) -> anyhow::Result<Change> {
    let Shape { bays, places, .. } = archive.shape();
    let words = match pack(rt.alloc(), F::packing(), bytes) {
        Ok(words) => words,
        Err(fault) => bail!("{name}: {fault}"),
    };
    let needed = places_for(words.len(), bays);
    if needed > places {
        bail!("{name}: it takes {needed} places, and the archive has {places}");
    }
    let mut row = vec![in rt.alloc(); 0u32; bays]?;
    for (place, part) in words.chunks(bays.max(1)).enumerate() {
        for (i, slot) in row.iter_mut().enumerate() {
            *slot = part.get(i).copied().unwrap_or(0);
        }
        archive.array.lay(place, &row).map_err(refused)?;
    }
    Ok(Change::Put {
        bytes: bytes.len(),
        places: needed,
    })
}

// Adds the words of a place, or names its lost cells. Answers how many are lost.
fn read_place<F: FieldKind, S: Part<F>>(
    rt: &HostRuntime,
    archive: &mut Archive<F, S>,
    place: usize,
    words: &mut Vec<u32>,
) -> anyhow::Result<u32> {
    let Shape { bays, .. } = archive.shape();
    let mut lost: u32 = 0;
    for bay in 0..bays {
        match archive.array.read(bay, place) {
            Ok(word) => words.push(word)?,
            Err(Refusal::Lost) => {
                lost = lost.saturating_add(1);
                words.push(0)?;
            }
            Err(refusal) => return Err(refused(refusal)),
        }
    }
    if lost > 0 {
        if archive.is_torn(place) {
            rt.println(Finding::TornAt { place, cells: lost })?;
        } else {
            rt.println(Finding::LostAt { place, cells: lost })?;
        }
    }
    Ok(lost)
}

// Reads places until there are so many words. Answers at how many places cells are lost.
fn read_words<F: FieldKind, S: Part<F>>(
    rt: &HostRuntime,
    archive: &mut Archive<F, S>,
    needed: usize,
    words: &mut Vec<u32>,
) -> anyhow::Result<u32> {
    let Shape { bays, places, .. } = archive.shape();
    let first = places_for(words.len(), bays);
    let last = places_for(needed, bays).min(places);
    let mut lost: u32 = 0;
    for place in first..last {
        if read_place(rt, archive, place, words)? > 0 {
            lost = lost.saturating_add(1);
        }
    }
    Ok(lost)
}

// Gets a file's bytes back, unless some of its words are lost. Then its lost places are listed, and nothing is written.
pub(crate) fn get<F: FieldKind, S: Part<F>>(
    rt: &HostRuntime,
    archive: &mut Archive<F, S>,
    name: &str,
) -> anyhow::Result<()> {
    if is_there(rt, name) {
        bail!("{name} is there already");
    }
    let mut words = Vec::new(rt.alloc());
    let lost = read_words(rt, archive, length_words(F::packing()), &mut words)?;
    if lost > 0 {
        bail!("{name}: the length of the file is lost, nothing is written");
    }
    let Some(needed) = file_words(F::packing(), &words) else {
        bail!("the archive holds no file");
    };
    let lost = read_words(rt, archive, needed, &mut words)?;
    if lost > 0 {
        bail!("{name}: {lost} places are lost, nothing is written");
    }
    let bytes = match unpack(rt.alloc(), F::packing(), &words) {
        Ok(bytes) => bytes,
        Err(fault) => bail!("{name}: {fault}"),
    };
    let mut filing = Filing::new(rt.alloc());
    filing.write(rt, name, &bytes)?;
    filing.finish(rt, name)?;
    println!(rt; "{name}: {}", Finding::Got { bytes: bytes.len() })?;
    Ok(())
}
