// Packs bytes into words.
ghost use Rattle.std.specs.Prelude.{◌≡◌, ◌+◌, ◌*◌, ◌<◌, ◌++◌, length, slice_index, OnOk};
ghost use Rattle.packing.specs.Packed.{halves, pairs, in_words};
ghost use Rattle.packing.specs.Laws.{Packs, ReadsBack};

use crate::fault::PackFault;
use crate::packing::Packing;
use std::alloc::{AllocError, Global};

// The words of a file: its length in 4 bytes, low byte first, and then its bytes, all packed.
pub fn pack(heap: Global, packing: Packing, bytes: &[u8]) -> Result<Vec<u32>, PackFault>
    ensures words { Packs packing bytes.now result }
    ensures read_back { ReadsBack packing bytes.now result }
{
    let count = u32::try_from(bytes.len()).map_err(|_| PackFault::TooLong)?;
    let mut words = Vec::new(heap);
    add_bytes(&mut words, packing, &count.to_le_bytes())?;
    add_bytes(&mut words, packing, bytes)?;
    Ok(words)
}

// Adds the words of these bytes.
fn add_bytes(words: &mut Vec<u32>, packing: Packing, bytes: &[u8]) -> Result<(), AllocError>
    ensures { OnOk result (words.new.items ≡ words.old.items ++ in_words packing bytes.now) }
{
    match packing {
        Packing::Halves => add_halves(words, bytes),
        Packing::Bytes => add_each(words, bytes),
        Packing::Pairs => add_pairs(words, bytes),
    }
}

// Two words for each byte.
fn add_halves(words: &mut Vec<u32>, bytes: &[u8]) -> Result<(), AllocError>
    ensures { OnOk result (words.new.items ≡ words.old.items ++ halves bytes.now) }
{
    for byte in bytes {
        words.push(u32::from(*byte % 16))?;
        words.push(u32::from(*byte / 16))?;
    }
    Ok(())
}

// A word for each byte.
fn add_each(words: &mut Vec<u32>, bytes: &[u8]) -> Result<(), AllocError>
    ensures { OnOk result (words.new.items ≡ words.old.items ++ bytes.now) }
{
    for byte in bytes {
        words.push(u32::from(*byte))?;
    }
    Ok(())
}

// A word for each two bytes.
fn add_pairs(words: &mut Vec<u32>, bytes: &[u8]) -> Result<(), AllocError>
    ensures { OnOk result (words.new.items ≡ words.old.items ++ pairs bytes.now) }
{
    for i in 0..(bytes.len() + 1) / 2 {
        words.push(pair_at(bytes, i))?;
    }
    Ok(())
}

// The word of bytes 2i and 2i + 1. There may be no byte 2i + 1, which counts as 0.
fn pair_at(bytes: &[u8], i: usize) -> u32
    requires { 2 * i < length bytes.now }
    ensures { result ≡ slice_index bytes.now (2 * i) + 256 * slice_index bytes.now (2 * i + 1) }
{
    let low = u32::from(bytes[2 * i]);
    match bytes.get(2 * i + 1) {
        Some(high) => low + 256 * u32::from(*high),
        None => low,
    }
}
