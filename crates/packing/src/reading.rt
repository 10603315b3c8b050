// Takes bytes out of words.
ghost use Rattle.std.specs.Prelude.{◌≡◌, ◌/◌, ◌%◌, ◌^◌, ◌<◌, cond};
ghost use Rattle.packing.specs.Unpacked.{word_at, byte_at, file_length, file_words};
ghost use Rattle.packing.specs.Laws.{Unpacks, TellsFile};

use crate::fault::PackFault;
use crate::packing::{Packing, length_words, limit, words_for};
use std::alloc::Global;

// The bytes of the file that the words begin with, whatever follows it.
pub fn unpack(heap: Global, packing: Packing, words: &[u32]) -> Result<Vec<u8>, PackFault>
    ensures { Unpacks packing words.now result }
{
    let count = file_length(packing, words).ok_or(PackFault::NoFile)? as usize;
    let mut bytes = Vec::new(heap);
    for i in 4..4 + count {
        bytes.push(byte_at(packing, words, i).ok_or(PackFault::NoFile)?)?;
    }
    Ok(bytes)
}

// How many words the file takes that the words begin with, or None where they begin with no length.
pub fn file_words(packing: Packing, words: &[u32]) -> Option<usize>
    ensures count { result ≡ file_words packing words.now }
    ensures enough { TellsFile packing words.now result }
{
    let count = file_length(packing, words)?;
    Some(length_words(packing) + words_for(packing, count))
}

// The length of the file that the words begin with.
fn file_length(packing: Packing, words: &[u32]) -> Option<u32>
    ensures { result ≡ file_length packing words.now }
{
    let first = byte_at(packing, words, 0)?;
    let second = byte_at(packing, words, 1)?;
    let third = byte_at(packing, words, 2)?;
    let fourth = byte_at(packing, words, 3)?;
    Some(u32::from_le_bytes([first, second, third, fourth]))
}

// Byte i of what is packed in the words.
fn byte_at(packing: Packing, words: &[u32], i: usize) -> Option<u8>
    requires { i < 2 ^ 33 }
    ensures { result ≡ byte_at packing words.now i }
{
    match packing {
        Packing::Halves => {
            let low = word_at(packing, words, 2 * i)?;
            let high = word_at(packing, words, 2 * i + 1)?;
            Some((low + 16 * high) as u8)
        }
        Packing::Bytes => {
            let word = word_at(packing, words, i)?;
            Some(word as u8)
        }
        Packing::Pairs => {
            let word = word_at(packing, words, i / 2)?;
            Some(half_of(word, i % 2 == 0))
        }
    }
}

// One of the two bytes of a word.
fn half_of(word: u32, low: bool) -> u8
    requires { word < 65536 }
    ensures { result ≡ cond low (word % 256) (word / 256) }
{
    if low {
        (word % 256) as u8
    } else {
        (word / 256) as u8
    }
}

// A word, or None where there is none or it is too large for the packing.
fn word_at(packing: Packing, words: &[u32], i: usize) -> Option<u32>
    ensures { result ≡ word_at packing words.now i }
{
    let word = *words.get(i)?;
    if word < limit(packing) {
        Some(word)
    } else {
        None
    }
}
