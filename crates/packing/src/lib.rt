// Packs the bytes of a file into small words, and takes them out of such words again.
#![tactic(auto)]

mod fault;
mod packing;
mod reading;
mod writing;

pub use fault::PackFault;
pub use packing::{Packing, length_words, words_for};
pub use reading::{file_words, unpack};
pub use writing::pack;
