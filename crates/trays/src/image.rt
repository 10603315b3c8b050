ghost use Rattle.std.specs.Prelude.{◌≡◌, ℕ, ◌+◌, ◌*◌, ◌<◌, ◌≤◌, length, IfSome, if◌then◌else◌, Some, None, slice_index, slice_set};
ghost use Rattle.shelf.specs.Table.{Table, Shaped};
ghost use Rattle.shelf.specs.Calls.{Outcome, refuses_read, refuses_word, refuses_lay, refuses_exchange, Read, Written, LayAnswer, Patched, Exchanged};
ghost use Rattle.trays.specs.Device.{reading, writing, laying, patching, exchanging, if_done};
ghost use Rattle.trays.specs.Sections.{TellsSections};
ghost use Rattle.trays.specs.Image.{counted, count_of, word_at, is_image, laid_out, image_table, InOrder, filling, unmarked, SameMemory};

use crate::misfit::Misfit;
use crate::tray::LEAST_LIMIT;
use shelf::{Refusal, Serviceable, Shape, Shelf};

// The limit of an image tray: its words are bytes.
const BYTE_LIMIT: u32 = 256;

// The mark of a filled cell; any other mark is a blank one's.
const FILLED: u8 = 1;

// The mark that an exchange stores.
const BLANK: u8 = 0;

// An image tray: one bay over a caller's bytes, with limit 256. Its marks come first, then its words, each section after its count in
// two bytes, low byte first. Mark 1 is a filled cell, any other a blank one. It always runs, and loses nothing.
#[derive(Drop)]
pub struct ImageTray<'a> {
    bytes: &'a mut [u8],
}

// The count in two bytes, low byte first.
fn count_at(bytes: &[u8], at: usize) -> u16
    requires { at + 1 < length bytes.now }
    ensures { result ≡ counted bytes.now at }
{
    u16::from_le_bytes([bytes[at], bytes[at + 1]])
}

// How many places the bytes have, or none where they are no image.
pub fn image_count(bytes: &[u8]) -> Option<u16>
    ensures { result ≡ (if is_image bytes.now then Some (count_of bytes.now) else None) }
{
    if bytes.len() < 2 {
        return None;
    }
    let count = count_at(bytes, 0);
    let second = 2 + usize::from(count);
    if count < 1 || bytes.len() != 2 * second {
        return None;
    }
    if count_at(bytes, second) == count {
        Some(count)
    } else {
        None
    }
}

impl<'a> ImageTray<'a> {
    // An image tray over these bytes. It is never refused; `check` says whether it is fit, and an unfit one has no bay.
    pub fn new(bytes: &'a mut [u8]) -> ImageTray<'a>
        ensures { result.bytes ≡ bytes.entry }
    {
        ImageTray { bytes }
    }

    // Whether the bytes are an image.
    pub fn check(&self) -> Result<(), Misfit>
        ensures answer { result ≡ laid_out self.now.bytes.now }
        ensures sections { TellsSections self.now.bytes.now result }
    {
        match image_count(self.bytes) {
            Some(_) => Ok(()),
            None => Err(Misfit::Layout),
        }
    }
}

// Each call says what it keeps of the tray: no type can say that of a change. A word is cast where it was tested to be a byte.
impl<'a> Shelf for ImageTray<'a> {
    ghost table = { image_table };

    ghost sound = { InOrder };

    ghost lay_bits = { λ before after place words answer. answer ≡ laying place words (image_table before) };

    fn shape(&self) -> (usize, usize, u32) {
        match image_count(self.bytes) {
            Some(count) => (1, usize::from(count), BYTE_LIMIT),
            None => (0, 0, LEAST_LIMIT),
        }
    }

    fn read(&mut self, bay: usize, place: usize) -> Result<u32, Refusal>
        ensures promised { Outcome image_table InOrder self.old self.new (refuses_read bay place) (Read bay place) result }
        ensures answer { result ≡ reading bay place (image_table self.old) }
        ensures buffer { self.new.bytes.now ≡ self.old.bytes.now }
        ensures same { SameMemory self.old self.new }
    {
        let shape = Shape::from(self.shape());
        shape.check_cell(bay, place)?;
        if self.bytes[2 + place] != FILLED {
            return Err(Refusal::Lost);
        }
        Ok(u32::from(self.bytes[4 + shape.places + place]))
    }

    fn write(&mut self, bay: usize, place: usize, word: u32) -> Result<(), Refusal>
        ensures promised { Outcome image_table InOrder self.old self.new (refuses_word bay place word) (Written bay place word) result }
        ensures answer { result ≡ writing bay place word (image_table self.old) }
        ensures buffer { self.new.bytes.now ≡ if_done result (slice_set self.old.bytes.now (word_at self.old.bytes.now place) word) self.old.bytes.now }
        ensures same { SameMemory self.old self.new }
    {
        let shape = Shape::from(self.shape());
        shape.check_word(bay, place, word)?;
        if self.bytes[2 + place] != FILLED {
            return Err(Refusal::Lost);
        }
        self.bytes[4 + shape.places + place] = word as u8;
        Ok(())
    }

    fn lay(&mut self, place: usize, words: &[u32]) -> Result<u32, Refusal>
        ensures promised { Outcome image_table InOrder self.old self.new (refuses_lay place words.now) (LayAnswer place words.now) result }
        ensures answer { result ≡ laying place words.now (image_table self.old) }
        ensures buffer { self.new.bytes.now ≡ if_done result (filling self.old.bytes.now place (slice_index words.now 0)) self.old.bytes.now }
        ensures same { SameMemory self.old self.new }
    {
        let shape = Shape::from(self.shape());
        shape.check_lay(place, words)?;
        self.bytes[2 + place] = FILLED;
        self.bytes[4 + shape.places + place] = words[0] as u8;
        Ok(1)
    }
}

// The same of these two.
impl<'a> Serviceable for ImageTray<'a> {
    fn patch(&mut self, bay: usize, place: usize, word: u32) -> Result<(), Refusal>
        ensures promised { Outcome image_table InOrder self.old self.new (refuses_word bay place word) (Patched bay place word) result }
        ensures answer { result ≡ patching bay place word (image_table self.old) }
        ensures buffer { self.new.bytes.now ≡ if_done result (filling self.old.bytes.now place word) self.old.bytes.now }
        ensures same { SameMemory self.old self.new }
    {
        let shape = Shape::from(self.shape());
        shape.check_word(bay, place, word)?;
        self.bytes[2 + place] = FILLED;
        self.bytes[4 + shape.places + place] = word as u8;
        Ok(())
    }

    fn exchange(&mut self, bay: usize) -> Result<(), Refusal>
        ensures promised { Outcome image_table InOrder self.old self.new (refuses_exchange bay) (Exchanged bay) result }
        ensures answer { result ≡ exchanging bay (image_table self.old) }
        ensures buffer { self.new.bytes.now ≡ if_done result (unmarked (count_of self.old.bytes.now) self.old.bytes.now) self.old.bytes.now }
        ensures same { SameMemory self.old self.new }
    {
        let shape = Shape::from(self.shape());
        shape.check_bay(bay)?;
        self.bytes[2..2 + shape.places].fill(BLANK);
        Ok(())
    }
}
