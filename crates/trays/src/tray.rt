ghost use Rattle.std.specs.Prelude.{◌≡◌, ℕ, length, replicate, slice_index, slice_set};
ghost use Rattle.shelf.specs.Table.{Table, Shaped};
ghost use Rattle.shelf.specs.Calls.{Outcome, refuses_read, refuses_word, refuses_lay, refuses_exchange, Read, Written, LayAnswer, Patched, Exchanged};
ghost use Rattle.trays.specs.Device.{slot, word_in, reading, writing, laying, patching, exchanging, if_done};
ghost use Rattle.trays.specs.Words.{checked, blank_word, tray_table, InOrder, SameTray};

use crate::misfit::Misfit;
use shelf::{MOST_LIMIT, MOST_PLACES, Refusal, Serviceable, Shape, Shelf};

// The least limit of a tray, and the limit of one that is unfit.
pub const LEAST_LIMIT: u32 = 16;

// What a blank slot is stored as.
pub const BLANK: u32 = u32::MAX;

// A tray: one bay over a caller's words. A slot at or above the limit is blank. It always runs, and loses nothing.
#[derive(Drop)]
pub struct Tray<'a> {
    words: &'a mut [u32],
    limit: u32,
}

// The word of a slot, or lost where it is blank.
pub fn slot_word(word: u32, limit: u32) -> Result<u32, Refusal>
    ensures { result ≡ word_in (slot limit word) }
{
    if word < limit {
        Ok(word)
    } else {
        Err(Refusal::Lost)
    }
}

// Whether the limit, and then the number of words, is in range.
pub fn check_words(words: &[u32], limit: u32) -> Result<(), Misfit>
    ensures { result ≡ checked words.now limit }
{
    if !(LEAST_LIMIT..=MOST_LIMIT).contains(&limit) {
        return Err(Misfit::Limit);
    }
    if !(1..=MOST_PLACES).contains(&words.len()) {
        return Err(Misfit::Length);
    }
    Ok(())
}

impl<'a> Tray<'a> {
    // A tray over these words. It is never refused; `check` says whether it is fit, and an unfit one has no bay.
    pub fn new(words: &'a mut [u32], limit: u32) -> Tray<'a>
        ensures { (result.words ≡ words.entry) × (result.limit ≡ limit) }
    {
        Tray { words, limit }
    }

    // Whether the limit, and then the number of words, is in range.
    pub fn check(&self) -> Result<(), Misfit>
        ensures { result ≡ checked self.now.words.now self.now.limit }
    {
        check_words(self.words, self.limit)
    }
}

// Each call says what it keeps of the tray: no type can say that of a change.
impl<'a> Shelf for Tray<'a> {
    ghost table = { tray_table };

    ghost sound = { InOrder };

    ghost lay_bits = { λ before after place words answer. answer ≡ laying place words (tray_table before) };

    fn shape(&self) -> (usize, usize, u32) {
        match self.check() {
            Ok(()) => (1, self.words.len(), self.limit),
            Err(_) => (0, 0, LEAST_LIMIT),
        }
    }

    fn read(&mut self, bay: usize, place: usize) -> Result<u32, Refusal>
        ensures promised { Outcome tray_table InOrder self.old self.new (refuses_read bay place) (Read bay place) result }
        ensures answer { result ≡ reading bay place (tray_table self.old) }
        ensures buffer { self.new.words.now ≡ self.old.words.now }
        ensures same { SameTray self.old self.new }
    {
        Shape::from(self.shape()).check_cell(bay, place)?;
        slot_word(self.words[place], self.limit)
    }

    fn write(&mut self, bay: usize, place: usize, word: u32) -> Result<(), Refusal>
        ensures promised { Outcome tray_table InOrder self.old self.new (refuses_word bay place word) (Written bay place word) result }
        ensures answer { result ≡ writing bay place word (tray_table self.old) }
        ensures buffer { self.new.words.now ≡ if_done result (slice_set self.old.words.now place word) self.old.words.now }
        ensures same { SameTray self.old self.new }
    {
        Shape::from(self.shape()).check_word(bay, place, word)?;
        slot_word(self.words[place], self.limit)?;
        self.words[place] = word;
        Ok(())
    }

    fn lay(&mut self, place: usize, words: &[u32]) -> Result<u32, Refusal>
        ensures promised { Outcome tray_table InOrder self.old self.new (refuses_lay place words.now) (LayAnswer place words.now) result }
        ensures answer { result ≡ laying place words.now (tray_table self.old) }
        ensures buffer { self.new.words.now ≡ if_done result (slice_set self.old.words.now place (slice_index words.now 0)) self.old.words.now }
        ensures same { SameTray self.old self.new }
    {
        Shape::from(self.shape()).check_lay(place, words)?;
        self.words[place] = words[0];
        Ok(1)
    }
}

// The same of these two.
impl<'a> Serviceable for Tray<'a> {
    fn patch(&mut self, bay: usize, place: usize, word: u32) -> Result<(), Refusal>
        ensures promised { Outcome tray_table InOrder self.old self.new (refuses_word bay place word) (Patched bay place word) result }
        ensures answer { result ≡ patching bay place word (tray_table self.old) }
        ensures buffer { self.new.words.now ≡ if_done result (slice_set self.old.words.now place word) self.old.words.now }
        ensures same { SameTray self.old self.new }
    {
        Shape::from(self.shape()).check_word(bay, place, word)?;
        self.words[place] = word;
        Ok(())
    }

    fn exchange(&mut self, bay: usize) -> Result<(), Refusal>
        ensures promised { Outcome tray_table InOrder self.old self.new (refuses_exchange bay) (Exchanged bay) result }
        ensures answer { result ≡ exchanging bay (tray_table self.old) }
        ensures buffer { self.new.words.now ≡ if_done result (replicate (length self.old.words.now) blank_word) self.old.words.now }
        ensures same { SameTray self.old self.new }
    {
        Shape::from(self.shape()).check_bay(bay)?;
        self.words.fill(BLANK);
        Ok(())
    }
}
