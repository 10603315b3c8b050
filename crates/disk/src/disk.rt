ghost use Rattle.std.specs.Prelude.{◌≡◌, ℕ, ◌<◌, true, false, cond, length, replicate, slice_index, slice_set};
ghost use Rattle.shelf.specs.Table.{Table, Shaped, blank};
ghost use Rattle.shelf.specs.Calls.{Outcome, refuses_read, refuses_word, refuses_lay, refuses_exchange, Read, Written, LayAnswer, Patched, Exchanged, Clears};
ghost use Rattle.trays.specs.Device.{word_in, slot, reading, writing, exchanging, if_done};
ghost use Rattle.trays.specs.Words.{checked, blank_word};
ghost use Rattle.disk.specs.Disks.{disk_table, InOrder, laid, patched, runs_after, SameDisk};

use shelf::{Clearable, Refusal, Serviceable, Shape, Shelf};
use trays::{BLANK, LEAST_LIMIT, Misfit, check_words, slot_word};

// A disk: one bay that owns its words, as they are read from an image. A word at or above the limit is blank. The cells of a stopped disk
// are blank, and nothing is stored in it.
#[derive(Drop)]
pub struct Disk {
    pub words: Vec<u32>,
    pub limit: u32,
    pub running: bool,
}

impl Disk {
    // A disk that runs. It is never refused; `check` says whether it is fit, and an unfit one has no bay.
    pub fn new(words: Vec<u32>, limit: u32) -> Disk
        ensures words { result.words ≡ words }
        ensures limit { result.limit ≡ limit }
        ensures running { result.running ≡ true }
    {
        Disk {
            words,
            limit,
            running: true,
        }
    }

    // The same, stopped.
    pub fn stopped(words: Vec<u32>, limit: u32) -> Disk
        ensures words { result.words ≡ words }
        ensures limit { result.limit ≡ limit }
        ensures running { result.running ≡ false }
    {
        Disk {
            words,
            limit,
            running: false,
        }
    }

    // Whether the limit, and then the number of words, is in range.
    pub fn check(&self) -> Result<(), Misfit>
        ensures { result ≡ checked self.now.words.items self.now.limit }
    {
        check_words(&self.words, self.limit)
    }

    // The word of a place, or lost where its cell is blank.
    fn word(&self, place: usize) -> Result<u32, Refusal>
        requires { place < length self.now.words.items }
        ensures { result ≡ word_in (cond self.now.running (slot self.now.limit (slice_index self.now.words.items place)) blank) }
    {
        if self.running {
            slot_word(self.words[place], self.limit)
        } else {
            Err(Refusal::Lost)
        }
    }
}

// Each call says what it keeps of the disk: no type can say that of a change.
impl Shelf for Disk {
    ghost table = { disk_table };

    ghost sound = { InOrder };

    ghost lay_bits = { λ before after place words answer. answer ≡ laid before.running place words (disk_table before) };

    fn shape(&self) -> (usize, usize, u32) {
        match self.check() {
            Ok(()) => (1, self.words.len(), self.limit),
            Err(_) => (0, 0, LEAST_LIMIT),
        }
    }

    fn read(&mut self, bay: usize, place: usize) -> Result<u32, Refusal>
        ensures promised { Outcome disk_table InOrder self.old self.new (refuses_read bay place) (Read bay place) result }
        ensures answer { result ≡ reading bay place (disk_table self.old) }
        ensures words { self.new.words.items ≡ self.old.words.items }
        ensures same { SameDisk self.old self.new }
    {
        Shape::from(self.shape()).check_cell(bay, place)?;
        self.word(place)
    }

    fn write(&mut self, bay: usize, place: usize, word: u32) -> Result<(), Refusal>
        ensures promised { Outcome disk_table InOrder self.old self.new (refuses_word bay place word) (Written bay place word) result }
        ensures answer { result ≡ writing bay place word (disk_table self.old) }
        ensures words { self.new.words.items ≡ if_done result (slice_set self.old.words.items place word) self.old.words.items }
        ensures same { SameDisk self.old self.new }
    {
        Shape::from(self.shape()).check_word(bay, place, word)?;
        self.word(place)?;
        self.words[place] = word;
        Ok(())
    }

    fn lay(&mut self, place: usize, words: &[u32]) -> Result<u32, Refusal>
        ensures promised { Outcome disk_table InOrder self.old self.new (refuses_lay place words.now) (LayAnswer place words.now) result }
        ensures answer { result ≡ laid self.old.running place words.now (disk_table self.old) }
        ensures words { self.new.words.items ≡ if_done result (cond self.old.running (slice_set self.old.words.items place (slice_index words.now 0)) self.old.words.items) self.old.words.items }
        ensures same { SameDisk self.old self.new }
    {
        Shape::from(self.shape()).check_lay(place, words)?;
        if !self.running {
            return Ok(0);
        }
        self.words[place] = words[0];
        Ok(1)
    }
}

// The same of these two.
impl Serviceable for Disk {
    fn patch(&mut self, bay: usize, place: usize, word: u32) -> Result<(), Refusal>
        ensures promised { Outcome disk_table InOrder self.old self.new (refuses_word bay place word) (Patched bay place word) result }
        ensures answer { result ≡ patched self.old.running bay place word (disk_table self.old) }
        ensures words { self.new.words.items ≡ if_done result (slice_set self.old.words.items place word) self.old.words.items }
        ensures same { SameDisk self.old self.new }
    {
        Shape::from(self.shape()).check_word(bay, place, word)?;
        if !self.running {
            return Err(Refusal::Lost);
        }
        self.words[place] = word;
        Ok(())
    }

    // The fresh disk runs, and all its words are blank.
    fn exchange(&mut self, bay: usize) -> Result<(), Refusal>
        ensures promised { Outcome disk_table InOrder self.old self.new (refuses_exchange bay) (Exchanged bay) result }
        ensures answer { result ≡ exchanging bay (disk_table self.old) }
        ensures words { self.new.words.items ≡ if_done result (replicate (length self.old.words.items) blank_word) self.old.words.items }
        ensures running { self.new.running ≡ runs_after result self.old.running }
        ensures limit { self.new.limit ≡ self.old.limit }
    {
        Shape::from(self.shape()).check_bay(bay)?;
        self.words.fill(BLANK);
        self.running = true;
        Ok(())
    }
}

// And of this one.
impl Clearable for Disk {
    fn clear(&mut self, place: usize)
        ensures promised { Clears disk_table InOrder place self.old self.new }
        ensures words { self.new.words.items ≡ slice_set self.old.words.items place blank_word }
        ensures same { SameDisk self.old self.new }
    {
        if place < self.words.len() {
            self.words[place] = BLANK;
        }
    }
}
