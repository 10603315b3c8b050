// The interfaces that shelves keep, and that everything above a shelf is proved against.
ghost use Rattle.std.specs.Prelude.{ℕ, List, Result};
ghost use Rattle.shelf.specs.declared.refusal.Refusal.{Refusal};
ghost use Rattle.shelf.specs.Table.{Table, Shaped};
ghost use Rattle.shelf.specs.Calls.{Outcome, refuses_read, refuses_word, refuses_lay, refuses_exchange, Read, Written, LayAnswer, Patched, Exchanged, Clears};

use crate::refusal::Refusal;

// A shelf: cells of words, one for each bay and place. A bay is a device, which runs or is stopped; a place is a position on each
// device; a cell is blank, or holds a word below the limit. During any call that is not refused, bays may stop and filled cells may
// go blank.
// That each call takes a bay and a place, and `shape` answers three numbers, is a rule of the project.
pub trait Shelf {
    // The cells, and which bays run.
    ghost table: { Self → Table };

    // The states in order: those from which the calls keep their promises. Each call leaves the state in order.
    ghost sound: { Self → Type 0 };

    // What is known of the bits of a lay beyond that: by the states before and after it, the place, the words and the answer.
    ghost lay_bits: { Self → Self → ℕ → List ℕ → Result ℕ Refusal → Type 0 };

    // Bays, places and limit. They never change.
    fn shape(&self) -> (usize, usize, u32)
        ensures { Shaped (table self.now) result };

    // The word of a cell.
    fn read(&mut self, bay: usize, place: usize) -> Result<u32, Refusal>
        ensures { Outcome table sound self.old self.new (refuses_read bay place) (Read bay place) result };

    // Another word in a filled cell.
    fn write(&mut self, bay: usize, place: usize, word: u32) -> Result<(), Refusal>
        ensures { Outcome table sound self.old self.new (refuses_word bay place word) (Written bay place word) result };

    // One word for each bay at a place. Bit b of the answer is clear only where the cell of bay b is blank.
    fn lay(&mut self, place: usize, words: &[u32]) -> Result<u32, Refusal>
        ensures promised { Outcome table sound self.old self.new (refuses_lay place words.now) (LayAnswer place words.now) result }
        ensures bits { lay_bits self.old self.new place words.now result };
}

// A shelf whose cells can be set one by one, and whose devices can be exchanged.
pub trait Serviceable: Shelf {
    // A word in a cell, blank or filled.
    fn patch(&mut self, bay: usize, place: usize, word: u32) -> Result<(), Refusal>
        ensures { Outcome Self.Shelf.table Self.Shelf.sound self.old self.new (refuses_word bay place word) (Patched bay place word) result };

    // A fresh device in a bay: its cells are blank, and it may run again.
    fn exchange(&mut self, bay: usize) -> Result<(), Refusal>
        ensures { Outcome Self.Shelf.table Self.Shelf.sound self.old self.new (refuses_exchange bay) (Exchanged bay) result };
}

// A shelf from which a whole place can be taken, as where its words are not those that any calls left.
pub trait Clearable: Shelf {
    // Makes every cell of a place blank. A place that the shelf lacks has no cells.
    fn clear(&mut self, place: usize)
        ensures { Clears Self.Shelf.table Self.Shelf.sound place self.old self.new };
}
