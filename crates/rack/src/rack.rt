ghost use Rattle.std.specs.Prelude.{◌≡◌, ℕ, true, map};
ghost use Rattle.shelf.specs.Table.{Table, Shaped};
ghost use Rattle.shelf.specs.Calls.{Outcome, refuses_read, refuses_word, refuses_lay, refuses_exchange, Read, Written, LayAnswer, Patched, Exchanged, Clears};
ghost use Rattle.rack.specs.Racks.{all_like, together, table_at, rack_table, EachFitting, EachInOrder, InRack, Aside, LaidByShelf};
ghost use Rattle.layers.specs.Refused.{LeftAlone};

use shelf::{Clearable, MOST_BAYS, Refusal, Serviceable, Shape, Shelf};

// A rack: a row of shelves of one shape, owned in a vector. Bay b is bay b mod w of shelf b div w, where each has w bays. Where their
// shapes differ, or their bays are too many, it has no bays and no places.
#[derive(Drop)]
pub struct Rack<S> {
    pub shelves: Vec<S>,
}

// Where a bay of a rack is: under which number in which shelf.
#[derive(Clone, Copy)]
struct Slot {
    shelf: usize,
    bay: usize,
}

impl<S> Rack<S> {
    pub fn new(shelves: Vec<S>) -> Rack<S>
        ensures { result.shelves ≡ shelves }
    {
        Rack { shelves }
    }

    // The shelves in their row.
    pub fn into_shelves(self) -> Vec<S>
        ensures { result ≡ self.shelves }
    {
        let Rack { shelves } = self;
        shelves
    }
}

// Whether all shelves have this shape.
fn all_have<S: Shelf>(shelves: &[S], numbers: (usize, usize, u32)) -> bool
    ensures like { result ≡ all_like numbers (map S.Shelf.table shelves.now) }
    ensures fitting { result ≡ true → EachFitting S.Shelf.table shelves.now }
{
    for shelf in shelves.iter() {
        if shelf.shape() != numbers {
            return false;
        }
    }
    true
}

impl<S: Shelf> Rack<S> {
    // Whether the shelves go together, where the first has this shape.
    fn go_together(&self, first: (usize, usize, u32)) -> bool
        ensures together { result ≡ together first (map S.Shelf.table self.now.shelves.items) }
        ensures fitting { result ≡ true → EachFitting S.Shelf.table self.now.shelves.items }
    {
        self.shelves.len().saturating_mul(first.0) <= MOST_BAYS && all_have(&self.shelves, first)
    }

    // Where a bay is.
    fn slot(&self, bay: usize) -> Result<Slot, Refusal>
        ensures { InRack (map S.Shelf.table self.now.shelves.items) bay result }
    {
        Shape::from(self.shape()).check_bay(bay)?;
        let width = self.shelf_bays();
        Ok(Slot {
            shelf: bay / width,
            bay: bay % width,
        })
    }

    // The bays of each shelf.
    fn shelf_bays(&self) -> usize
        ensures { result ≡ (table_at (map S.Shelf.table self.now.shelves.items) 0).bays }
    {
        match self.shelves.first() {
            Some(shelf) => Shape::from(shelf.shape()).bays,
            None => 0,
        }
    }
}

impl<S: Shelf> Shelf for Rack<S> {
    ghost table = { rack_table S.Shelf.table };

    ghost sound = { EachInOrder S.Shelf.sound };

    ghost lay_bits = { LaidByShelf S.Shelf.table S.Shelf.sound S.Shelf.lay_bits };

    fn shape(&self) -> (usize, usize, u32) {
        let Some(first) = self.shelves.first() else {
            return (0, 0, 0);
        };
        let shape = first.shape();
        if self.go_together(shape) {
            (self.shelves.len() * shape.0, shape.1, shape.2)
        } else {
            (0, 0, shape.2)
        }
    }

    fn read(&mut self, bay: usize, place: usize) -> Result<u32, Refusal>
        ensures promised { Outcome (rack_table S.Shelf.table) (EachInOrder S.Shelf.sound) self.old self.new (refuses_read bay place) (Read bay place) result }
        ensures aside { Aside S.Shelf.table bay self.old self.new }
    {
        let slot = self.slot(bay)?;
        self.shelves[slot.shelf].read(slot.bay, place)
    }

    fn write(&mut self, bay: usize, place: usize, word: u32) -> Result<(), Refusal>
        ensures promised { Outcome (rack_table S.Shelf.table) (EachInOrder S.Shelf.sound) self.old self.new (refuses_word bay place word) (Written bay place word) result }
        ensures aside { Aside S.Shelf.table bay self.old self.new }
    {
        let slot = self.slot(bay)?;
        self.shelves[slot.shelf].write(slot.bay, place, word)
    }

    fn lay(&mut self, place: usize, words: &[u32]) -> Result<u32, Refusal>
        ensures promised { Outcome (rack_table S.Shelf.table) (EachInOrder S.Shelf.sound) self.old self.new (refuses_lay place words.now) (LayAnswer place words.now) result }
        ensures bits { LaidByShelf S.Shelf.table S.Shelf.sound S.Shelf.lay_bits self.old self.new place words.now result }
        ensures refused { LeftAlone (refuses_lay place words.now (rack_table S.Shelf.table self.old)) self.old self.new }
    {
        Shape::from(self.shape()).check_lay(place, words)?;
        let width = self.shelf_bays();
        let mut bits = 0;
        for i in 0..self.shelves.len() {
            let low = i * width;
            let laid = self.shelves[i].lay(place, &words[low..low + width])?;
            bits |= laid << low;
        }
        Ok(bits)
    }
}

impl<S: Serviceable> Serviceable for Rack<S> {
    fn patch(&mut self, bay: usize, place: usize, word: u32) -> Result<(), Refusal>
        ensures promised { Outcome (rack_table S.Shelf.table) (EachInOrder S.Shelf.sound) self.old self.new (refuses_word bay place word) (Patched bay place word) result }
        ensures aside { Aside S.Shelf.table bay self.old self.new }
    {
        let slot = self.slot(bay)?;
        self.shelves[slot.shelf].patch(slot.bay, place, word)
    }

    fn exchange(&mut self, bay: usize) -> Result<(), Refusal>
        ensures promised { Outcome (rack_table S.Shelf.table) (EachInOrder S.Shelf.sound) self.old self.new (refuses_exchange bay) (Exchanged bay) result }
        ensures aside { Aside S.Shelf.table bay self.old self.new }
    {
        let slot = self.slot(bay)?;
        self.shelves[slot.shelf].exchange(slot.bay)
    }
}

impl<S: Clearable> Clearable for Rack<S> {
    fn clear(&mut self, place: usize)
        ensures promised { Clears (rack_table S.Shelf.table) (EachInOrder S.Shelf.sound) place self.old self.new }
        ensures lacking { (rack_table S.Shelf.table self.old).bays ≡ 0 → self.new ≡ self.old }
    {
        if Shape::from(self.shape()).bays == 0 {
            return;
        }
        // No index: the shelves are changed in place.
        for i in 0..self.shelves.len() {
            self.shelves[i].clear(place);
        }
    }
}
