ghost use Rattle.std.specs.Prelude.{◌≡◌, ℕ};
ghost use Rattle.shelf.specs.Table.{Table, Shaped};
ghost use Rattle.shelf.specs.Calls.{Outcome, refuses_read, refuses_word, refuses_lay, refuses_exchange, Read, Written, LayAnswer, Patched, Exchanged};
ghost use Rattle.layers.specs.Pairs.{pair_table, Both, InHalf, Aside, Joined};
ghost use Rattle.layers.specs.Refused.{LeftAlone};

use shelf::{MOST_BAYS, Refusal, Serviceable, Shape, Shelf};

// A pair: two shelves side by side, the second's bays after the first's. Where their bays are too many, or their places or limits
// differ, it has no bays and no places.
#[derive(Drop)]
pub struct Pair<A, B> {
    pub first: A,
    pub second: B,
}

// Where a bay of a pair is: in the first shelf under its own number, or in the second under another.
enum Half {
    First,
    Second(usize),
}

impl<A, B> Pair<A, B> {
    pub fn new(first: A, second: B) -> Pair<A, B>
        ensures { (result.first ≡ first) × (result.second ≡ second) }
    {
        Pair { first, second }
    }

    // The two shelves.
    pub fn into_shelves(self) -> (A, B)
        ensures { (result.0 ≡ self.first) × (result.1 ≡ self.second) }
    {
        let Pair { first, second } = self;
        (first, second)
    }
}

impl<A: Shelf, B: Shelf> Pair<A, B> {
    // Where a bay is.
    fn half(&self, bay: usize) -> Result<Half, Refusal>
        ensures { InHalf (A.Shelf.table self.now.first) (B.Shelf.table self.now.second) bay result }
    {
        Shape::from(self.shape()).check_bay(bay)?;
        let cut = Shape::from(self.first.shape()).bays;
        if bay < cut {
            Ok(Half::First)
        } else {
            Ok(Half::Second(bay - cut))
        }
    }
}

// A call on one bay is a match in each. A function that takes the call as a closure over `&mut dyn Shelf` is refused: "cannot state an
// item with such a type in a bound yet".
impl<A: Shelf, B: Shelf> Shelf for Pair<A, B> {
    ghost table = { pair_table A.Shelf.table B.Shelf.table };

    ghost sound = { Both A.Shelf.sound B.Shelf.sound };

    ghost lay_bits = { Joined A.Shelf.table A.Shelf.sound A.Shelf.lay_bits B.Shelf.table B.Shelf.sound B.Shelf.lay_bits };

    fn shape(&self) -> (usize, usize, u32) {
        let first = Shape::from(self.first.shape());
        let second = Shape::from(self.second.shape());
        let bays = first.bays + second.bays;
        if bays <= MOST_BAYS && first.places == second.places && first.limit == second.limit {
            (bays, first.places, first.limit)
        } else {
            (0, 0, first.limit)
        }
    }

    fn read(&mut self, bay: usize, place: usize) -> Result<u32, Refusal>
        ensures promised { Outcome (pair_table A.Shelf.table B.Shelf.table) (Both A.Shelf.sound B.Shelf.sound) self.old self.new (refuses_read bay place) (Read bay place) result }
        ensures aside { Aside A.Shelf.table B.Shelf.table bay self.old self.new }
    {
        match self.half(bay)? {
            Half::First => self.first.read(bay, place),
            Half::Second(bay) => self.second.read(bay, place),
        }
    }

    fn write(&mut self, bay: usize, place: usize, word: u32) -> Result<(), Refusal>
        ensures promised { Outcome (pair_table A.Shelf.table B.Shelf.table) (Both A.Shelf.sound B.Shelf.sound) self.old self.new (refuses_word bay place word) (Written bay place word) result }
        ensures aside { Aside A.Shelf.table B.Shelf.table bay self.old self.new }
    {
        match self.half(bay)? {
            Half::First => self.first.write(bay, place, word),
            Half::Second(bay) => self.second.write(bay, place, word),
        }
    }

    fn lay(&mut self, place: usize, words: &[u32]) -> Result<u32, Refusal>
        ensures promised { Outcome (pair_table A.Shelf.table B.Shelf.table) (Both A.Shelf.sound B.Shelf.sound) self.old self.new (refuses_lay place words.now) (LayAnswer place words.now) result }
        ensures bits { Joined A.Shelf.table A.Shelf.sound A.Shelf.lay_bits B.Shelf.table B.Shelf.sound B.Shelf.lay_bits self.old self.new place words.now result }
        ensures refused { LeftAlone (refuses_lay place words.now (pair_table A.Shelf.table B.Shelf.table self.old)) self.old self.new }
    {
        Shape::from(self.shape()).check_lay(place, words)?;
        let cut = Shape::from(self.first.shape()).bays;
        let low = self.first.lay(place, &words[..cut])?;
        let high = self.second.lay(place, &words[cut..])?;
        Ok(high << cut | low)
    }
}

impl<A: Serviceable, B: Serviceable> Serviceable for Pair<A, B> {
    fn patch(&mut self, bay: usize, place: usize, word: u32) -> Result<(), Refusal>
        ensures promised { Outcome (pair_table A.Shelf.table B.Shelf.table) (Both A.Shelf.sound B.Shelf.sound) self.old self.new (refuses_word bay place word) (Patched bay place word) result }
        ensures aside { Aside A.Shelf.table B.Shelf.table bay self.old self.new }
    {
        match self.half(bay)? {
            Half::First => self.first.patch(bay, place, word),
            Half::Second(bay) => self.second.patch(bay, place, word),
        }
    }

    fn exchange(&mut self, bay: usize) -> Result<(), Refusal>
        ensures promised { Outcome (pair_table A.Shelf.table B.Shelf.table) (Both A.Shelf.sound B.Shelf.sound) self.old self.new (refuses_exchange bay) (Exchanged bay) result }
        ensures aside { Aside A.Shelf.table B.Shelf.table bay self.old self.new }
    {
        match self.half(bay)? {
            Half::First => self.first.exchange(bay),
            Half::Second(bay) => self.second.exchange(bay),
        }
    }
}
