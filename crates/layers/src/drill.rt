ghost use Rattle.std.specs.Prelude.{◌≡◌, ℕ};
ghost use Rattle.shelf.specs.Table.{Table, Shaped};
ghost use Rattle.shelf.specs.Calls.{Outcome, refuses_read, refuses_word, refuses_lay, refuses_exchange, Read, Written, LayAnswer, Patched, Exchanged};
ghost use Rattle.layers.specs.Drills.{drill_table, HeldOrder, New, Added, Counts, StopsCall, PassesCall, Masked, Spends};

use crate::overfull::Overfull;
use crate::schedule::Schedule;
use shelf::{Refusal, Serviceable, Shape, Shelf};

// A drill: a shelf whose bays stop at planned calls. It counts the reads, writes, lays and patches that are not refused; when the
// count reaches an event's number, before the call is carried out, the event's bay is stopped and its cells count as blank.
#[derive(Drop)]
pub struct Drill<S> {
    shelf: S,
    schedule: Schedule,
}

impl<S> Drill<S> {
    // A drill without events.
    pub fn new(shelf: S) -> Drill<S>
        ensures { New shelf result }
    {
        Drill {
            shelf,
            schedule: Schedule::new(),
        }
    }

    // The shelf that it holds.
    pub fn into_shelf(self) -> S
        ensures { result ≡ self.shelf }
    {
        let Drill { shelf, schedule: _ } = self;
        shelf
    }

    // Plans that the bay stops at that call, or at once if so many calls were counted already.
    pub fn add(&mut self, call: u32, bay: usize) -> Result<(), Overfull>
        ensures { Added call bay self.old self.new result }
    {
        self.schedule.add(call, bay)
    }
}

impl<S: Shelf> Shelf for Drill<S> {
    ghost table = { drill_table S.Shelf.table };

    ghost sound = { HeldOrder S.Shelf.sound };

    ghost lay_bits = { Masked S.Shelf.table S.Shelf.sound S.Shelf.lay_bits };

    fn shape(&self) -> (usize, usize, u32) {
        self.shelf.shape()
    }

    fn read(&mut self, bay: usize, place: usize) -> Result<u32, Refusal>
        ensures promised { Outcome (drill_table S.Shelf.table) (HeldOrder S.Shelf.sound) self.old self.new (refuses_read bay place) (Read bay place) result }
        ensures counts { Counts (refuses_read bay place (S.Shelf.table self.old.shelf)) self.old self.new }
        ensures stops { StopsCall (refuses_read bay place (S.Shelf.table self.old.shelf)) bay self.old self.new result }
        ensures below { PassesCall S.Shelf.table S.Shelf.sound bay self.old self.new (refuses_read bay place) (Read bay place) result }
    {
        Shape::from(self.shelf.shape()).check_cell(bay, place)?;
        self.schedule.count_call(bay)?;
        self.shelf.read(bay, place)
    }

    fn write(&mut self, bay: usize, place: usize, word: u32) -> Result<(), Refusal>
        ensures promised { Outcome (drill_table S.Shelf.table) (HeldOrder S.Shelf.sound) self.old self.new (refuses_word bay place word) (Written bay place word) result }
        ensures counts { Counts (refuses_word bay place word (S.Shelf.table self.old.shelf)) self.old self.new }
        ensures stops { StopsCall (refuses_word bay place word (S.Shelf.table self.old.shelf)) bay self.old self.new result }
        ensures below { PassesCall S.Shelf.table S.Shelf.sound bay self.old self.new (refuses_word bay place word) (Written bay place word) result }
    {
        Shape::from(self.shelf.shape()).check_word(bay, place, word)?;
        self.schedule.count_call(bay)?;
        self.shelf.write(bay, place, word)
    }

    fn lay(&mut self, place: usize, words: &[u32]) -> Result<u32, Refusal>
        ensures promised { Outcome (drill_table S.Shelf.table) (HeldOrder S.Shelf.sound) self.old self.new (refuses_lay place words.now) (LayAnswer place words.now) result }
        ensures counts { Counts (refuses_lay place words.now (S.Shelf.table self.old.shelf)) self.old self.new }
        ensures bits { Masked S.Shelf.table S.Shelf.sound S.Shelf.lay_bits self.old self.new place words.now result }
    {
        let shape = Shape::from(self.shelf.shape());
        shape.check_lay(place, words)?;
        self.schedule.count();
        let bits = self.shelf.lay(place, words)?;
        Ok(self.schedule.running_bits(shape.bays, bits))
    }
}

impl<S: Serviceable> Serviceable for Drill<S> {
    fn patch(&mut self, bay: usize, place: usize, word: u32) -> Result<(), Refusal>
        ensures promised { Outcome (drill_table S.Shelf.table) (HeldOrder S.Shelf.sound) self.old self.new (refuses_word bay place word) (Patched bay place word) result }
        ensures counts { Counts (refuses_word bay place word (S.Shelf.table self.old.shelf)) self.old self.new }
        ensures stops { StopsCall (refuses_word bay place word (S.Shelf.table self.old.shelf)) bay self.old self.new result }
        ensures below { PassesCall S.Shelf.table S.Shelf.sound bay self.old self.new (refuses_word bay place word) (Patched bay place word) result }
    {
        Shape::from(self.shelf.shape()).check_word(bay, place, word)?;
        self.schedule.count_call(bay)?;
        self.shelf.patch(bay, place, word)
    }

    fn exchange(&mut self, bay: usize) -> Result<(), Refusal>
        ensures promised { Outcome (drill_table S.Shelf.table) (HeldOrder S.Shelf.sound) self.old self.new (refuses_exchange bay) (Exchanged bay) result }
        ensures spends { Spends (refuses_exchange bay (S.Shelf.table self.old.shelf)) bay self.old self.new }
        ensures below { Outcome S.Shelf.table S.Shelf.sound self.old.shelf self.new.shelf (refuses_exchange bay) (Exchanged bay) result }
    {
        Shape::from(self.shelf.shape()).check_bay(bay)?;
        self.schedule.spend(bay);
        self.shelf.exchange(bay)
    }
}
