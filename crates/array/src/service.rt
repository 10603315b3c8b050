ghost use Rattle.std.specs.Prelude.{◌≡◌, ⊤, cond};
ghost use Rattle.shelf.specs.Table.{blank};
ghost use Rattle.array.specs.Decoding.{matched};
ghost use Rattle.array.specs.Service.{refuses_mend, refuses_fresh, mend_number, NotWhole, ReadsFirst, MendReads, MendsCell, Mends, Freshens, Serves, Sweeps};

use crate::coded::Array;
use crate::finding::told_word;
use crate::mending::Mending;
use plan::Plan;
use shelf::{Refusal, Serviceable, Shape, Shelf};

// Puts the word that the other cells of the place tell in a cell that gave none.
fn patch_told<S: Serviceable, P: Plan>(
    below: &mut S,
    plan: &P,
    bay: usize,
    place: usize,
) -> Result<Mending, Refusal>
    ensures promised { MendsCell S.Shelf.table S.Shelf.sound P.F.Field.arithmetic (P.Plan.coefficients plan.now) bay place below.old below.new ((S.Shelf.table below.old).cell bay place ≡ blank) result }
    ensures otherwise { NotWhole result }
{
    let word = told_word(below, plan, bay, place)?;
    match below.patch(bay, place, word) {
        Ok(()) => Ok(Mending::Patched),
        // A patch is lost only where the bay is stopped.
        Err(_) => Err(Refusal::Stopped),
    }
}

// Mends a cell of a shelf that matches the plan.
fn mend_cell<S: Serviceable, P: Plan>(
    below: &mut S,
    plan: &P,
    bay: usize,
    place: usize,
) -> Result<Mending, Refusal>
    ensures promised { MendsCell S.Shelf.table S.Shelf.sound P.F.Field.arithmetic (P.Plan.coefficients plan.now) bay place below.old below.new ⊤ result }
    ensures reads { ReadsFirst S.Shelf.table S.Shelf.sound bay place below.old below.new result }
{
    match below.read(bay, place) {
        Ok(_) => Ok(Mending::Whole),
        Err(_) => patch_told(below, plan, bay, place),
    }
}

// The number of a mend's answer, or of its refusal.
fn answer_byte(mended: Result<Mending, Refusal>) -> u8
    ensures { result ≡ mend_number mended }
{
    let number = match mended {
        Ok(mending) => mending.number(),
        Err(refusal) => refusal.number(),
    };
    number as u8
}

impl<S: Serviceable, P: Plan> Array<S, P> {
    // The shape of the shelf below where it fits the array, else one without bays or places.
    fn serviced(&self) -> Shape
        ensures bays { result.bays ≡ cond (matched P.F.Field.arithmetic (P.Plan.coefficients self.now.plan) (S.Shelf.table self.now.below)) (S.Shelf.table self.now.below).bays 0 }
        ensures places { result.places ≡ cond (matched P.F.Field.arithmetic (P.Plan.coefficients self.now.plan) (S.Shelf.table self.now.below)) (S.Shelf.table self.now.below).places 0 }
    {
        let own = Shape::from(self.shape());
        if own.bays == 0 {
            own
        } else {
            Shape::from(self.below.shape())
        }
    }

    // A fresh device in a bay below. Nothing else exchanges one there.
    pub fn exchange(&mut self, bay: usize) -> Result<(), Refusal>
        ensures { Serves S.Shelf.table S.Shelf.sound P.F.Field.arithmetic P.Plan.coefficients self.old self.new (refuses_fresh bay) (Freshens bay) result }
    {
        self.serviced().check_bay(bay)?;
        self.below.exchange(bay)
    }

    // Mends one cell below: where it gives no word, the word that the others tell is put in it.
    pub fn mend(&mut self, bay: usize, place: usize) -> Result<Mending, Refusal>
        ensures promised { Serves S.Shelf.table S.Shelf.sound P.F.Field.arithmetic P.Plan.coefficients self.old self.new (refuses_mend bay place) (Mends bay place) result }
        ensures reads { MendReads S.Shelf.table S.Shelf.sound P.F.Field.arithmetic P.Plan.coefficients self.old self.new bay place result }
    {
        self.serviced().check_cell(bay, place)?;
        mend_cell(&mut self.below, &self.plan, bay, place)
    }

    // Mends a bay below over a run of places, as long as the bytes, and puts the number of each answer in its byte: 0 and 1 of a mend
    // that was done, 5 and 6 of one that was not.
    pub fn sweep(&mut self, bay: usize, first: usize, bytes: &mut [u8]) -> Result<(), Refusal>
        ensures { Sweeps S.Shelf.table S.Shelf.sound P.F.Field.arithmetic P.Plan.coefficients self.old self.new bay first bytes.old bytes.new result }
    {
        let shape = self.serviced();
        shape.check_bay(bay)?;
        shape.check_run(first, bytes.len())?;
        // By index: a loop over the bytes' `iter_mut` has no name for what they hold meanwhile.
        for i in 0..bytes.len() {
            bytes[i] = answer_byte(self.mend(bay, first + i));
        }
        Ok(())
    }
}
