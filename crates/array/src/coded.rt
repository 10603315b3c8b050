ghost use Rattle.std.specs.Prelude.{◌≡◌};
ghost use Rattle.shelf.specs.Table.{Shaped};
ghost use Rattle.shelf.specs.Calls.{refuses_read, refuses_word, refuses_lay, Read, Written, LayAnswer};
ghost use Rattle.array.specs.Decoding.{InOrder, Means};
ghost use Rattle.array.specs.Tables.{array_table, ArrayOrder, ArrayOutcome, Beneath, LayBits};
ghost use Rattle.array.specs.Changes.{ReadBelow, WriteBelow, LayBelow};

use crate::finding::find_word;
use crate::laying::row_words;
use crate::moving::rewrite;
use field::Field;
use linear::told_bays;
use plan::Plan;
use shelf::{Refusal, Shape, Shelf};

// An array: a shelf of a plan's data bays over a shelf of its data bays and check bays. A cell of the array is worked out from the cells
// of its place below. Where the shelf below has another number of bays, or a limit under the order of the plan's field, the array has no
// bays and no places.
#[derive(Drop)]
pub struct Array<S, P> {
    pub(crate) below: S,
    pub(crate) plan: P,
}

impl<S, P> Array<S, P> {
    // Never refuses. Over a shelf whose cells are all blank the array is new.
    pub fn assemble(below: S, plan: P) -> Array<S, P>
        ensures { (result.below ≡ below) × (result.plan ≡ plan) }
    {
        Array { below, plan }
    }

    // The shelf below, to look at.
    pub fn below(&self) -> &S
        ensures { result.now ≡ self.now.below }
    {
        &self.below
    }

    // The shelf below and the plan.
    pub fn take_apart(self) -> (S, P)
        ensures { (result.0 ≡ self.below) × (result.1 ≡ self.plan) }
    {
        let Array { below, plan } = self;
        (below, plan)
    }
}

impl<S: Shelf, P: Plan> Shelf for Array<S, P> {
    ghost table = { array_table S.Shelf.table P.F.Field.arithmetic P.Plan.coefficients };

    ghost sound = { ArrayOrder S.Shelf.table S.Shelf.sound P.F.Field.arithmetic P.Plan.coefficients };

    ghost lay_bits = { LayBits S.Shelf.table S.Shelf.sound S.Shelf.lay_bits P.F.Field.arithmetic P.Plan.coefficients };

    fn shape(&self) -> (usize, usize, u32)
        ensures promised { Shaped (array_table S.Shelf.table P.F.Field.arithmetic P.Plan.coefficients self.now) result }
        ensures means { InOrder P.F.Field.arithmetic (P.Plan.coefficients self.now.plan) (S.Shelf.table self.now.below) → Means P.F.Field.arithmetic (P.Plan.coefficients self.now.plan) (S.Shelf.table self.now.below) }
    {
        let below = Shape::from(self.below.shape());
        let data_bays = self.plan.data_bays();
        let order = P::F::size();
        if below.bays == data_bays + self.plan.check_bays() && order <= below.limit {
            (data_bays, below.places, order)
        } else {
            (0, 0, order)
        }
    }

    // The word of the cell below, or where that is lost, the word that the other cells of the place tell.
    fn read(&mut self, bay: usize, place: usize) -> Result<u32, Refusal>
        ensures promised { ArrayOutcome S.Shelf.table S.Shelf.sound P.F.Field.arithmetic P.Plan.coefficients self.old self.new (refuses_read bay place) (Read bay place) result }
        ensures below { Beneath S.Shelf.table S.Shelf.sound P.F.Field.arithmetic P.Plan.coefficients self.old self.new (refuses_read bay place) ReadBelow }
    {
        Shape::from(self.shape()).check_cell(bay, place)?;
        find_word(&mut self.below, &self.plan, bay, place)
    }

    // Needs the old word. Once that is known the write is kept, whatever goes blank.
    fn write(&mut self, bay: usize, place: usize, word: u32) -> Result<(), Refusal>
        ensures promised { ArrayOutcome S.Shelf.table S.Shelf.sound P.F.Field.arithmetic P.Plan.coefficients self.old self.new (refuses_word bay place word) (Written bay place word) result }
        ensures below { Beneath S.Shelf.table S.Shelf.sound P.F.Field.arithmetic P.Plan.coefficients self.old self.new (refuses_word bay place word) (WriteBelow bay place word result) }
    {
        Shape::from(self.shape()).check_word(bay, place, word)?;
        let old = find_word(&mut self.below, &self.plan, bay, place)?;
        rewrite(&mut self.below, &self.plan, bay, place, old, word);
        Ok(())
    }

    // Lays what each row gives on the words. The bits are those of the data bays that the bays with bits set below tell.
    fn lay(&mut self, place: usize, words: &[u32]) -> Result<u32, Refusal>
        ensures promised { ArrayOutcome S.Shelf.table S.Shelf.sound P.F.Field.arithmetic P.Plan.coefficients self.old self.new (refuses_lay place words.now) (LayAnswer place words.now) result }
        ensures below { Beneath S.Shelf.table S.Shelf.sound P.F.Field.arithmetic P.Plan.coefficients self.old self.new (refuses_lay place words.now) (LayBelow place words.now result) }
        ensures bits { LayBits S.Shelf.table S.Shelf.sound S.Shelf.lay_bits P.F.Field.arithmetic P.Plan.coefficients self.old self.new place words.now result }
    {
        Shape::from(self.shape()).check_lay(place, words)?;
        let all = row_words(&self.plan, words);
        let bits = self.below.lay(place, &all)?;
        Ok(told_bays(&self.plan, bits) % (1 << self.plan.data_bays()))
    }
}
