ghost use Rattle.std.specs.Prelude.{◌≡◌, ⊤, Some, None, MatchResult, length};
ghost use Rattle.plan.specs.Written.{written, whole_table};
ghost use Rattle.plan.specs.Refusals.{written_refusal};
ghost use Rattle.plan.specs.Fits.{written_fitting};

use crate::bays::Bays;
use crate::layout::{MOST_CHECK_BAYS, MOST_DATA_BAYS, Plan};
use crate::refusal::Refusal;
use field::{Byte, Field};
use std::alloc::AllocError;
use std::array;
use std::marker::PhantomData;

// The longest table: 15 codes for each check bay.
const LONGEST: usize = MOST_CHECK_BAYS * MOST_DATA_BAYS;

// A written plan: the coefficient of data bay j in check i is entry 15 i + j of a table, reduced by the order. One is made in the byte
// field alone; the parameter lets an enum of plans have it as a case in each field.
pub struct Written<F> {
    bays: Bays,
    // The table, and zeros after it.
    table: [u32; LONGEST],
    field: PhantomData<F>,
}

// By hand: a derive would ask the field for it.
impl<F> Clone for Written<F> {
    ghost is_clone = { λ x y. y ≡ x };

    ghost is_infallible = { λ _. ⊤ };

    fn clone(&self) -> Result<Written<F>, AllocError> {
        Ok(*self)
    }
}

impl<F> Copy for Written<F> {}

// The table, and zeros after it.
fn whole_table(table: &[u32]) -> [u32; LONGEST]
    ensures { result ≡ whole_table table.now }
{
    array::from_fn(|k| table.get(k).copied().unwrap_or(0))
}

impl Written<Byte> {
    // Refused by 14 where there are not 1 to 15 data bays and 1 to 8 check bays, and then by 15 where the table has not 15 codes for each
    // check bay.
    pub fn new(data_bays: usize, check_bays: usize, table: &[u32]) -> Result<Written<Byte>, Refusal>
        ensures { MatchResult result (λ p. (written_refusal data_bays check_bays (length table.now) ≡ None) × (p.bays.data_bays ≡ data_bays) × (p.bays.check_bays ≡ check_bays) × (p.table ≡ whole_table table.now)) (λ e. written_refusal data_bays check_bays (length table.now) ≡ Some e) }
    {
        let bays = Bays::new(data_bays, check_bays)?;
        if table.len() != MOST_DATA_BAYS * check_bays {
            return Err(Refusal::TableLength);
        }
        Ok(Written {
            bays,
            table: whole_table(table),
            field: PhantomData,
        })
    }
}

impl<F: Field> Plan for Written<F> {
    type F = F;

    ghost coefficients = { λ p. written F.Field.arithmetic p.bays.data_bays p.bays.check_bays p.table };

    ghost fitting = { λ p.
        written_fitting F.Field.arithmetic F.Field.lawful p.bays.data_bays p.bays.check_bays p.table
        p.bays.some_data p.bays.few_data p.bays.some_checks p.bays.few_checks };

    fn data_bays(&self) -> usize {
        self.bays.data_bays
    }

    fn check_bays(&self) -> usize {
        self.bays.check_bays
    }

    fn coefficient(&self, i: usize, j: usize) -> u32 {
        if i < self.bays.check_bays && j < self.bays.data_bays {
            self.table[MOST_DATA_BAYS * i + j] % F::size()
        } else {
            0
        }
    }
}
