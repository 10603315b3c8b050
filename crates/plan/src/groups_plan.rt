ghost use Rattle.std.specs.Prelude.{◌≡◌, ◌≤◌, ⊤, Some, None, MatchResult};
ghost use Rattle.plan.specs.Groups.{groups};
ghost use Rattle.plan.specs.Refusals.{groups_refusal};
ghost use Rattle.plan.specs.Fits.{groups_fitting};

use crate::bays::Bays;
use crate::layout::Plan;
use crate::refusal::Refusal;
use field::Field;
use std::alloc::AllocError;
use std::marker::PhantomData;

// The plan of groups: each data bay is in one check, data bay j in check j mod m, with coefficient 1.
pub struct Groups<F> {
    bays: Bays,
    field: PhantomData<F>,
    ghost each_has_one: { bays.check_bays ≤ bays.data_bays },
}

// By hand: no derive clones a struct with ghost fields.
impl<F> Clone for Groups<F> {
    ghost is_clone = { λ x y. y ≡ x };

    ghost is_infallible = { λ _. ⊤ };

    fn clone(&self) -> Result<Groups<F>, AllocError> {
        Ok(*self)
    }
}

impl<F> Copy for Groups<F> {}

impl<F: Field> Groups<F> {
    // Refused by 14 where there are not 1 to 15 data bays and 1 to 8 check bays, or more check bays than data bays.
    pub fn new(data_bays: usize, check_bays: usize) -> Result<Groups<F>, Refusal>
        ensures { MatchResult result (λ p. (groups_refusal data_bays check_bays ≡ None) × (p.bays.data_bays ≡ data_bays) × (p.bays.check_bays ≡ check_bays)) (λ e. groups_refusal data_bays check_bays ≡ Some e) }
    {
        let bays = Bays::new(data_bays, check_bays)?;
        if check_bays > data_bays {
            return Err(Refusal::BaysOutOfRange);
        }
        Ok(Groups {
            bays,
            field: PhantomData,
        })
    }
}

impl<F: Field> Plan for Groups<F> {
    type F = F;

    ghost coefficients = { λ p. groups p.bays.data_bays p.bays.check_bays };

    ghost fitting = { λ p.
        groups_fitting F.Field.arithmetic F.Field.lawful p.bays.data_bays p.bays.check_bays
        p.bays.some_data p.bays.few_data p.bays.some_checks p.bays.few_checks };

    fn data_bays(&self) -> usize {
        self.bays.data_bays
    }

    fn check_bays(&self) -> usize {
        self.bays.check_bays
    }

    fn coefficient(&self, i: usize, j: usize) -> u32 {
        u32::from(j < self.bays.data_bays && j % self.bays.check_bays == i)
    }
}
