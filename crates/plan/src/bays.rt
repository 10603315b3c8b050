ghost use Rattle.std.specs.Prelude.{◌≡◌, ◌≤◌, ⊤, Some, None, MatchResult};
ghost use Rattle.plan.specs.Bounds.{most_data, most_checks};
ghost use Rattle.plan.specs.Refusals.{bays_refusal};

use crate::layout::{MOST_CHECK_BAYS, MOST_DATA_BAYS};
use crate::refusal::Refusal;
use std::alloc::AllocError;

// How many bays of a plan hold data, and how many hold checks.
pub struct Bays {
    pub(crate) data_bays: usize,
    pub(crate) check_bays: usize,
    ghost some_data: { 1 ≤ data_bays },
    ghost few_data: { data_bays ≤ most_data },
    ghost some_checks: { 1 ≤ check_bays },
    ghost few_checks: { check_bays ≤ most_checks },
}

// By hand: no derive clones a struct with ghost fields.
impl Clone for Bays {
    ghost is_clone = { λ x y. y ≡ x };

    ghost is_infallible = { λ _. ⊤ };

    fn clone(&self) -> Result<Bays, AllocError> {
        Ok(*self)
    }
}

impl Copy for Bays {}

impl Bays {
    // Refused by 14 where there are not 1 to 15 data bays and 1 to 8 check bays.
    pub(crate) fn new(data_bays: usize, check_bays: usize) -> Result<Bays, Refusal>
        ensures { MatchResult result (λ b. (bays_refusal data_bays check_bays ≡ None) × (b.data_bays ≡ data_bays) × (b.check_bays ≡ check_bays)) (λ e. bays_refusal data_bays check_bays ≡ Some e) }
    {
        if !(1..=MOST_DATA_BAYS).contains(&data_bays)
            || !(1..=MOST_CHECK_BAYS).contains(&check_bays)
        {
            return Err(Refusal::BaysOutOfRange);
        }
        Ok(Bays {
            data_bays,
            check_bays,
        })
    }
}
