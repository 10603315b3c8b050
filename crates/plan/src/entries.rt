ghost use Rattle.std.specs.Prelude.{◌≡◌};
ghost use Rattle.plan.specs.Rows.{entry, whole_row};

use crate::layout::{MOST_DATA_BAYS, Plan};
use std::array;

// Column j of the row of a bay: one in its own column for a data bay, the coefficients for a check bay.
#[tactic(auto, unfolding(crate::specs::Rows::entry))]
pub fn entry<P: Plan>(plan: &P, bay: usize, j: usize) -> u32
    ensures { result ≡ entry (P.Plan.coefficients plan.now) bay j }
{
    let data_bays = plan.data_bays();
    if bay < data_bays {
        u32::from(bay == j)
    } else {
        plan.coefficient(bay - data_bays, j)
    }
}

// The row of a bay, with zeros after the last data bay.
pub fn row<P: Plan>(plan: &P, bay: usize) -> [u32; MOST_DATA_BAYS]
    ensures { result ≡ whole_row (P.Plan.coefficients plan.now) bay }
{
    array::from_fn(|j| entry(plan, bay, j))
}
