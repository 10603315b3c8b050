ghost use Rattle.std.specs.Prelude.{◌≡◌, ◌<◌, ⊤, Some, None, MatchResult};
ghost use Rattle.plan.specs.Powers.{power, powers};
ghost use Rattle.plan.specs.Refusals.{bays_refusal};
ghost use Rattle.plan.specs.Powering.{powers_fitting};

use crate::bays::Bays;
use crate::layout::Plan;
use crate::refusal::Refusal;
use field::Field;
use std::alloc::AllocError;
use std::marker::PhantomData;

// The plan of powers: the coefficient of data bay j in check i is (j + 1) to the i, where power 0 is one.
pub struct Powers<F> {
    bays: Bays,
    field: PhantomData<F>,
}

// By hand: a derive would ask the field for it.
impl<F> Clone for Powers<F> {
    ghost is_clone = { λ x y. y ≡ x };

    ghost is_infallible = { λ _. ⊤ };

    fn clone(&self) -> Result<Powers<F>, AllocError> {
        Ok(*self)
    }
}

impl<F> Copy for Powers<F> {}

impl<F: Field> Powers<F> {
    // Refused by 14 where there are not 1 to 15 data bays and 1 to 8 check bays.
    pub fn new(data_bays: usize, check_bays: usize) -> Result<Powers<F>, Refusal>
        ensures { MatchResult result (λ p. (bays_refusal data_bays check_bays ≡ None) × (p.bays.data_bays ≡ data_bays) × (p.bays.check_bays ≡ check_bays)) (λ e. bays_refusal data_bays check_bays ≡ Some e) }
    {
        Ok(Powers {
            bays: Bays::new(data_bays, check_bays)?,
            field: PhantomData,
        })
    }
}

// The code `base` to the `exponent`.
#[tactic(auto, using(crate::specs::Powering::power_more), unfolding(crate::specs::Powers::power))]
fn power_of<F: Field>(base: u32, exponent: usize) -> u32
    requires { base < F.Field.arithmetic.order }
    ensures { result ≡ power F.Field.arithmetic base exponent }
{
    let mut all = 1;
    for _ in 0..exponent {
        all = F::product(base, all);
    }
    all
}

impl<F: Field> Plan for Powers<F> {
    type F = F;

    ghost coefficients = { λ p. powers F.Field.arithmetic p.bays.data_bays p.bays.check_bays };

    ghost fitting = { λ p.
        powers_fitting F.Field.arithmetic F.Field.lawful p.bays.data_bays p.bays.check_bays
        p.bays.some_data p.bays.few_data p.bays.some_checks p.bays.few_checks };

    fn data_bays(&self) -> usize {
        self.bays.data_bays
    }

    fn check_bays(&self) -> usize {
        self.bays.check_bays
    }

    // There are 15 data bays at most, so the base is cast.
    fn coefficient(&self, i: usize, j: usize) -> u32 {
        if i < self.bays.check_bays && j < self.bays.data_bays {
            power_of::<F>(j as u32 + 1, i)
        } else {
            0
        }
    }
}
