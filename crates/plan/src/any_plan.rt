ghost use Rattle.plan.specs.AnyPlans.{any_coefficients, any_fitting};

use crate::groups_plan::Groups;
use crate::layout::Plan;
use crate::powers_plan::Powers;
use crate::written_plan::Written;
use field::Field;

// A plan of any kind in one field, as where a description says which.
#[derive(Drop)]
pub enum AnyPlan<F> {
    Powers(Powers<F>),
    Groups(Groups<F>),
    Written(Written<F>),
}

impl<F: Field> Plan for AnyPlan<F> {
    type F = F;

    ghost coefficients = { any_coefficients F.Field.arithmetic };

    ghost fitting = { any_fitting F.Field.arithmetic F.Field.lawful };

    fn data_bays(&self) -> usize {
        match self {
            AnyPlan::Powers(plan) => plan.data_bays(),
            AnyPlan::Groups(plan) => plan.data_bays(),
            AnyPlan::Written(plan) => plan.data_bays(),
        }
    }

    fn check_bays(&self) -> usize {
        match self {
            AnyPlan::Powers(plan) => plan.check_bays(),
            AnyPlan::Groups(plan) => plan.check_bays(),
            AnyPlan::Written(plan) => plan.check_bays(),
        }
    }

    fn coefficient(&self, i: usize, j: usize) -> u32 {
        match self {
            AnyPlan::Powers(plan) => plan.coefficient(i, j),
            AnyPlan::Groups(plan) => plan.coefficient(i, j),
            AnyPlan::Written(plan) => plan.coefficient(i, j),
        }
    }
}
