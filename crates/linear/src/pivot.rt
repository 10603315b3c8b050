ghost use Rattle.std.specs.Prelude.{◌≡◌, ◌<◌, ⊤};
ghost use Rattle.plan.specs.Bounds.{most_data};
ghost use Rattle.linear.specs.Equations.{cleared};

use crate::equation::Equation;
use field::Field;
use std::alloc::AllocError;

// An equation with one in its column.
pub(crate) struct Pivot {
    pub(crate) column: usize,
    pub(crate) equation: Equation,
    ghost fits: { column < most_data },
}

// By hand, as below: no derive copies or makes a struct with ghost fields.
impl Clone for Pivot {
    ghost is_clone = { λ x y. y ≡ x };

    ghost is_infallible = { λ _. ⊤ };

    fn clone(&self) -> Result<Pivot, AllocError> {
        Ok(*self)
    }
}

impl Copy for Pivot {}

impl Default for Pivot {
    fn default() -> Pivot {
        Pivot {
            column: 0,
            equation: Equation::default(),
        }
    }
}

impl Pivot {
    // The equation less what it has in the column of the pivot.
    pub(crate) fn clear<F: Field>(self, equation: Equation) -> Equation
        ensures { result ≡ cleared F.Field.arithmetic self.column self.equation equation }
    {
        equation.less::<F>(equation.row[self.column], self.equation)
    }
}
