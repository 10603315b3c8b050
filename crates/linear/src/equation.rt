ghost use Rattle.std.specs.Prelude.{◌≡◌, ◌<◌};
ghost use Rattle.plan.specs.Bounds.{most_data};
ghost use Rattle.linear.specs.Equations.{entry, has_row, times, less};

use arrayvec::ArrayVec;
use field::Field;
use plan::{MOST_CHECK_BAYS, MOST_DATA_BAYS};
use std::array;

// An equation: the row of a bay, and the word that it gives on the data vectors that satisfy the equation.
// A code at or above the order counts as its remainder.
#[derive(Clone, Copy, Default)]
pub struct Equation {
    pub row: [u32; MOST_DATA_BAYS],
    pub word: u32,
}

// There is one for each bay below, at most.
pub const MOST_EQUATIONS: usize = MOST_DATA_BAYS + MOST_CHECK_BAYS;

pub type Equations = ArrayVec<Equation, MOST_EQUATIONS>;

impl Equation {
    // The code in a column of the row.
    pub(crate) fn entry<F: Field>(&self, column: usize) -> u32
        requires { column < most_data }
        ensures { result ≡ entry F.Field.arithmetic self.now column }
    {
        self.row[column] % F::size()
    }

    // Whether the row has anything but zeros.
    pub(crate) fn has_row<F: Field>(&self) -> bool
        ensures { result ≡ has_row F.Field.arithmetic self.now }
    {
        (0..MOST_DATA_BAYS).any(|column| self.entry::<F>(column) != 0)
    }

    // `by` times the equation.
    pub(crate) fn times<F: Field>(self, by: u32) -> Equation
        ensures { result ≡ times F.Field.arithmetic by self }
    {
        Equation {
            row: array::from_fn(|j| F::product(by, self.row[j])),
            word: F::product(by, self.word),
        }
    }

    // The equation less `by` times the other.
    pub(crate) fn less<F: Field>(self, by: u32, other: Equation) -> Equation
        ensures { result ≡ less F.Field.arithmetic by other self }
    {
        Equation {
            row: array::from_fn(|j| F::difference(self.row[j], F::product(by, other.row[j]))),
            word: F::difference(self.word, F::product(by, other.word)),
        }
    }
}
