ghost use Rattle.std.specs.Prelude.{◌≡◌, ◌<◌, map};
ghost use Rattle.std.specs.List.{fold};
ghost use Rattle.plan.specs.Bounds.{most_data};
ghost use Rattle.linear.specs.Equations.{cleared};
ghost use Rattle.linear.specs.Elimination.{FirstWith, TakesPivot, Eliminated, reduced};

use crate::equation::{Equation, Equations};
use crate::pivot::Pivot;
use arrayvec::ArrayVec;
use field::Field;
use plan::MOST_DATA_BAYS;

pub(crate) type Pivots = ArrayVec<Pivot, MOST_DATA_BAYS>;

// The first equation that has anything but zero in the column.
fn first_with<F: Field>(equations: &[Equation], column: usize) -> Option<usize>
    requires { column < most_data }
    ensures { FirstWith F.Field.arithmetic column equations.now result }
{
    let mut i = 0;
    // The number of the row is what the loop yields.
    loop {
        if i == equations.len() {
            break None;
        }
        if equations[i].entry::<F>(column) != 0 {
            break Some(i);
        }
        i += 1;
    }
}

// Takes the first equation that has anything but zero in the column, and makes that one.
fn take_pivot<F: Field>(remaining: &mut Equations, column: usize) -> Option<Pivot>
    requires { column < most_data }
    ensures { TakesPivot F.Field.arithmetic column remaining.old.items remaining.new.items result }
{
    let first = first_with::<F>(remaining, column)?;
    let equation = remaining.remove(first);
    let inverse = F::inverse(equation.row[column]).unwrap();
    Some(Pivot {
        column,
        equation: equation.times::<F>(inverse),
    })
}

// Clears the column of the pivot in all equations.
fn clear_all<F: Field>(pivot: Pivot, equations: &mut Equations)
    ensures { equations.new.items ≡ map (cleared F.Field.arithmetic pivot.column pivot.equation) equations.old.items }
{
    for equation in equations.iter_mut() {
        *equation = pivot.clear::<F>(*equation);
    }
}

// The pivots, column by column, and what then remains, of which only words are left: no vector is lost or gained, and no pivot has
// anything in the column of an earlier one.
pub(crate) fn eliminate<F: Field>(remaining: &mut Equations) -> Pivots
    ensures { Eliminated F.Field.arithmetic remaining.old.items remaining.new.items result.items }
{
    let mut pivots = Pivots::new();
    for column in 0..MOST_DATA_BAYS {
        if let Some(pivot) = take_pivot::<F>(remaining, column) {
            clear_all::<F>(pivot, remaining);
            pivots.push(pivot);
        }
    }
    pivots
}

// What is left of the equation once the pivots' columns are cleared in it.
pub(crate) fn reduce<F: Field>(pivots: &Pivots, equation: Equation) -> Equation
    ensures { result ≡ reduced F.Field.arithmetic pivots.now.items equation }
{
    pivots
        .iter()
        .fold(equation, |rest, pivot| pivot.clear::<F>(rest))
}
