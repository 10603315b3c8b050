ghost use Rattle.std.specs.Prelude.{◌≡◌, ◌+◌, ◌^◌, ◌<◌, ◌==◌, not};
ghost use Rattle.std.specs.List.{list_any};
ghost use Rattle.shelf.specs.Calls.{bit};
ghost use Rattle.linear.specs.Equations.{has_row};
ghost use Rattle.linear.specs.Elimination.{reduced};
ghost use Rattle.linear.specs.Sets.{bay_equation, rows_of, left, TellsJust};

use crate::elimination::{Pivots, eliminate, reduce};
use crate::equation::{Equation, Equations};
use plan::{Plan, row};
use shelf::{bit, bits_where};

// The row of a bay, with no word.
fn bay_equation<P: Plan>(plan: &P, bay: usize) -> Equation
    ensures { result ≡ bay_equation (P.Plan.coefficients plan.now) bay }
{
    Equation {
        row: row(plan, bay),
        word: 0,
    }
}

// The rows of the bays that have their bits set.
fn rows_of<P: Plan>(plan: &P, bays: u32) -> Equations
    ensures { result.items ≡ rows_of (P.Plan.coefficients plan.now) (bit bays) ((P.Plan.coefficients plan.now).n + (P.Plan.coefficients plan.now).m) }
{
    let mut rows = Equations::new();
    // No index: a bay is the number of its bit.
    for bay in 0..plan.data_bays() + plan.check_bays() {
        if bit(bays, bay) {
            rows.push(bay_equation(plan, bay));
        }
    }
    rows
}

// Whether the pivots tell the row of a bay: nothing of it is left.
fn tell<P: Plan>(pivots: &Pivots, plan: &P, bay: usize) -> bool
    ensures { result ≡ not (has_row P.F.Field.arithmetic (reduced P.F.Field.arithmetic pivots.now.items (bay_equation (P.Plan.coefficients plan.now) bay))) }
{
    !reduce::<P::F>(pivots, bay_equation(plan, bay)).has_row::<P::F>()
}

// The bits of the bays of a plan, data bays and then check bays, whose rows are told by the bays that have their bits set.
pub fn told_bays<P: Plan>(plan: &P, bays: u32) -> u32
    ensures below { result < 2 ^ ((P.Plan.coefficients plan.now).n + (P.Plan.coefficients plan.now).m) }
    ensures just { TellsJust P.F.Field.arithmetic (P.Plan.coefficients plan.now) (bit bays) result }
{
    let mut rows = rows_of(plan, bays);
    let pivots = eliminate::<P::F>(&mut rows);
    bits_where(plan.data_bays() + plan.check_bays(), |bay| {
        tell(&pivots, plan, bay)
    })
}

// Whether a bay is on the list. Its bays have 32 bits: Rust has no From of u32 for usize, so they are cast, which loses nothing.
fn is_on(list: &[u32], bay: usize) -> bool
    ensures { result ≡ list_any (λ other. other == bay) list.now }
{
    list.iter().any(|other| *other as usize == bay)
}

// The same where the bays on the list are lost, and the other bays of the plan are there.
pub fn told_without<P: Plan>(plan: &P, lost: &[u32]) -> u32
    ensures below { result < 2 ^ ((P.Plan.coefficients plan.now).n + (P.Plan.coefficients plan.now).m) }
    ensures just { TellsJust P.F.Field.arithmetic (P.Plan.coefficients plan.now) (left lost.now) result }
{
    let bays = plan.data_bays() + plan.check_bays();
    let left = bits_where(bays, |bay| !is_on(lost, bay));
    told_bays(plan, left)
}
