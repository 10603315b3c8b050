ghost use Rattle.std.specs.Prelude.{◌≡◌, ◌%◌, ◌==◌, MatchBool};
ghost use Rattle.std.specs.List.{list_all};
ghost use Rattle.linear.specs.Equations.{Verdict, Satisfiable};

use crate::elimination::{eliminate, reduce};
use crate::equation::{Equation, Equations};
use field::Field;
use plan::MOST_DATA_BAYS;

// The word that the target has on every data vector that satisfies the equations, or none where they leave it open.
pub fn told<F: Field>(equations: Equations, target: [u32; MOST_DATA_BAYS]) -> Option<u32>
    ensures { Verdict F.Field.arithmetic equations.items target result }
{
    let target = Equation {
        row: target,
        word: 0,
    };
    let mut equations = equations;
    let rest = reduce::<F>(&eliminate::<F>(&mut equations), target);
    if rest.has_row::<F>() {
        None
    } else {
        Some(F::difference(0, rest.word))
    }
}

// Whether each word is zero.
fn no_words<F: Field>(equations: &[Equation]) -> bool
    ensures { result ≡ list_all (λ e. e.word % F.Field.arithmetic.order == 0) equations.now }
{
    equations
        .iter()
        .all(|equation| equation.word % F::size() == 0)
}

// Whether some data vector satisfies all of the equations: no word is left where only words are.
pub fn agree<F: Field>(equations: Equations) -> bool
    ensures { MatchBool result (Satisfiable F.Field.arithmetic equations.items) (Satisfiable F.Field.arithmetic equations.items → ⊥) }
{
    let mut rest = equations;
    eliminate::<F>(&mut rest);
    no_words::<F>(&rest)
}
