ghost use Rattle.std.specs.Prelude.{◌≡◌, ◌%◌};
ghost use Rattle.plan.specs.Rows.{codes, check_on, moved, Follows};

use crate::layout::Plan;
use field::Field;

// The word of check `i` on the words of the data bays: the field sum of coefficient times word.
// It stops at the last data bay, and at the last word.
pub fn check_word<P: Plan>(plan: &P, i: usize, words: &[u32]) -> u32
    ensures { result ≡ check_on P.F.Field.arithmetic (P.Plan.coefficients plan.now) i (codes P.F.Field.arithmetic words.now) }
{
    (0..plan.data_bays()).zip(words).fold(0, |all, (j, word)| {
        P::F::sum(all, P::F::product(plan.coefficient(i, j), *word))
    })
}

// The word of check `i` after data bay `j` went from the old word to the new one: it moves by coefficient times
// difference, and is what the new words give.
#[tactic(auto, using(crate::proofs::Rows::moved_is, crate::proofs::Rows::moved_follows, field::specs::Laws::code))]
pub fn moved_word<P: Plan>(plan: &P, i: usize, j: usize, check: u32, old: u32, new: u32) -> u32
    ensures value { result ≡ moved P.F.Field.arithmetic (P.Plan.coefficients plan.now) i j (check % P.F.Field.arithmetic.order) (old % P.F.Field.arithmetic.order) (new % P.F.Field.arithmetic.order) }
    ensures follows { Follows P.F.Field.arithmetic (P.Plan.coefficients plan.now) i j (check % P.F.Field.arithmetic.order) (old % P.F.Field.arithmetic.order) (new % P.F.Field.arithmetic.order) result }
{
    P::F::sum(
        check,
        P::F::product(plan.coefficient(i, j), P::F::difference(new, old)),
    )
}
