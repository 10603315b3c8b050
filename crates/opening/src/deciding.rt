ghost use Rattle.std.specs.Prelude.{◌≡◌, ℕ, ◌+◌, ◌<◌, ◌≤◌, true, false, length, MatchBool, MatchOption, ⊤};
ghost use Rattle.std.specs.List.{list_all};
ghost use Rattle.plan.specs.Bounds.{most_data};
ghost use Rattle.shelf.specs.Bounds.{most_bays};
ghost use Rattle.opening.specs.Words.{word_at, is_code, check_holds, DataWords, EquationsOf, Given};

use arrayvec::ArrayVec;
use field::Field;
use linear::{Equation, Equations, agree};
use plan::{MOST_DATA_BAYS, Plan, check_word, row};

// One word for each data bay.
type Words = ArrayVec<u32, MOST_DATA_BAYS>;

// Whether a cell has no word but a code.
fn is_code<F: Field>(cell: Option<u32>) -> bool
    ensures { result ≡ is_code F.Field.arithmetic.order cell }
{
    match cell {
        Some(word) => word < F::size(),
        None => true,
    }
}

// Whether all words are codes.
fn all_codes<F: Field>(cells: &[Option<u32>]) -> bool
    ensures { result ≡ list_all (is_code F.Field.arithmetic.order) cells.now }
{
    cells.iter().all(|cell| is_code::<F>(*cell))
}

// The words of the data bays, where each gave one.
fn data_words(cells: &[Option<u32>], data_bays: usize) -> Option<Words>
    requires room { data_bays ≤ length cells.now }
    requires few { data_bays ≤ most_data }
    ensures { MatchOption result ⊤ (λ words. DataWords data_bays cells.now words.items) }
{
    let mut words = Words::new();
    // By index: an early end leaves the other cells alone.
    for bay in 0..data_bays {
        words.push(cells[bay]?);
    }
    Some(words)
}

// Whether the cell of check `i` has no word but the one that the words of the data bays give.
fn check_holds<P: Plan>(plan: &P, i: usize, words: &[u32], cell: Option<u32>) -> bool
    ensures { result ≡ check_holds P.F.Field.arithmetic (P.Plan.coefficients plan.now) i words.now cell }
{
    match cell {
        Some(word) => word == check_word(plan, i, words),
        None => true,
    }
}

// Whether the cells of all checks hold.
fn all_checks_hold<P: Plan>(plan: &P, cells: &[Option<u32>], words: &[u32]) -> bool
    requires { length cells.now ≡ (P.Plan.coefficients plan.now).n + (P.Plan.coefficients plan.now).m }
    ensures { MatchBool result ((i : ℕ) → i < (P.Plan.coefficients plan.now).m → check_holds P.F.Field.arithmetic (P.Plan.coefficients plan.now) i words.now (word_at cells.now ((P.Plan.coefficients plan.now).n + i)) ≡ true) ((i : ℕ) × (i < (P.Plan.coefficients plan.now).m) × (check_holds P.F.Field.arithmetic (P.Plan.coefficients plan.now) i words.now (word_at cells.now ((P.Plan.coefficients plan.now).n + i)) ≡ false)) }
{
    let data_bays = plan.data_bays();
    // No index: a check is named by its number.
    for i in 0..plan.check_bays() {
        if !check_holds(plan, i, words, cells[data_bays + i]) {
            return false;
        }
    }
    true
}

// The rows of the bays that gave a word, each with its word.
fn equations_of<P: Plan>(plan: &P, cells: &[Option<u32>]) -> Equations
    requires { length cells.now ≤ most_bays }
    ensures { EquationsOf P.F.Field.arithmetic (P.Plan.coefficients plan.now) cells.now (length cells.now) result.items }
{
    let mut equations = Equations::new();
    for (bay, cell) in cells.iter().enumerate() {
        if let Some(word) = cell {
            equations.push(Equation {
                row: row(plan, bay),
                word: *word,
            });
        }
    }
    equations
}

// Whether some data vector gives all of the words. A word at or above the order is given by none. Where each data bay gave a word, these
// are the only vector that can.
pub(crate) fn are_given<P: Plan>(plan: &P, cells: &[Option<u32>]) -> bool
    requires { length cells.now ≡ (P.Plan.coefficients plan.now).n + (P.Plan.coefficients plan.now).m }
    ensures { MatchBool result (Given P.F.Field.arithmetic (P.Plan.coefficients plan.now) cells.now) (Given P.F.Field.arithmetic (P.Plan.coefficients plan.now) cells.now → ⊥) }
{
    if !all_codes::<P::F>(cells) {
        return false;
    }
    match data_words(cells, plan.data_bays()) {
        Some(words) => all_checks_hold(plan, cells, &words),
        None => agree::<P::F>(equations_of(plan, cells)),
    }
}
