ghost use Rattle.std.specs.Prelude.{◌≡◌, ◌+◌, ◌<◌, ⊤, length};
ghost use Rattle.shelf.specs.Table.{blank};
ghost use Rattle.array.specs.Finding.{adding, Gathers, Finds};

use linear::{Equation, Equations, told};
use plan::{Plan, row};
use shelf::{Refusal, Shelf};

// Adds the row of a bay with its word, where there is one.
fn add_word<P: Plan>(plan: &P, equations: &mut Equations, bay: usize, read: Result<u32, Refusal>)
    requires { length equations.old.items < 23 }
    ensures { equations.new.items ≡ adding (P.Plan.coefficients plan.now) bay read equations.old.items }
{
    if let Ok(word) = read {
        equations.push(Equation {
            row: row(plan, bay),
            word,
        });
    }
}

// Reads the cells of a place but for one bay, and gathers the words that come, each with the row of its bay.
fn held_words<S: Shelf, P: Plan>(below: &mut S, plan: &P, place: usize, without: usize) -> Equations
    ensures { Gathers S.Shelf.table S.Shelf.sound (P.Plan.coefficients plan.now) place without ((P.Plan.coefficients plan.now).n + (P.Plan.coefficients plan.now).m) below.old below.new result.items }
{
    let mut equations = Equations::new();
    // No index: a bay is named by its number.
    for bay in 0..plan.data_bays() + plan.check_bays() {
        if bay != without {
            let read = below.read(bay, place);
            add_word(plan, &mut equations, bay, read);
        }
    }
    equations
}

// The word of a bay whose cell is blank, as the other cells of the place tell it, or lost.
pub(crate) fn told_word<S: Shelf, P: Plan>(
    below: &mut S,
    plan: &P,
    bay: usize,
    place: usize,
) -> Result<u32, Refusal>
    ensures { Finds S.Shelf.table S.Shelf.sound P.F.Field.arithmetic (P.Plan.coefficients plan.now) bay place below.old below.new ((S.Shelf.table below.old).cell bay place ≡ blank) result }
{
    let equations = held_words(below, plan, place, bay);
    told::<P::F>(equations, row(plan, bay)).ok_or(Refusal::Lost)
}

// The word of a bay: the one in its cell, or where that gives none, the one that the other cells of the place tell, or lost.
pub(crate) fn find_word<S: Shelf, P: Plan>(
    below: &mut S,
    plan: &P,
    bay: usize,
    place: usize,
) -> Result<u32, Refusal>
    ensures { Finds S.Shelf.table S.Shelf.sound P.F.Field.arithmetic (P.Plan.coefficients plan.now) bay place below.old below.new ⊤ result }
{
    match below.read(bay, place) {
        Ok(word) => Ok(word),
        Err(_) => told_word(below, plan, bay, place),
    }
}
