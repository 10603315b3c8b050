// Mends, exchanges and sweeps of an array over a drill.
use crate::plain_fields::Known;
use crate::plain_plan::PlainPlan;
use crate::seen::{Flat, view};
use crate::trial::Trial;
use crate::view::View;
use array::Mending;
use shelf::{Refusal, Serviceable};

// The most places of a history, and some more.
const BYTES: usize = 8;

// What the bytes of a sweep hold before it.
const UNTOUCHED: u8 = 99;

// One call of service. Where the array is the one on top, its book says what a mend puts in a cell.
pub fn serve<S: Serviceable, F: Known>(flat: &mut Flat<S, F>, trial: &mut Trial, on_top: bool) {
    match trial.generator.below(10) {
        0..=5 => mend(flat, trial, on_top),
        6..=7 => sweep(flat, trial),
        _ => exchange(flat, trial),
    }
}

// Mends a cell.
fn mend<S: Serviceable, F: Known>(flat: &mut Flat<S, F>, trial: &mut Trial, on_top: bool) {
    let plan = flat.below().account.plan();
    let (bay, place) = (trial.index(plan.bays()), trial.index(trial.places));
    let before = view(flat, place);
    let answer = flat.mend(bay, place);
    let after = view(flat, place);
    let refusal = trial.cell_refusal(plan.bays(), bay, place);
    match answer {
        Ok(Mending::Whole) => {
            let found = refusal.is_none() && before.cell(bay).is_some();
            let kept = after.follows(&before, &before.cells, None);
            trial.tally.whole.note(found && kept);
        }
        Ok(Mending::Patched) => {
            let booked = !on_top || by_book(trial, &plan, bay, place, &after);
            let put = was_put(&plan, bay, &before, &after);
            trial.tally.patched.note(refusal.is_none() && put && booked);
        }
        Err(Refusal::Lost) => {
            let open = after.told(&plan, bay).is_none();
            let kept = after.follows(&before, &before.cells, None);
            trial
                .tally
                .mend_lost
                .note(refusal.is_none() && open && kept);
        }
        Err(Refusal::Stopped) => {
            let stopped = !after.runs(bay) && after.cell(bay).is_none();
            let kept = after.follows(&before, &before.cells, None);
            trial
                .tally
                .mend_stopped
                .note(refusal.is_none() && stopped && kept);
        }
        Err(other) => trial.judge_refusal(refusal, other, &before, &after),
    }
}

// Whether a mend put in the cell the word that the cells before it told, and left the others.
fn was_put(plan: &PlainPlan, bay: usize, before: &View, after: &View) -> bool {
    let told = before.told(plan, bay);
    let mut made = before.cells;
    if let Some(cell) = made.get_mut(bay) {
        *cell = told;
    }
    told.is_some() && after.cell(bay) == told && after.follows(before, &made, None)
}

// Whether the cell of a bay below holds what its row gives on the words of the book, where they are all there.
fn by_book(trial: &Trial, plan: &PlainPlan, bay: usize, place: usize, after: &View) -> bool {
    match plan.word_on(bay, trial.book.place(place)) {
        Some(word) => after.cell(bay) == Some(word),
        None => true,
    }
}

// Puts a fresh device in a bay.
fn exchange<S: Serviceable, F: Known>(flat: &mut Flat<S, F>, trial: &mut Trial) {
    let plan = flat.below().account.plan();
    let (bay, place) = (
        trial.index(plan.bays()),
        trial.generator.index(trial.places),
    );
    let before = view(flat, place);
    let answer = flat.exchange(bay);
    let after = view(flat, place);
    let refusal = trial.cell_refusal(plan.bays(), bay, 0);
    match answer {
        Ok(()) => {
            let mut made = before.cells;
            if let Some(cell) = made.get_mut(bay) {
                *cell = None;
            }
            let fresh = refusal.is_none() && after.runs(bay) && after.cell(bay).is_none();
            let kept = after.follows(&before, &made, Some(bay));
            trial.tally.exchanged.note(fresh && kept);
        }
        Err(other) => trial.judge_refusal(refusal, other, &before, &after),
    }
}

// Mends a bay over a run of places.
fn sweep<S: Serviceable, F: Known>(flat: &mut Flat<S, F>, trial: &mut Trial) {
    let plan = flat.below().account.plan();
    let (bay, first) = (
        trial.index(plan.bays()),
        trial.generator.index(trial.places),
    );
    let count = trial
        .index(trial.places.saturating_sub(first).saturating_add(1))
        .min(BYTES);
    let before: [View; BYTES] = std::array::from_fn(|i| view(flat, first.saturating_add(i)));
    let mut bytes = [UNTOUCHED; BYTES];
    let answer = flat.sweep(bay, first, &mut bytes[..count]);
    let refusal = trial
        .cell_refusal(plan.bays(), bay, 0)
        .or(trial.run_refusal(first, count));
    match answer {
        Ok(()) => {
            let mut agreed = refusal.is_none();
            for (i, (byte, before)) in bytes.iter().zip(before.iter()).enumerate() {
                let after = view(flat, first.saturating_add(i));
                agreed = agreed && byte_agrees(&plan, bay, i < count, *byte, before, &after);
            }
            trial.tally.swept.note(agreed);
        }
        Err(other) => {
            let untouched = bytes.iter().all(|byte| *byte == UNTOUCHED);
            trial
                .tally
                .refused
                .note(untouched && refusal == Some(other));
        }
    }
}

// Whether the byte of a place is that of a mend of its cell: 0, 1, 5 or 6 in the run, and untouched past it.
fn byte_agrees(
    plan: &PlainPlan,
    bay: usize,
    in_run: bool,
    byte: u8,
    before: &View,
    after: &View,
) -> bool {
    let mut made = before.cells;
    if byte == 1 {
        if let Some(cell) = made.get_mut(bay) {
            *cell = before.told(plan, bay);
        }
    }
    let agreed = match byte {
        0 => before.cell(bay).is_some(),
        1 => before.told(plan, bay).is_some(),
        5 => after.told(plan, bay).is_none(),
        6 => !after.runs(bay) && after.cell(bay).is_none(),
        _ => byte == UNTOUCHED,
    };
    agreed && in_run == (byte != UNTOUCHED) && after.follows(before, &made, None)
}
