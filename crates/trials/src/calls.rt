// The calls of a history.
use crate::piles::Pile;
use crate::seen::view;
use crate::trial::Trial;
use shelf::{LostCell, MOST_BAYS, Refusal, Shape, fetch, survey};

// How many turns a history has.
const TURNS: usize = 40;

// More cells than an array of a history has.
const CELLS: usize = 64;

// The most slots of a fetch.
const SLOTS: usize = 8;

// Stands in buffers before a call.
const NO_WORD: u32 = 1_000_000;

const NO_MARK: u8 = 99;

const NO_CELL: LostCell = LostCell { bay: 99, place: 99 };

// Makes the turns of a history.
pub fn make<P: Pile>(pile: P, trial: &mut Trial) -> P {
    let mut pile = pile;
    let shape = Shape::from(pile.shape());
    trial.tally.histories.note(
        shape.bays == trial.plan.data_bays
            && shape.places == trial.places
            && shape.limit == trial.plan.field.order(),
    );
    for _ in 0..TURNS {
        pile = turn(pile, trial);
    }
    for place in 0..trial.places {
        trial.judge_place(place, &view(&pile, place));
    }
    pile
}

// One turn.
fn turn<P: Pile>(pile: P, trial: &mut Trial) -> P {
    let mut pile = pile;
    match trial.generator.below(100) {
        0..=25 => read_one(&mut pile, trial),
        26..=43 => write_one(&mut pile, trial),
        44..=65 => lay_one(&mut pile, trial),
        66..=69 => fetch_some(&mut pile, trial),
        70..=72 => survey_some(&mut pile, trial),
        73..=95 => return pile.serviced(trial),
        _ => return pile.stopped(trial),
    }
    pile
}

fn read_one<P: Pile>(pile: &mut P, trial: &mut Trial) {
    let (bay, place) = (trial.index(trial.plan.data_bays), trial.index(trial.places));
    let before = view(pile, place);
    let answer = pile.read(bay, place);
    let after = view(pile, place);
    trial.judge_read(bay, place, &before, &after, answer);
}

fn write_one<P: Pile>(pile: &mut P, trial: &mut Trial) {
    let (bay, place) = (trial.index(trial.plan.data_bays), trial.index(trial.places));
    let word = trial.code();
    let before = view(pile, place);
    let answer = pile.write(bay, place, word);
    let after = view(pile, place);
    trial.judge_write(bay, place, word, &before, &after, answer);
}

fn lay_one<P: Pile>(pile: &mut P, trial: &mut Trial) {
    let place = trial.index(trial.places);
    let count = if trial.generator.chance(5) {
        trial.generator.index(MOST_BAYS)
    } else {
        trial.plan.data_bays.min(MOST_BAYS)
    };
    let mut words = [0u32; MOST_BAYS];
    for word in words.iter_mut() {
        *word = trial.code();
    }
    let words = &words[..count];
    let before = view(pile, place);
    let answer = pile.lay(place, words);
    let after = view(pile, place);
    trial.judge_lay(place, words, &before, &after, answer);
}

// What the cells below tell of a cell of the array now.
fn told_now<P: Pile>(pile: &P, trial: &Trial, bay: usize, place: usize) -> Option<u32> {
    view(pile, place).told(&trial.plan, bay)
}

// Whether the slot and the mark of a place are as they should be: a word of the book, or a lost one.
fn slot_agrees<P: Pile>(pile: &P, trial: &Trial, cell: LostCell, word: u32, mark: u8) -> bool {
    match mark {
        1 => trial.book.word(cell.bay, cell.place) == Some(word),
        0 => word == NO_WORD && told_now(pile, trial, cell.bay, cell.place).is_none(),
        _ => false,
    }
}

// Whether the slots of a run are, and those past it untouched.
fn slots_agree<P: Pile>(
    pile: &P,
    trial: &Trial,
    first: LostCell,
    count: usize,
    words: &[u32],
    marks: &[u8],
) -> bool {
    words.iter().zip(marks.iter()).enumerate().all(|(i, (word, mark))| {
        let (bay, place) = (first.bay, first.place.saturating_add(i));
        if i < count {
            slot_agrees(pile, trial, LostCell { bay, place }, *word, *mark)
        } else {
            *word == NO_WORD && *mark == NO_MARK
        }
    })
}

// What refuses a fetch into so many words and marks.
fn fetch_refusal(trial: &Trial, first: LostCell, words: usize, marks: usize) -> Option<Refusal> {
    if first.bay >= trial.plan.data_bays {
        Some(Refusal::NoSuchBay)
    } else if words != marks {
        Some(Refusal::WrongCount)
    } else {
        trial.run_refusal(first.place, words)
    }
}

fn fetch_some<P: Pile>(pile: &mut P, trial: &mut Trial) {
    let (bay, place) = (trial.index(trial.plan.data_bays), trial.index(trial.places));
    let first = LostCell { bay, place };
    let count = trial
        .generator
        .index(trial.places.saturating_add(1))
        .min(SLOTS);
    let marked = if trial.generator.chance(5) {
        count / 2
    } else {
        count
    };
    let (mut words, mut marks) = ([NO_WORD; SLOTS], [NO_MARK; SLOTS]);
    let answer = fetch(pile, bay, place, &mut words[..count], &mut marks[..marked]);
    let refusal = fetch_refusal(trial, first, count, marked);
    match answer {
        Ok(found) => {
            let ones = marks.iter().filter(|mark| **mark == 1).count();
            let slots = slots_agree(pile, trial, first, count, &words, &marks);
            trial
                .tally
                .fetched
                .note(refusal.is_none() && ones == found && slots);
        }
        Err(other) => {
            let untouched = slots_agree(pile, trial, first, 0, &words, &marks);
            trial
                .tally
                .refused
                .note(untouched && refusal == Some(other));
        }
    }
}

// How many cells of a run the cells below don't tell.
fn open_cells<P: Pile>(pile: &P, trial: &Trial, first: usize, count: usize) -> usize {
    let mut open = 0usize;
    for place in first..first.saturating_add(count) {
        let seen = view(pile, place);
        let lost = (0..trial.plan.data_bays).filter(|bay| seen.told(&trial.plan, *bay).is_none());
        open = open.saturating_add(lost.count());
    }
    open
}

// Whether the records are of lost cells of the run, each of another.
fn records_agree<P: Pile>(pile: &P, trial: &Trial, first: usize, list: &[LostCell]) -> bool {
    list.iter().enumerate().all(|(i, cell)| {
        let again = list.iter().take(i).any(|other| other == cell);
        let there = cell.bay < trial.plan.data_bays && cell.place >= first;
        there && !again && told_now(pile, trial, cell.bay, cell.place).is_none()
    })
}

// How long the list of a survey is: mostly long enough.
fn list_room(trial: &mut Trial) -> usize {
    if trial.generator.chance(20) {
        trial.generator.index(4)
    } else {
        CELLS
    }
}

fn survey_some<P: Pile>(pile: &mut P, trial: &mut Trial) {
    let (first, count) = (
        trial.index(trial.places),
        trial.generator.index(trial.places),
    );
    let room = list_room(trial).min(CELLS);
    let mut list = [NO_CELL; CELLS];
    let before = open_cells(pile, trial, first, count);
    let answer = survey(pile, first, count, &mut list[..room]);
    let after = open_cells(pile, trial, first, count);
    let refusal = trial.run_refusal(first, count);
    let listed = list
        .iter()
        .filter(|cell| **cell != NO_CELL)
        .count()
        .min(CELLS);
    let agreed = records_agree(pile, trial, first, &list[..listed]);
    match answer {
        Ok(found) => {
            let number = before <= found && found <= after && found == listed;
            trial
                .tally
                .surveyed
                .note(refusal.is_none() && number && agreed);
        }
        Err(Refusal::ListTooShort) => {
            let full = listed == room && room < after;
            trial
                .tally
                .too_short
                .note(refusal.is_none() && full && agreed);
        }
        Err(other) => trial
            .tally
            .refused
            .note(refusal == Some(other) && listed == 0),
    }
}
