// A history under trial, and what its answers are compared with.
use crate::book::PlainBook;
use crate::elimination::Lines;
use crate::generator::Generator;
use crate::plain_fields::FieldKind;
use crate::plain_plan::PlainPlan;
use crate::tally::Tally;
use crate::vectors::told_by_vectors;
use crate::view::View;
use shelf::{Refusal, bit};

#[derive(Drop)]
pub struct Trial {
    pub generator: Generator,
    // Of the array on top.
    pub plan: PlainPlan,
    pub places: usize,
    pub book: PlainBook,
    pub tally: Tally,
}

impl Trial {
    // A number that is mostly below the limit.
    pub fn index(&mut self, limit: usize) -> usize {
        if self.generator.chance(3) {
            limit.saturating_add(self.generator.index(3))
        } else {
            self.generator.index(limit)
        }
    }

    // A code that is mostly one of the field.
    pub fn code(&mut self) -> u32 {
        let order = self.plan.field.order();
        if self.generator.chance(2) {
            order.saturating_add(self.generator.below(3))
        } else {
            self.generator.below(order)
        }
    }

    // What refuses a read of so many bays, if anything does.
    pub fn cell_refusal(&self, bays: usize, bay: usize, place: usize) -> Option<Refusal> {
        if bay >= bays {
            Some(Refusal::NoSuchBay)
        } else if place >= self.places {
            Some(Refusal::NoSuchPlace)
        } else {
            None
        }
    }

    // The same of a write.
    fn word_refusal(&self, bay: usize, place: usize, word: u32) -> Option<Refusal> {
        match self.cell_refusal(self.plan.data_bays, bay, place) {
            None if word >= self.plan.field.order() => Some(Refusal::WordOutOfRange),
            refusal => refusal,
        }
    }

    // The same of a lay.
    fn lay_refusal(&self, place: usize, words: &[u32]) -> Option<Refusal> {
        let order = self.plan.field.order();
        if place >= self.places {
            Some(Refusal::NoSuchPlace)
        } else if words.len() != self.plan.data_bays {
            Some(Refusal::WrongCount)
        } else if words.iter().any(|word| *word >= order) {
            Some(Refusal::WordOutOfRange)
        } else {
            None
        }
    }

    // The same of a run.
    pub fn run_refusal(&self, first: usize, count: usize) -> Option<Refusal> {
        if first.saturating_add(count) > self.places {
            Some(Refusal::NoSuchPlace)
        } else {
            None
        }
    }

    pub fn judge_read(
        &mut self,
        bay: usize,
        place: usize,
        before: &View,
        after: &View,
        answer: Result<u32, Refusal>,
    ) {
        let let_through = self.cell_refusal(self.plan.data_bays, bay, place).is_none();
        let kept = let_through && after.follows(before, &before.cells, None);
        match answer {
            Ok(word) => {
                let told = before.told(&self.plan, bay) == Some(word);
                let booked = self.book.word(bay, place) == Some(word);
                self.tally.read_words.note(kept && told && booked);
            }
            Err(Refusal::Lost) => {
                let open = after.told(&self.plan, bay).is_none();
                self.tally.read_lost.note(kept && open);
            }
            Err(refusal) => {
                let expected = self.cell_refusal(self.plan.data_bays, bay, place);
                self.judge_refusal(expected, refusal, before, after);
            }
        }
        self.judge_place(place, after);
    }

    // A refusal comes just where the arguments say so, and changes nothing.
    pub fn judge_refusal(
        &mut self,
        expected: Option<Refusal>,
        refusal: Refusal,
        before: &View,
        after: &View,
    ) {
        let agreed = expected == Some(refusal) && before.is_same(after);
        self.tally.refused.note(agreed);
    }

    // Whether the cells are those that a write of the word over the old one makes.
    fn wrote(&self, bay: usize, old: u32, word: u32, before: &View, after: &View) -> bool {
        let field = self.plan.field;
        let moved = field.difference(word, old);
        let made = std::array::from_fn(|b| {
            let by = field.product(self.plan.entry(b, bay), moved);
            before.cell(b).map(|code| field.sum(code, by))
        });
        after.follows(before, &made, None)
    }

    pub fn judge_write(
        &mut self,
        bay: usize,
        place: usize,
        word: u32,
        before: &View,
        after: &View,
        answer: Result<(), Refusal>,
    ) {
        let refusal = self.word_refusal(bay, place, word);
        match answer {
            Ok(()) => {
                let wrote = match before.told(&self.plan, bay) {
                    Some(old) => self.wrote(bay, old, word, before, after),
                    None => false,
                };
                self.tally.kept.note(refusal.is_none() && wrote);
                self.book.put(bay, place, Some(word));
            }
            Err(Refusal::Lost) => {
                let open = after.told(&self.plan, bay).is_none();
                let kept = after.follows(before, &before.cells, None);
                self.tally
                    .write_lost
                    .note(refusal.is_none() && open && kept);
                self.book.put(bay, place, None);
            }
            Err(other) => self.judge_refusal(refusal, other, before, after),
        }
        self.judge_place(place, after);
    }

    // Whether the bits are those of the bays that the cells tell.
    fn are_told(&self, bits: u32, after: &View) -> bool {
        let lines = Lines::of(&self.plan, &after.cells);
        (0..32usize).all(|bay| {
            let told = bay < self.plan.data_bays && lines.told(self.plan.row(bay)).is_some();
            told == bit(bits, bay)
        })
    }

    pub fn judge_lay(
        &mut self,
        place: usize,
        words: &[u32],
        before: &View,
        after: &View,
        answer: Result<u32, Refusal>,
    ) {
        let refusal = self.lay_refusal(place, words);
        match answer {
            Ok(bits) => {
                if refusal.is_none() {
                    self.book.put_all(place, words);
                }
                let all = self.book.place(place);
                let bays = self.plan.bays();
                let made = std::array::from_fn(|bay| {
                    if bay < bays {
                        self.plan.word_on(bay, all)
                    } else {
                        None
                    }
                });
                let laid = after.follows(before, &made, None) && self.are_told(bits, after);
                self.tally.laid.note(refusal.is_none() && laid);
            }
            Err(other) => self.judge_refusal(refusal, other, before, after),
        }
        self.judge_place(place, after);
    }

    // Whatever the cells of a place tell is in the book, and some vector agrees with them.
    pub fn judge_place(&mut self, place: usize, view: &View) {
        let lines = Lines::of(&self.plan, &view.cells);
        let booked = (0..self.plan.data_bays).all(|bay| {
            let told = lines.told(self.plan.row(bay));
            told.is_none() || told == self.book.word(bay, place)
        });
        self.tally.places.note(lines.agree() && booked);
        self.try_vectors(&lines, view);
    }

    // In the nibble field, where there are few vectors, whether all that agree with the cells give what the lines tell.
    fn try_vectors(&mut self, lines: &Lines, view: &View) {
        let some = self.plan.field == FieldKind::Nibble
            && (self.plan.data_bays <= 2 || self.plan.data_bays == 3 && self.generator.chance(5));
        if some {
            let bay = self.generator.index(self.plan.data_bays);
            let by_lines = lines.told(self.plan.row(bay));
            let by_vectors = told_by_vectors(&self.plan, &view.cells, bay);
            self.tally.tried.note(by_vectors == by_lines);
        }
    }
}
