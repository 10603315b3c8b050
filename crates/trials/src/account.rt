// A plain account of a drill over devices of one bay each: the words in its devices, its events, and how many calls it counted. It is told
// each call and its answer, and compares the answer with what it finds itself.
use crate::elimination::{Cells, Lines};
use crate::plain_plan::PlainPlan;
use shelf::Refusal;
use std::alloc::{AllocError, Global};

// The most events of a drill.
const MOST_STOPS: usize = 16;

// An event of the drill.
#[derive(Clone, Copy)]
struct Stop {
    call: u32,
    bay: usize,
    spent: bool,
}

// The place of an event that is not planned yet has one that is spent.
const NO_STOP: Stop = Stop {
    call: 0,
    bay: 0,
    spent: true,
};

#[derive(Drop)]
pub struct Account {
    // The plan of the array over the drill.
    plan: PlainPlan,
    places: usize,
    limit: u32,
    // Place by place, and at each place bay by bay. A stopped bay keeps its words.
    words: Vec<Option<u32>>,
    stops: [Stop; MOST_STOPS],
    planned: usize,
    calls: u32,
    wrong: u32,
}

impl Account {
    // Of devices whose places are all blank.
    pub fn new(
        heap: Global,
        plan: PlainPlan,
        places: usize,
        limit: u32,
    ) -> Result<Account, AllocError> {
        let cells = plan.bays().saturating_mul(places);
        Ok(Account {
            plan,
            places,
            limit,
            words: vec![in heap; None; cells]?,
            stops: [NO_STOP; MOST_STOPS],
            planned: 0,
            calls: 0,
            wrong: 0,
        })
    }

    pub fn plan(&self) -> PlainPlan {
        self.plan
    }

    pub fn places(&self) -> usize {
        self.places
    }

    pub fn limit(&self) -> u32 {
        self.limit
    }

    // How many calls were counted.
    pub fn calls(&self) -> u32 {
        self.calls
    }

    // How many answers were not what the account found.
    pub fn wrong(&self) -> u32 {
        self.wrong
    }

    fn index(&self, bay: usize, place: usize) -> usize {
        place.saturating_mul(self.plan.bays()).saturating_add(bay)
    }

    // The word in a device, stopped or not.
    pub fn stored(&self, bay: usize, place: usize) -> Option<u32> {
        if bay < self.plan.bays() {
            self.words.get(self.index(bay, place)).copied().flatten()
        } else {
            None
        }
    }

    fn store(&mut self, bay: usize, place: usize, word: Option<u32>) {
        let index = self.index(bay, place);
        if let Some(stored) = self.words.get_mut(index) {
            *stored = word;
        }
    }

    // Whether no event stops the bay.
    pub fn runs(&self, bay: usize) -> bool {
        !self.stops.iter().any(|stop| stop.bay == bay && !stop.spent && stop.call <= self.calls)
    }

    // The word of a cell.
    pub fn cell(&self, bay: usize, place: usize) -> Option<u32> {
        if self.runs(bay) {
            self.stored(bay, place)
        } else {
            None
        }
    }

    // The cells of a place.
    pub fn cells(&self, place: usize) -> Cells {
        std::array::from_fn(|bay| self.cell(bay, place))
    }

    // The word of a bay of the array at a place, as the cells tell it.
    pub fn told(&self, bay: usize, place: usize) -> Option<u32> {
        if bay >= self.plan.data_bays {
            return None;
        }
        Lines::of(&self.plan, &self.cells(place)).told(self.plan.row(bay))
    }

    // Whether the running bays tell the row of a bay of the array.
    pub fn tells(&self, bay: usize) -> bool {
        let zeros: Cells = std::array::from_fn(|b| if self.is_up(b) { Some(0) } else { None });
        let row = self.plan.row(bay);
        bay < self.plan.data_bays && Lines::of(&self.plan, &zeros).told(row).is_some()
    }

    // Whether there is such a bay, and it runs.
    pub fn is_up(&self, bay: usize) -> bool {
        bay < self.plan.bays() && self.runs(bay)
    }

    // How many bays run.
    pub fn running(&self) -> usize {
        (0..self.plan.bays()).filter(|bay| self.runs(*bay)).count()
    }

    // What refuses a call by a bay and a place.
    fn refusal(&self, bay: usize, place: usize) -> Option<Refusal> {
        if bay >= self.plan.bays() {
            Some(Refusal::NoSuchBay)
        } else if place >= self.places {
            Some(Refusal::NoSuchPlace)
        } else {
            None
        }
    }

    // The same of a call that sets a word.
    fn word_refusal(&self, bay: usize, place: usize, word: u32) -> Option<Refusal> {
        match self.refusal(bay, place) {
            None if word >= self.limit => Some(Refusal::WordOutOfRange),
            refusal => refusal,
        }
    }

    fn compare(&mut self, same: bool) {
        if !same {
            self.wrong = self.wrong.saturating_add(1);
        }
    }

    // An event that was planned, or refused. The drill takes 16.
    pub fn stop(&mut self, call: u32, bay: usize, taken: bool) {
        let planned = self.planned;
        self.compare(taken == (planned < MOST_STOPS));
        if let Some(slot) = self.stops.get_mut(planned) {
            let spent = false;
            *slot = Stop { call, bay, spent };
            self.planned = planned.saturating_add(1);
        }
    }

    pub fn read(&mut self, bay: usize, place: usize, answer: Result<u32, Refusal>) {
        let refusal = self.refusal(bay, place);
        if refusal.is_none() {
            self.calls = self.calls.saturating_add(1);
        }
        let found = match refusal {
            None => self.cell(bay, place).ok_or(Refusal::Lost),
            Some(refusal) => Err(refusal),
        };
        self.compare(answer == found);
    }

    // A write, or a patch, which sets a blank cell too.
    pub fn set(
        &mut self,
        bay: usize,
        place: usize,
        word: u32,
        blank_too: bool,
        answer: Result<(), Refusal>,
    ) {
        if let Some(refusal) = self.word_refusal(bay, place, word) {
            return self.compare(answer == Err(refusal));
        }
        self.calls = self.calls.saturating_add(1);
        if self.runs(bay) && (blank_too || self.stored(bay, place).is_some()) {
            self.store(bay, place, Some(word));
            self.compare(answer == Ok(()));
        } else {
            self.compare(answer == Err(Refusal::Lost));
        }
    }

    fn lay_refusal(&self, place: usize, words: &[u32]) -> Option<Refusal> {
        if place >= self.places {
            Some(Refusal::NoSuchPlace)
        } else if words.len() != self.plan.bays() {
            Some(Refusal::WrongCount)
        } else if words.iter().any(|word| *word >= self.limit) {
            Some(Refusal::WordOutOfRange)
        } else {
            None
        }
    }

    pub fn lay(&mut self, place: usize, words: &[u32], answer: Result<u32, Refusal>) {
        if let Some(refusal) = self.lay_refusal(place, words) {
            return self.compare(answer == Err(refusal));
        }
        self.calls = self.calls.saturating_add(1);
        let mut bits = 0;
        for (bay, word) in words.iter().enumerate() {
            // What a stopped bay stores can't be told: its words are gone before it runs again.
            self.store(bay, place, Some(*word));
            if self.runs(bay) && bay < 23 {
                bits |= 1 << bay;
            }
        }
        self.compare(answer == Ok(bits));
    }

    pub fn exchange(&mut self, bay: usize, answer: Result<(), Refusal>) {
        if let Some(refusal) = self.refusal(bay, 0) {
            return self.compare(answer == Err(refusal));
        }
        let calls = self.calls;
        for stop in self.stops.iter_mut() {
            if stop.bay == bay && stop.call <= calls {
                stop.spent = true;
            }
        }
        for place in 0..self.places {
            self.store(bay, place, None);
        }
        self.compare(answer == Ok(()));
    }
}
