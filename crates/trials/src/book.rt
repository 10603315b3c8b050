// The plain book: for each bay and place of an array the word that the calls so far say it has, or none.
use std::alloc::{AllocError, Global};

#[derive(Drop)]
pub struct PlainBook {
    bays: usize,
    // Place by place, and at each place bay by bay.
    words: Vec<Option<u32>>,
}

impl PlainBook {
    // At first there is no word.
    pub fn new(heap: Global, bays: usize, places: usize) -> Result<PlainBook, AllocError> {
        Ok(PlainBook {
            bays,
            words: vec![in heap; None; bays.saturating_mul(places)]?,
        })
    }

    fn index(&self, bay: usize, place: usize) -> usize {
        place.saturating_mul(self.bays).saturating_add(bay)
    }

    // The word of a cell of the array.
    pub fn word(&self, bay: usize, place: usize) -> Option<u32> {
        self.words.get(self.index(bay, place)).copied().flatten()
    }

    // The words of a place.
    pub fn place(&self, place: usize) -> &[Option<u32>] {
        let first = self.index(0, place);
        let end = first.saturating_add(self.bays);
        match self.words.get(first..end) {
            Some(words) => words,
            None => &[],
        }
    }

    pub fn put(&mut self, bay: usize, place: usize, word: Option<u32>) {
        let index = self.index(bay, place);
        if let Some(slot) = self.words.get_mut(index) {
            *slot = word;
        }
    }

    // Enters the words of a lay.
    pub fn put_all(&mut self, place: usize, words: &[u32]) {
        for (bay, word) in words.iter().enumerate() {
            self.put(bay, place, Some(*word));
        }
    }
}
