ghost use Rattle.layers.specs.Drills.{drill_table, HeldOrder, Masked};

use crate::account::Account;
use layers::Drill;
use shelf::{Refusal, Serviceable, Shelf};

// A drill beside its plain account, which is told each call.
#[derive(Drop)]
pub struct Watched<S> {
    pub drill: Drill<S>,
    pub account: Account,
}

// What it means is what the drill means.
impl<S: Shelf> Shelf for Watched<S> {
    ghost table = { λ w. drill_table S.Shelf.table w.drill };

    ghost sound = { λ w. HeldOrder S.Shelf.sound w.drill };

    ghost lay_bits = { λ w after. Masked S.Shelf.table S.Shelf.sound S.Shelf.lay_bits w.drill after.drill };

    fn shape(&self) -> (usize, usize, u32) {
        self.drill.shape()
    }

    fn read(&mut self, bay: usize, place: usize) -> Result<u32, Refusal> {
        let answer = self.drill.read(bay, place);
        self.account.read(bay, place, answer);
        answer
    }

    fn write(&mut self, bay: usize, place: usize, word: u32) -> Result<(), Refusal> {
        let answer = self.drill.write(bay, place, word);
        self.account.set(bay, place, word, false, answer);
        answer
    }

    fn lay(&mut self, place: usize, words: &[u32]) -> Result<u32, Refusal> {
        let answer = self.drill.lay(place, words);
        self.account.lay(place, words, answer);
        answer
    }
}

impl<S: Serviceable> Serviceable for Watched<S> {
    fn patch(&mut self, bay: usize, place: usize, word: u32) -> Result<(), Refusal> {
        let answer = self.drill.patch(bay, place, word);
        self.account.set(bay, place, word, true, answer);
        answer
    }

    fn exchange(&mut self, bay: usize) -> Result<(), Refusal> {
        let answer = self.drill.exchange(bay);
        self.account.exchange(bay, answer);
        answer
    }
}
