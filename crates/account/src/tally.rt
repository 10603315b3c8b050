// What the mends of a sweep answered, counted.
ghost use Rattle.std.specs.Prelude.{◌≡◌};
ghost use Rattle.account.specs.Tallies.{Counts, with_number};

// How many cells were whole, how many were mended, and how many could not be, since they are lost or their bay is stopped.
#[derive(Clone, Copy, Debug, PartialEq, Eq)]
pub struct Tally {
    pub whole: usize,
    pub mended: usize,
    pub lost: usize,
    pub stopped: usize,
}

impl Tally {
    // Nothing is counted yet.
    pub fn new() -> Tally
        ensures { result ≡ record { whole = 0; mended = 0; lost = 0; stopped = 0 } }
    {
        Tally {
            whole: 0,
            mended: 0,
            lost: 0,
            stopped: 0,
        }
    }

    // The same with these answers of mends, as their numbers.
    pub fn and(self, answers: &[u8]) -> Tally
        ensures { Counts self answers.now result }
    {
        Tally {
            whole: self.whole.saturating_add(with_number(answers, 0)),
            mended: self.mended.saturating_add(with_number(answers, 1)),
            lost: self.lost.saturating_add(with_number(answers, 5)),
            stopped: self.stopped.saturating_add(with_number(answers, 6)),
        }
    }
}

// How many of the answers have this number.
fn with_number(answers: &[u8], number: u8) -> usize
    ensures { result ≡ with_number number answers.now }
{
    answers.iter().filter(|answer| **answer == number).count()
}
