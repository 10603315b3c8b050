// How often each answer came, and how often it was not what the plain computation says.
use std::io;

#[derive(Clone, Copy)]
pub struct Kind {
    all: u64,
    wrong: u64,
}

const NONE: Kind = Kind { all: 0, wrong: 0 };

impl Kind {
    // One more, which agreed with the plain computation or not.
    pub fn note(&mut self, agreed: bool) {
        self.all = self.all.saturating_add(1);
        if !agreed {
            self.wrong = self.wrong.saturating_add(1);
        }
    }

    // Answers that were compared elsewhere.
    pub fn add(&mut self, all: u32, wrong: u32) {
        self.all = self.all.saturating_add(u64::from(all));
        self.wrong = self.wrong.saturating_add(u64::from(wrong));
    }
}

// By the answers of the calls.
#[derive(Clone, Copy)]
pub struct Tally {
    pub histories: Kind,
    pub refused: Kind,
    pub read_words: Kind,
    pub read_lost: Kind,
    pub kept: Kind,
    pub write_lost: Kind,
    pub laid: Kind,
    pub whole: Kind,
    pub patched: Kind,
    pub mend_lost: Kind,
    pub mend_stopped: Kind,
    pub exchanged: Kind,
    pub swept: Kind,
    pub fetched: Kind,
    pub surveyed: Kind,
    pub too_short: Kind,
    // Places looked at after a call: what their words tell is in the book.
    pub places: Kind,
    // The calls that the drills counted, each beside its plain account.
    pub below: Kind,
    // Histories at whose end the devices hold what the plain accounts say.
    pub devices: Kind,
    // The same eliminations by trying every vector.
    pub tried: Kind,
}

impl Tally {
    pub fn new() -> Tally {
        Tally {
            histories: NONE,
            refused: NONE,
            read_words: NONE,
            read_lost: NONE,
            kept: NONE,
            write_lost: NONE,
            laid: NONE,
            whole: NONE,
            patched: NONE,
            mend_lost: NONE,
            mend_stopped: NONE,
            exchanged: NONE,
            swept: NONE,
            fetched: NONE,
            surveyed: NONE,
            too_short: NONE,
            places: NONE,
            below: NONE,
            devices: NONE,
            tried: NONE,
        }
    }

    // Each with its name.
    fn named(&self) -> [(&'static str, Kind); 20] {
        [
            ("histories", self.histories),
            ("calls refused by 1 to 4", self.refused),
            ("reads with a word", self.read_words),
            ("lost reads", self.read_lost),
            ("kept writes", self.kept),
            ("lost writes", self.write_lost),
            ("lays", self.laid),
            ("mends of whole cells", self.whole),
            ("mends that patched", self.patched),
            ("lost mends", self.mend_lost),
            ("mends of stopped bays", self.mend_stopped),
            ("exchanges", self.exchanged),
            ("sweeps", self.swept),
            ("fetches", self.fetched),
            ("surveys", self.surveyed),
            ("surveys of too short a list", self.too_short),
            ("places after a call", self.places),
            ("calls of the drills", self.below),
            ("ends of histories", self.devices),
            ("verdicts by all vectors", self.tried),
        ]
    }

    // How many disagreed in all.
    pub fn wrong(&self) -> u64 {
        self.named()
            .iter()
            .map(|(_, kind)| kind.wrong)
            .fold(0, u64::saturating_add)
    }

    // Prints them.
    pub fn print(&self, rt: &HostRuntime) -> io::Result<()> {
        for (name, kind) in self.named().iter() {
            let (all, wrong) = (kind.all, kind.wrong);
            println!(rt; "{name}: {all}, disagreed {wrong}")?;
        }
        Ok(())
    }
}
