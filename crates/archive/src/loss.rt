ghost use Rattle.std.specs.Prelude.{◌≡◌, cond, not, Some};
ghost use Rattle.shelf.specs.Calls.{bit};
ghost use Rattle.archive.specs.Texts.{data_bays, listing, loss_text};

use shelf::bit;
use std::fmt;

// What the bays that are left still tell where some bays of a plan are lost.
#[derive(Drop)]
pub struct Loss {
    // The bays that are lost.
    pub lost: Vec<u32>,
    pub data_bays: usize,
    // Bit b is set just where the words of the bays that are left tell the word of bay b.
    pub told: u32,
}

// The data bays that are told, or those that are not, with blanks between them; `none` where there is none.
#[derive(Clone, Copy)]
struct DataBays<'a> {
    loss: &'a Loss,
    told: bool,
}

impl DataBays<'_> {
    // Whether a bay is one of them.
    fn holds(&self, bay: usize) -> bool
        ensures { result ≡ cond self.entry.now.told (bit self.entry.now.loss.now.told bay) (not (bit self.entry.now.loss.now.told bay)) }
    {
        bit(self.loss.told, bay) == self.told
    }
}

impl fmt::Display for DataBays<'_> {
    ghost output = { λ d. Some (listing (data_bays d.told d.loss.now)) };

    #[tactic(auto, using(crate::proofs::Listing::listed_more, crate::proofs::Listing::none_more, crate::proofs::Listing::listed_all))]
    fn fmt<W: fmt::Write>(&self, f: &mut fmt::Formatter<W>) -> fmt::Result {
        let mut first = true;
        for bay in 0..self.loss.data_bays {
            if self.holds(bay) {
                if !first {
                    f.write_str(" ")?;
                }
                write!(f, "{bay}")?;
                first = false;
            }
        }
        if first { f.write_str("none") } else { Ok(()) }
    }
}

// By hand, here and below: what a derive prints has no contract.
impl fmt::Display for Loss {
    ghost output = { λ l. Some (loss_text l) };

    fn fmt<W: fmt::Write>(&self, f: &mut fmt::Formatter<W>) -> fmt::Result {
        let told = DataBays {
            loss: self,
            told: true,
        };
        let open = DataBays {
            loss: self,
            told: false,
        };
        write!(f, "data bays told {told}, not told {open}")
    }
}
