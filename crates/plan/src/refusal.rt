ghost use Rattle.std.specs.Prelude.{◌≡◌, Some};
ghost use Rattle.plan.specs.Refusals.{number, wording};

use std::fmt;

// Why a plan is not made. Each refusal has a number.
#[derive(Clone, Copy, PartialEq, Eq, Debug)]
pub enum Refusal {
    // There are not 1 to 15 data bays and 1 to 8 check bays, or more check bays than data bays in a plan of groups.
    BaysOutOfRange,
    // The table of a written plan has not 15 codes for each check bay.
    TableLength,
}

impl Refusal {
    pub fn number(self) -> u32
        ensures { result ≡ number self }
    {
        match self {
            Refusal::BaysOutOfRange => 14,
            Refusal::TableLength => 15,
        }
    }

    pub fn words(self) -> &'static str
        ensures { result.now ≡ wording self }
    {
        match self {
            Refusal::BaysOutOfRange => {
                "a plan has 1 to 15 data bays and 1 to 8 check bays, and one of groups no more check bays than data bays"
            }
            Refusal::TableLength => "a written plan has a table of 15 codes for each check bay",
        }
    }
}

// By hand: what a derive prints has no contract, and the words of a refusal are promised.
impl fmt::Display for Refusal {
    ghost output = { λ e. Some (wording e) };

    fn fmt<W: fmt::Write>(&self, f: &mut fmt::Formatter<W>) -> fmt::Result {
        f.write_str(self.words())
    }
}
