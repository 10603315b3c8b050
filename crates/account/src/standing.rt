ghost use Rattle.std.specs.Prelude.{Some};
ghost use Rattle.account.specs.Standings.{standing_text};

use std::fmt;

// How an archive stands.
#[derive(Clone, Copy, Debug, PartialEq, Eq)]
pub enum Standing {
    // A bay below that runs, and how many of its cells are filled.
    Running { bay: usize, filled: u32 },
    // A bay of an archive below, and how many of its cells are filled.
    Filled { bay: usize, filled: u32 },
    // How many cells of the archive are told and lost, and how many of its places are torn.
    Cells { told: u32, lost: u32, torn: usize },
    // How many more cells would be lost with a bay below.
    Cost { bay: usize, cells: u32 },
    // A place that no vector agrees with.
    Torn { place: usize },
    // How many places were tested, and how many of them are torn.
    Verified { places: usize, torn: u32 },
}

// By hand: what a derive prints has no contract.
impl fmt::Display for Standing {
    ghost output = { λ e. Some (standing_text e) };

    fn fmt<W: fmt::Write>(&self, f: &mut fmt::Formatter<W>) -> fmt::Result {
        match *self {
            Standing::Running { bay, filled } => write!(f, "bay {bay}: running, filled {filled}"),
            Standing::Filled { bay, filled } => write!(f, "bay {bay}: filled {filled}"),
            Standing::Cells { told, lost, torn } => write!(
                f,
                "cells: told {told}, lost {lost}; torn places {torn}"
            ),
            Standing::Cost { bay, cells } => write!(
                f,
                "the loss of bay {bay} would cost {cells} cells"
            ),
            Standing::Torn { place } => write!(f, "place {place}: torn, its words disagree"),
            Standing::Verified { places, torn } => write!(
                f,
                "verified places {places}, torn {torn}"
            ),
        }
    }
}
