ghost use Rattle.std.specs.Prelude.{Some};
ghost use Rattle.account.specs.Changes.{change_text};

use std::fmt;

// What a command changed.
#[derive(Clone, Copy, Debug, PartialEq, Eq)]
pub enum Change {
    // A blank image was written for each bay.
    Created {
        bays: usize,
        places: u32,
    },
    // So many places were laid; at some of them not every cell can be read back.
    Laid {
        places: u32,
        short: u32,
    },
    // A word was written in a cell.
    Written {
        bay: usize,
        place: usize,
        word: u32,
    },
    // A fresh device is in a bay below.
    Exchanged {
        bay: usize,
    },
    // What the mends of a sweep answered, counted.
    Swept {
        bay: usize,
        whole: usize,
        mended: usize,
        lost: usize,
        stopped: usize,
    },
    // How many images were written.
    Images {
        written: usize,
    },
    // A file was put over so many places.
    Put {
        bytes: usize,
        places: usize,
    },
}

// By hand: what a derive prints has no contract.
impl fmt::Display for Change {
    ghost output = { λ e. Some (change_text e) };

    fn fmt<W: fmt::Write>(&self, f: &mut fmt::Formatter<W>) -> fmt::Result {
        match *self {
            Change::Created { bays, places } => write!(
                f,
                "created {bays} blank images of {places} places"
            ),
            Change::Laid { places, short } => write!(
                f,
                "laid places {places}, with cells that can't be read back {short}"
            ),
            Change::Written { bay, place, word } => write!(
                f,
                "bay {bay} place {place}: written {word}"
            ),
            Change::Exchanged { bay } => write!(f, "bay {bay}: exchanged"),
            Change::Swept {
                bay,
                whole,
                mended,
                lost,
                stopped,
            } => write!(
                f,
                "bay {bay}: whole {whole}, mended {mended}, lost {lost}, stopped {stopped}"
            ),
            Change::Images { written } => write!(f, "images written {written}"),
            Change::Put { bytes, places } => write!(f, "put {bytes} bytes over {places} places"),
        }
    }
}
