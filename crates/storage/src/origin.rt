// Where the parts of an archive came from, and what is known of them.
use disk::ImageFault;
use std::fmt;

// Why an image is no running bay. Its cells are blank then.
#[derive(Clone, Copy, Debug, PartialEq, Eq)]
pub enum Trouble {
    // There is no file at its path.
    Missing,
    // The file can't be read.
    Unreadable,
    // Its bytes are no image.
    Unfit(ImageFault),
    // It is the image of another number of places.
    Places(usize),
}

impl fmt::Display for Trouble {
    fn fmt<W: fmt::Write>(&self, f: &mut fmt::Formatter<W>) -> fmt::Result {
        match self {
            Trouble::Missing => write!(f, "the image is missing"),
            Trouble::Unreadable => write!(f, "the image can't be read"),
            Trouble::Unfit(fault) => write!(f, "the image is unfit: {fault}"),
            Trouble::Places(places) => write!(f, "the image has {places} places"),
        }
    }
}

// An image on disk: its path, the words that it had when it was opened, if it was one, and what is wrong with it, if anything is.
#[derive(Drop)]
pub struct Image {
    pub path: String,
    pub before: Option<Vec<u32>>,
    pub trouble: Option<Trouble>,
}

// An archive: the path of its description, what it stands on, and which of its places were torn. One below another may be absent, since it
// can't be opened: its bays are stopped then.
#[derive(Drop)]
#[cycle(origin)]
pub struct Inner {
    pub path: String,
    pub origins: Vec<Origin>,
    pub torn: Vec<bool>,
    pub absent: bool,
}

// Where a part came from.
#[derive(Drop)]
#[cycle(origin)]
pub enum Origin {
    Image(Image),
    Archive(Inner),
}
