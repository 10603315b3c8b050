ghost use Rattle.archive.specs.Contents.{kept, AllCoded};

use crate::contents::Contents;

// An archive in memory, none at first. The checks of every stripe in it are those that its words give.
#[derive(Drop)]
pub struct Archive {
    pub(crate) contents: Option<Contents>,
    ghost coded: { ∥ AllCoded (kept contents) ∥₁ },
}
