use crate::stripes::Stripes;
use field::{Byte, Count, Nibble};
use plan::Powers;

// What an archive holds, by its field.
#[derive(Drop)]
pub enum Contents {
    Nibble(Stripes<Powers<Nibble>>),
    Byte(Stripes<Powers<Byte>>),
    Count(Stripes<Powers<Count>>),
}
