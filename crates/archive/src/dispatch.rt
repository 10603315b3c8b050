ghost use Rattle.archive.specs.Contents.{LaysIn, WritesIn, LosesIn, Made, MadeStripes};

use crate::contents::Contents;
use crate::fault::Fault;
use crate::loss::Loss;
use crate::stripe::{Rewrite, Stripe};
use crate::stripes::Stripes;
use command::{Description, FieldName};
use field::Field;
use plan::Powers;
use shelf::MOST_PLACES;
use std::alloc::Global;

// New stripes by the plan of powers, with nothing laid. Rust has no From of u32 for usize, so the numbers are cast, which loses nothing.
fn new_stripes<F: Field>(
    heap: Global,
    description: Description,
) -> Result<Stripes<Powers<F>>, Fault>
    ensures { MadeStripes description result }
{
    let plan = Powers::<F>::new(
        description.data_bays as usize,
        description.check_bays as usize,
    )?;
    let places = description.places as usize;
    if !(1..=MOST_PLACES).contains(&places) {
        return Err(Fault::PlacesOutOfRange);
    }
    Ok(Stripes::new(heap, plan, places)?)
}

// An arm for each field: a `dyn` of the stripes would have to be handed out by a function, which the gate refuses.
impl Contents {
    // A new archive, with nothing laid.
    pub fn described(heap: Global, description: Description) -> Result<Contents, Fault>
        ensures { Made description result }
    {
        match description.field {
            FieldName::Nibble => Ok(Contents::Nibble(new_stripes(heap, description)?)),
            FieldName::Byte => Ok(Contents::Byte(new_stripes(heap, description)?)),
            FieldName::Count => Ok(Contents::Count(new_stripes(heap, description)?)),
        }
    }

    // Lays the words at a place, whatever the field.
    pub fn lay(&mut self, place: usize, words: &[u32]) -> Result<Stripe, Fault>
        ensures { LaysIn self.old self.new place words.now result }
    {
        match self {
            Contents::Nibble(stripes) => stripes.lay(place, words),
            Contents::Byte(stripes) => stripes.lay(place, words),
            Contents::Count(stripes) => stripes.lay(place, words),
        }
    }

    // Writes a word in a data bay at a place, whatever the field.
    pub fn write(&mut self, bay: usize, place: usize, word: u32) -> Result<Rewrite, Fault>
        ensures { WritesIn self.old self.new bay place word result }
    {
        match self {
            Contents::Nibble(stripes) => stripes.write(bay, place, word),
            Contents::Byte(stripes) => stripes.write(bay, place, word),
            Contents::Count(stripes) => stripes.write(bay, place, word),
        }
    }

    // What is still told where these bays are lost, whatever the field.
    pub fn loss(&self, lost: Vec<u32>) -> Result<Loss, Fault>
        ensures { LosesIn self.now lost.items result }
    {
        match self {
            Contents::Nibble(stripes) => stripes.loss(lost),
            Contents::Byte(stripes) => stripes.loss(lost),
            Contents::Count(stripes) => stripes.loss(lost),
        }
    }
}
