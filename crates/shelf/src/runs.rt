// Reads over runs of cells, on any shelf.
ghost use Rattle.std.specs.Prelude.{ℕ, length};
ghost use Rattle.shelf.specs.Reads.{Fetches, Surveys};

use crate::lost::LostCell;
use crate::refusal::Refusal;
use crate::shape::Shape;
use crate::traits::Shelf;

// Reads a run of places of one bay, as long as the two buffers. Where a word comes it goes into its slot and its mark is 1; a lost
// place has mark 0, and its slot is untouched. Answers how many marks are 1.
// The two buffers are a rule of the project: a caller lends words and marks.
pub fn fetch<S: Shelf>(
    shelf: &mut S,
    bay: usize,
    first: usize,
    words: &mut [u32],
    marks: &mut [u8],
) -> Result<usize, Refusal>
    ensures { Fetches S.Shelf.table S.Shelf.sound shelf.old shelf.new bay first words.old words.new marks.old marks.new result }
{
    let shape = Shape::from(shelf.shape());
    shape.check_bay(bay)?;
    if words.len() != marks.len() {
        return Err(Refusal::WrongCount);
    }
    shape.check_run(first, words.len())?;
    let mut found = 0;
    // By index: a loop over both buffers' `iter_mut` has no name for what they hold meanwhile, so its invariant can't be stated.
    for i in 0..words.len() {
        match shelf.read(bay, first + i) {
            Ok(word) => {
                words[i] = word;
                marks[i] = 1;
                found += 1;
            }
            Err(_) => marks[i] = 0,
        }
    }
    Ok(found)
}

// Reads every bay of a run of places, and lists the cells that are lost, each once; the rest of the list is untouched. Answers how
// many they are. Where the list is too short, it is full of lost cells, each once.
pub fn survey<S: Shelf>(
    shelf: &mut S,
    first: usize,
    count: usize,
    list: &mut [LostCell],
) -> Result<usize, Refusal>
    ensures { Surveys S.Shelf.table S.Shelf.sound shelf.old shelf.new first count list.old list.new result }
{
    let shape = Shape::from(shelf.shape());
    shape.check_run(first, count)?;
    let mut found = 0;
    // By the number of the cell: one loop a function is a rule of the project, and a second function would be lent the shelf, the list and
    // the count. The list is filled by index for the reason that the buffers of a fetch are.
    for k in 0..count * shape.bays {
        let (bay, place) = (k % shape.bays, first + k / shape.bays);
        if let Err(_) = shelf.read(bay, place) {
            if found >= list.len() {
                return Err(Refusal::ListTooShort);
            }
            list[found] = LostCell { bay, place };
            found += 1;
        }
    }
    Ok(found)
}
