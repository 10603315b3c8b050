// The worked examples of arrays, on shelves in memory.
use crate::fault::Fault;
use crate::shelves::{OnDisks, array};
use array::{Array, Mending};
use field::{Byte, Count, Field, Nibble};
use layers::Drill;
use plan::Powers;
use shelf::{Refusal, Shelf};
use std::fmt;
use trays::blank_words;
use worked::new_array;

// What a read answered.
#[derive(Clone, Copy)]
struct Told(Result<u32, Refusal>);

impl fmt::Display for Told {
    fn fmt<W: fmt::Write>(&self, f: &mut fmt::Formatter<W>) -> fmt::Result {
        match self.0 {
            Ok(word) => write!(f, "{word}"),
            Err(Refusal::Lost) => write!(f, "lost"),
            Err(refusal) => {
                let number = refusal.number();
                write!(f, "refused by {number}")
            }
        }
    }
}

// Tells what each bay of a shelf reads at its one place.
fn tell<S: Shelf>(rt: &HostRuntime, shelf: &mut S, name: &str) -> Result<(), Fault> {
    print!(rt; "{name}:")?;
    let (bays, _, _) = shelf.shape();
    for bay in 0..bays {
        let told = Told(shelf.read(bay, 0));
        print!(rt; " {told}")?;
    }
    println!(rt; "")?;
    Ok(())
}

// Takes an array apart to tell the cells below, and puts it together again.
fn tell_below<F: Field>(
    rt: &HostRuntime,
    array: OnDisks<F>,
    name: &str,
) -> Result<OnDisks<F>, Fault> {
    let (mut below, plan) = array.take_apart();
    tell(rt, &mut below, name)?;
    Ok(Array::assemble(below, plan))
}

// Puts fresh devices into bays below.
fn blank<F: Field>(array: &mut OnDisks<F>, bays: &[usize]) -> Result<(), Fault> {
    for bay in bays.iter() {
        array.exchange(*bay)?;
    }
    Ok(())
}

// Three words in nibbles with three checks: one is written, three bays go blank, and one is mended.
fn three_and_three(rt: &HostRuntime) -> Result<(), Fault> {
    let mut array = array::<Nibble>(rt.alloc(), 3, 3)?;
    array.lay(0, &[3, 13, 9])?;
    let mut array = tell_below(rt, array, "nibble 3 + 3, laid 3 13 9, below")?;
    array.write(1, 0, 1)?;
    let mut array = tell_below(rt, array, "1 written in bay 1, below")?;
    blank(&mut array, &[1, 2, 5])?;
    tell(rt, &mut array, "bays 1, 2 and 5 blank, the array")?;
    match array.mend(5, 0)? {
        Mending::Whole => println!(rt; "mending bay 5: whole")?,
        Mending::Patched => println!(rt; "mending bay 5: patched")?,
    }
    tell_below(rt, array, "below")?;
    Ok(())
}

// Six words with four checks, of which four bays go blank.
fn six_and_four<F: Field>(rt: &HostRuntime, name: &str) -> Result<(), Fault> {
    let mut array = array::<F>(rt.alloc(), 6, 4)?;
    array.lay(0, &[1, 2, 3, 4, 5, 6])?;
    blank(&mut array, &[0, 5, 7, 8])?;
    tell(rt, &mut array, name)
}

// Two words in counts with a check.
fn two_and_one(rt: &HostRuntime) -> Result<(), Fault> {
    let mut array = array::<Count>(rt.alloc(), 2, 1)?;
    array.lay(0, &[5, 65_535])?;
    let mut array = tell_below(rt, array, "count 2 + 1, laid 5 65535, below")?;
    blank(&mut array, &[1])?;
    tell(rt, &mut array, "bay 1 blank, the array")
}

// Two words in nibbles with a check, where bay 1 is stopped: the bits of a lay above and below.
fn stopped(rt: &HostRuntime) -> Result<(), Fault> {
    let heap = rt.alloc();
    let (mut first, mut second, mut third) = (
        blank_words(heap, 1)?,
        blank_words(heap, 1)?,
        blank_words(heap, 1)?,
    );
    let plan = Powers::<Nibble>::new(2, 1)?;
    let trays = new_array(&mut first, &mut second, &mut third, plan);
    let (below, plan) = trays.take_apart();
    let mut drill = Drill::new(below);
    // A new drill has room for 16 of them.
    let _ = drill.add(0, 1);
    let mut array = Array::assemble(drill, plan);
    let above = array.lay(0, &[4, 9])?;
    let (mut drill, _) = array.take_apart();
    let below = drill.lay(0, &[4, 9, 13])?;
    println!(rt;
        "nibble 2 + 1, bay 1 stopped, laid 4 9: the bits {below} below and {above} above"
    )?;
    Ok(())
}

// Tells each example.
pub fn show(rt: &HostRuntime) -> Result<(), Fault> {
    three_and_three(rt)?;
    six_and_four::<Nibble>(rt, "nibble 6 + 4, laid 1 to 6, bays 0, 5, 7 and 8 blank")?;
    six_and_four::<Byte>(rt, "byte 6 + 4, laid 1 to 6, bays 0, 5, 7 and 8 blank")?;
    two_and_one(rt)?;
    stopped(rt)
}
