// The shelves in memory that a line of a script begins.
use crate::fault::Fault;
use crate::lines::take_lines;
use crate::memory::{Memory, blank_bays, blank_rack, three};
use array::Array;
use command::{Description, FieldName, Opening};
use disk::Disk;
use field::{Byte, Count, Field, Nibble};
use layers::{Drill, Pair};
use plan::{Plan, Powers};
use rack::Rack;
use script::Script;
use std::alloc::Global;
use std::io::BufRead;
use trays::Tray;

// The limit of a drill's shelf. Image trays have no other.
const LIMIT: u32 = 256;

// drill PLACES: a pair of drills, each over two bays.
fn on_drills<R: BufRead>(
    rt: &HostRuntime,
    script: &mut Script<R>,
    mut memory: Memory,
) -> anyhow::Result<()> {
    let (trays, images) = memory.trays(LIMIT);
    let shelf = Pair::new(Drill::new(trays), Drill::new(images));
    let stands_on = "bays 0 and 1 are trays, bays 2 and 3 image trays";
    take_lines(rt, script, shelf, "drill", stands_on)
}

// trays LIMIT PLACES: a drill over three trays.
fn on_trays<R: BufRead>(
    rt: &HostRuntime,
    script: &mut Script<R>,
    mut words: Vec<u32>,
    limit: u32,
) -> anyhow::Result<()> {
    let shelf = Drill::new(three(&mut words, limit));
    take_lines(rt, script, shelf, "trays", "a drill over 3 trays")
}

// An array over a drill over disks.
fn on_array<R: BufRead, F: Field>(
    rt: &HostRuntime,
    script: &mut Script<R>,
    plan: Powers<F>,
    below: Rack<Disk>,
) -> anyhow::Result<()> {
    let bays = below.shelves.len();
    let shelf = Array::assemble(Drill::new(below), plan);
    match format!(in rt.alloc(); "a drill over {bays} disks") {
        Ok(stands_on) => take_lines(rt, script, shelf, "array", &stands_on),
        Err(none) => script.refuse(rt, Fault::from(none)),
    }
}

// An array over a pair of arrays, each over a drill over disks.
fn on_pile<R: BufRead, F: Field>(
    rt: &HostRuntime,
    script: &mut Script<R>,
    plan: Powers<F>,
    halves: Halves<F>,
) -> anyhow::Result<()> {
    let Halves {
        inner,
        first,
        second,
    } = halves;
    let first = Array::assemble(Drill::new(first), inner);
    let second = Array::assemble(Drill::new(second), inner);
    let shelf = Array::assemble(Pair::new(first, second), plan);
    take_lines(
        rt,
        script,
        shelf,
        "pile",
        "a pair of arrays of 2 data bays, each on a drill over 3 disks",
    )
}

// Memory for three trays, once the limit is one of a tray.
fn tray_words(heap: Global, limit: u32, places: u32) -> Result<Vec<u32>, Fault> {
    let mut words = blank_bays(heap, 3, places)?;
    Tray::new(&mut words, limit).check()?;
    Ok(words)
}

// The plan of an array, and the disks below it.
fn array_parts<F: Field>(
    heap: Global,
    description: Description,
) -> Result<(Powers<F>, Rack<Disk>), Fault> {
    let plan = Powers::<F>::new(
        description.data_bays as usize,
        description.check_bays as usize,
    )?;
    let bays = plan.data_bays() + plan.check_bays();
    let below = blank_rack(heap, bays, description.places, F::size())?;
    Ok((plan, below))
}

// The two arrays below that of a pile: their plan, and the disks of each.
#[derive(Drop)]
struct Halves<F> {
    inner: Powers<F>,
    first: Rack<Disk>,
    second: Rack<Disk>,
}

// The plan of the array on a pile, and what the two arrays below it are made of.
fn pile_parts<F: Field>(
    heap: Global,
    description: Description,
) -> Result<(Powers<F>, Halves<F>), Fault> {
    let plan = Powers::<F>::new(
        description.data_bays as usize,
        description.check_bays as usize,
    )?;
    let inner = Powers::<F>::new(2, 1)?;
    if plan.data_bays() + plan.check_bays() != 4 {
        return Err(Fault::BaysBelow);
    }
    let halves = Halves {
        inner,
        first: blank_rack(heap, 3, description.places, F::size())?,
        second: blank_rack(heap, 3, description.places, F::size())?,
    };
    Ok((plan, halves))
}

// Takes the lines of an array, or of a pile, in the field F.
fn described<R: BufRead, F: Field>(
    rt: &HostRuntime,
    script: &mut Script<R>,
    description: Description,
    piled: bool,
) -> anyhow::Result<()> {
    if piled {
        match pile_parts::<F>(rt.alloc(), description) {
            Ok((plan, halves)) => on_pile(rt, script, plan, halves),
            Err(fault) => script.refuse(rt, fault),
        }
    } else {
        match array_parts::<F>(rt.alloc(), description) {
            Ok((plan, below)) => on_array(rt, script, plan, below),
            Err(fault) => script.refuse(rt, fault),
        }
    }
}

// The same, in the field of the description.
fn in_field<R: BufRead>(
    rt: &HostRuntime,
    script: &mut Script<R>,
    description: Description,
    piled: bool,
) -> anyhow::Result<()> {
    match description.field {
        FieldName::Nibble => described::<R, Nibble>(rt, script, description, piled),
        FieldName::Byte => described::<R, Byte>(rt, script, description, piled),
        FieldName::Count => described::<R, Count>(rt, script, description, piled),
    }
}

// Takes the lines of the shelf that a line begins. They follow in the script.
pub(crate) fn rehearse<R: BufRead>(
    rt: &HostRuntime,
    script: &mut Script<R>,
    opening: Opening,
) -> anyhow::Result<()> {
    match opening {
        Opening::Drill { places } => match Memory::blank(rt.alloc(), places) {
            Ok(memory) => on_drills(rt, script, memory),
            Err(fault) => script.refuse(rt, fault),
        },
        Opening::Trays { limit, places } => match tray_words(rt.alloc(), limit, places) {
            Ok(words) => on_trays(rt, script, words, limit),
            Err(fault) => script.refuse(rt, fault),
        },
        Opening::Array(description) => in_field(rt, script, description, false),
        Opening::Pile(description) => in_field(rt, script, description, true),
    }
}
