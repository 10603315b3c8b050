// Arrays in memory: with a plan of powers over a row of blank disks.
use crate::fault::Fault;
use array::Array;
use disk::Disk;
use field::Field;
use plan::{Plan, Powers};
use rack::Rack;
use std::alloc::Global;
use trays::blank_words;

// An array over disks.
pub type OnDisks<F> = Array<Rack<Disk>, Powers<F>>;

// So many disks of one place.
fn disks(heap: Global, bays: usize, limit: u32) -> Result<Rack<Disk>, Fault> {
    let mut disks = Vec::new(heap);
    for _ in 0..bays {
        disks.push(Disk::new(blank_words(heap, 1)?, limit))?;
    }
    Ok(Rack::new(disks))
}

// An array with n data bays and m check bays, of one place.
pub fn array<F: Field>(heap: Global, n: usize, m: usize) -> Result<OnDisks<F>, Fault> {
    let plan = Powers::<F>::new(n, m)?;
    let below = disks(heap, n.saturating_add(m), F::size())?;
    Ok(Array::assemble(below, plan))
}
