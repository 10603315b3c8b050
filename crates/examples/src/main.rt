// What can be tried whole, against a second computation, and the worked examples on shelves in memory.
#![tactic(auto)]

mod arrays;
mod fault;
mod shelves;
mod tables;

use worked::worked_examples;

fn main(rt: HostRuntime) -> anyhow::Result<()> {
    worked_examples();
    tables::show(&rt)?;
    arrays::show(&rt)?;
    Ok(())
}
