// The law over histories at two instances: an array over a drill, with every kind of call and of refusal, and a pile of three arrays. Each
// answer is told, and beside a read stands the word of the plain book.
#![tactic(auto)]

mod account;
mod fault;
mod lists;
mod pile;
mod serviced;
mod trays_below;

fn main(rt: HostRuntime) -> anyhow::Result<()> {
    println!(rt; "an array of nibbles over a drill over six trays")?;
    serviced::show(&rt)?;
    println!(rt; "a pile of three arrays")?;
    pile::show(&rt)
}
