// Runs what is only tested, on the real crates: one of every refusal of every call, and random histories on piles of arrays, drills and
// devices, each answer beside a plain second computation.
#![tactic(auto)]

mod account;
mod attempts;
mod book;
mod calls;
mod elimination;
mod generator;
mod histories;
mod log;
mod makings;
mod piles;
mod plain_fields;
mod plain_plan;
mod refusals;
mod seen;
mod service;
mod tally;
mod trial;
mod vectors;
mod view;
mod watched;

use crate::log::Log;
use anyhow::ensure;

fn main(rt: HostRuntime) -> anyhow::Result<()> {
    let mut log = Log::new(&rt);
    makings::trays(&mut log)?;
    makings::images(&mut log)?;
    makings::plans(&mut log)?;
    makings::events(&mut log)?;
    refusals::show(&mut log)?;
    log.end()?;
    let tally = histories::all(rt.alloc())?;
    tally.print(&rt)?;
    let wrong = tally.wrong().saturating_add(log.wrong());
    ensure!(wrong == 0, "{wrong} disagreed");
    Ok(())
}
