// Shelves in memory, made and failed by the lines of a script, each call with its answer and the word of the plain book.
#![tactic(auto)]

mod answer;
mod calls;
mod fault;
mod lines;
mod memory;
mod shelves;
mod stage;

use crate::shelves::rehearse;
use archive::Archive;
use command::read_opening;
use script::Script;
use std::io::BufRead;

// Takes the lines of a script in turn, to the last.
pub fn take_script<R: BufRead + Drop>(rt: &HostRuntime, input: R) -> anyhow::Result<()> {
    let mut script = Script::new(rt.alloc(), input);
    let mut archive = Archive::new();
    // No index: a reader may never end, and so its loop is bounded.
    for _ in 0..u64::MAX {
        if !script.advance()? {
            break;
        }
        match read_opening(rt.alloc(), &script.line) {
            Ok(Some(opening)) => rehearse(rt, &mut script, opening)?,
            Ok(None) => {
                let said = archive.take_line(rt.alloc(), &script.line);
                script.tell(rt, said)?;
            }
            Err(fault) => script.refuse(rt, fault)?,
        }
    }
    println!(rt; "lines {}, refused {}", script.lines, script.refused)?;
    Ok(())
}
