// The lines of a script that are calls of a shelf in memory, up to its end.
use crate::answer::Answer;
use crate::calls::carry_out;
use crate::fault::Fault;
use crate::stage::Stage;
use command::{ShelfCall, read_call};
use history::Book;
use script::Script;
use shelf::Shape;
use std::io::BufRead;

// Whether a shelf is taken apart for a call, and so has to be moved. It is large: any other call is carried out where it stands.
fn is_apart(call: &ShelfCall) -> bool {
    matches!(call, ShelfCall::Stop { .. } | ShelfCall::Below { .. })
}

// Carries out a call for which a shelf is taken apart. The shelf comes back.
fn take_apart<S: Stage>(shelf: S, call: ShelfCall) -> (S, Result<Answer, Fault>) {
    match call {
        ShelfCall::Stop { call, bay } => {
            let (shelf, planned) = shelf.stop(call, bay as usize);
            match planned {
                Ok(()) => (shelf, Ok(Answer::Stops { bay, call })),
                Err(overfull) => (shelf, Err(Fault::from(overfull))),
            }
        }
        ShelfCall::Below { bay, place } => {
            let (shelf, read) = shelf.read_below(bay as usize, place as usize);
            match read {
                Ok(word) => (shelf, Ok(Answer::Below { bay, place, word })),
                Err(fault) => (shelf, Err(fault)),
            }
        }
        _ => (shelf, Err(Fault::NoSuchCall)),
    }
}

// Takes the lines up to the end of a shelf, or of the script, with its book.
fn take_calls<R: BufRead, S: Stage + Drop>(
    rt: &HostRuntime,
    script: &mut Script<R>,
    mut shelf: S,
    mut book: Book,
) -> anyhow::Result<()> {
    // No index: a reader may never end, and so its loop is bounded.
    for _ in 0..u64::MAX {
        if !script.advance()? {
            break;
        }
        let said = match read_call(rt.alloc(), &script.line) {
            Ok(None) => continue,
            Ok(Some(call)) => {
                if is_apart(&call) {
                    let (next, answer) = take_apart(shelf, call);
                    shelf = next;
                    answer.map(Some)
                } else {
                    carry_out(rt.alloc(), &mut shelf, &mut book, call).map(Some)
                }
            }
            Err(fault) => Err(Fault::from(fault)),
        };
        match said {
            Ok(Some(Answer::Ended)) => break,
            said => script.tell(rt, said)?,
        }
    }
    Ok(())
}

// Takes the lines of a shelf. It is called by its name, and what it stands on is said. Where there is no memory for its book, the line
// that begins it is refused.
pub(crate) fn take_lines<R: BufRead, S: Stage + Drop>(
    rt: &HostRuntime,
    script: &mut Script<R>,
    shelf: S,
    name: &str,
    stands_on: &str,
) -> anyhow::Result<()> {
    let Shape {
        bays,
        places,
        limit,
    } = Shape::from(shelf.shape());
    match Book::new(rt.alloc(), bays, places) {
        Ok(book) => {
            println!(rt; "{name}: bays {bays}, places {places}, limit {limit}; {stands_on}")?;
            take_calls(rt, script, shelf, book)?;
            println!(rt; "{name} ended")?;
            Ok(())
        }
        Err(none) => script.refuse(rt, Fault::from(none)),
    }
}
