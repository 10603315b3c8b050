// Carries out the lines of a shelf in memory.
// Numbers of a line have 32 bits, and those of a shelf are usize. Rust has no From between them, so they are cast, which loses nothing.
use crate::answer::{Answer, BookWord, Fetch, Run};
use crate::fault::Fault;
use crate::stage::Stage;
use array::Mending;
use command::ShelfCall;
use history::{Book, Call, Service};
use shelf::{LostCell, Refusal, Shape, Shelf, fetch, survey};
use std::alloc::Global;

// Makes a call as a history of its own, and feeds the book with it.
fn made<S: Stage>(shelf: &mut S, book: &mut Book, call: Call) -> Result<history::Answer, Fault> {
    let calls = [call];
    let answer = shelf.make(&calls)?;
    book.enter(&calls[0], answer);
    Ok(answer)
}

// Reads the word of a cell.
fn read<S: Stage>(shelf: &mut S, book: &mut Book, bay: u32, place: u32) -> Result<Answer, Fault> {
    let call = Call::Read {
        bay: bay as usize,
        place: place as usize,
    };
    let answer = made(shelf, book, call)?;
    let book = BookWord(book.word(bay as usize, place as usize));
    match answer {
        history::Answer::Word(Ok(word)) => Ok(Answer::Found {
            bay,
            place,
            word,
            book,
        }),
        history::Answer::Word(Err(Refusal::Lost)) => Err(Fault::LostRead(book)),
        history::Answer::Word(Err(refusal)) => Err(Fault::Refused(refusal)),
        _ => Err(Fault::OtherAnswer),
    }
}

// Writes a word in a filled cell.
fn write<S: Stage>(
    shelf: &mut S,
    book: &mut Book,
    bay: u32,
    place: u32,
    word: u32,
) -> Result<Answer, Fault> {
    let call = Call::Write {
        bay: bay as usize,
        place: place as usize,
        word,
    };
    match made(shelf, book, call)? {
        history::Answer::Done(done) => {
            done?;
            Ok(Answer::Written { bay, place, word })
        }
        _ => Err(Fault::OtherAnswer),
    }
}

// Lays the words, one for each bay, at a place.
fn lay<S: Stage>(
    shelf: &mut S,
    book: &mut Book,
    place: u32,
    words: Vec<u32>,
) -> Result<Answer, Fault> {
    let call = Call::Lay {
        place: place as usize,
        words,
    };
    match made(shelf, book, call)? {
        history::Answer::Bits(bits) => Ok(Answer::Laid { place, bits: bits? }),
        _ => Err(Fault::OtherAnswer),
    }
}

// Puts a word in a cell, blank or filled. The book takes it for a write that was kept.
fn patch<S: Stage>(
    shelf: &mut S,
    book: &mut Book,
    bay: u32,
    place: u32,
    word: u32,
) -> Result<Answer, Fault> {
    shelf.set_cell(bay as usize, place as usize, word)?;
    let call = Call::Write {
        bay: bay as usize,
        place: place as usize,
        word,
    };
    book.enter(&call, history::Answer::Done(Ok(())));
    Ok(Answer::Patched { bay, place, word })
}

// Puts a fresh device in a bay.
fn exchange<S: Stage>(shelf: &mut S, bay: u32) -> Result<Answer, Fault> {
    shelf.replace_device(bay as usize)?;
    Ok(Answer::Exchanged { bay })
}

// Mends a cell of a bay below.
fn mend<S: Stage>(shelf: &mut S, bay: u32, place: u32) -> Result<Answer, Fault> {
    let call = Service::Mend {
        bay: bay as usize,
        place: place as usize,
    };
    match shelf.service(call)? {
        history::Answer::Mended(mended) => Ok(Answer::Mended {
            bay,
            place,
            whole: mended? == Mending::Whole,
        }),
        _ => Err(Fault::OtherAnswer),
    }
}

// Sweeps a bay below over a run of places. One that is longer than the shelf is refused, so it needs no longer buffer.
fn sweep<S: Stage>(
    heap: Global,
    shelf: &mut S,
    bay: u32,
    first: u32,
    count: u32,
) -> Result<Answer, Fault> {
    let places = Shape::from(shelf.shape()).places;
    let room = (count as usize).min(places + 1);
    let mut answers = vec![in heap; 0u8; room]?;
    shelf.sweep_bay(bay as usize, first as usize, &mut answers)?;
    Ok(Answer::Swept {
        bay,
        first,
        answers,
    })
}

// Fetches a run of places. One that is longer than the shelf is refused, so it needs no longer buffers. The book's words are looked up
// once nothing refuses the run, and before the first read, so that a line refused for want of memory has changed nothing.
fn fetch_run<S: Shelf>(
    heap: Global,
    shelf: &mut S,
    book: &Book,
    bay: u32,
    first: u32,
    count: u32,
) -> Result<Answer, Fault> {
    let shape = Shape::from(shelf.shape());
    let room = (count as usize).min(shape.places + 1);
    let mut words = vec![in heap; 0u32; room]?;
    let mut marks = vec![in heap; 0u8; room]?;
    shape.check_bay(bay as usize)?;
    shape.check_run(first as usize, room)?;
    let book = (0..room)
        .map(|i| book.word(bay as usize, (first as usize).saturating_add(i)))
        .collect(heap)?;
    let found = fetch(shelf, bay as usize, first as usize, &mut words, &mut marks)?;
    let fetched = Fetch {
        words,
        marks,
        found,
    };
    Ok(Answer::Fetched {
        bay,
        first,
        fetched,
        book,
    })
}

// Surveys a run of places. One that is longer than the shelf is refused, so it needs no longer list.
fn survey_run<S: Shelf>(heap: Global, shelf: &mut S, run: Run) -> Result<Answer, Fault> {
    let Shape { bays, places, .. } = Shape::from(shelf.shape());
    let room = bays * (run.count as usize).min(places);
    let mut lost = vec![in heap; LostCell { bay: 0, place: 0 }; room]?;
    let found = survey(shelf, run.first as usize, run.count as usize, &mut lost)?;
    lost.truncate(found);
    Ok(Answer::Surveyed { run, lost })
}

// Carries out a call that the shelf answers as it stands: all but a stop and a read below, for which it is taken apart.
pub(crate) fn carry_out<S: Stage>(
    heap: Global,
    shelf: &mut S,
    book: &mut Book,
    call: ShelfCall,
) -> Result<Answer, Fault> {
    match call {
        ShelfCall::Stop { .. } | ShelfCall::Below { .. } => Err(Fault::NoSuchCall),
        ShelfCall::Read { bay, place } => read(shelf, book, bay, place),
        ShelfCall::Write { bay, place, word } => write(shelf, book, bay, place, word),
        ShelfCall::Lay { place, words } => lay(shelf, book, place, words),
        ShelfCall::Patch { bay, place, word } => patch(shelf, book, bay, place, word),
        ShelfCall::Exchange { bay } => exchange(shelf, bay),
        ShelfCall::Mend { bay, place } => mend(shelf, bay, place),
        ShelfCall::Sweep { bay, first, count } => sweep(heap, shelf, bay, first, count),
        ShelfCall::Fetch { bay, first, count } => fetch_run(heap, shelf, book, bay, first, count),
        ShelfCall::Survey { first, count } => survey_run(heap, shelf, Run { first, count }),
        ShelfCall::End => Ok(Answer::Ended),
    }
}
