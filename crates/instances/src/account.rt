// The account of a history: each call, its answer, and beside a read the word of the plain book.
use array::Mending;
use history::{Answer, Book, Call, Service};
use std::{fmt, io};

// A call, written as a script would have it.
#[derive(Clone, Copy)]
struct Asked<'a>(&'a Call);

impl fmt::Display for Asked<'_> {
    fn fmt<W: fmt::Write>(&self, f: &mut fmt::Formatter<W>) -> fmt::Result {
        match self.0 {
            Call::Read { bay, place } => write!(f, "read {bay} {place}"),
            Call::Write { bay, place, word } => write!(f, "write {bay} {place} {word}"),
            Call::Lay { place, words } => {
                write!(f, "lay {place}")?;
                for word in words.iter() {
                    write!(f, " {word}")?;
                }
                Ok(())
            }
        }
    }
}

// What a call answered.
#[derive(Clone, Copy)]
struct Answered(Answer);

impl fmt::Display for Answered {
    fn fmt<W: fmt::Write>(&self, f: &mut fmt::Formatter<W>) -> fmt::Result {
        match self.0 {
            Answer::Word(Ok(word)) => write!(f, "{word}"),
            Answer::Done(Ok(())) => write!(f, "done"),
            Answer::Bits(Ok(bits)) => write!(f, "bits {bits}"),
            Answer::Mended(Ok(Mending::Whole)) => write!(f, "whole"),
            Answer::Mended(Ok(Mending::Patched)) => write!(f, "patched"),
            Answer::Word(Err(refusal))
            | Answer::Done(Err(refusal))
            | Answer::Bits(Err(refusal))
            | Answer::Mended(Err(refusal)) => {
                let number = refusal.number();
                write!(f, "refused by {number}")
            }
        }
    }
}

// Tells a call of a shelf, and feeds the book.
pub fn tell(rt: &HostRuntime, book: &mut Book, call: &Call, answer: Answer) -> io::Result<()> {
    let (asked, answered) = (Asked(call), Answered(answer));
    match call {
        Call::Read { bay, place } => match book.word(*bay, *place) {
            Some(word) => println!(rt; "{asked}: {answered}, by the book {word}")?,
            None => println!(rt; "{asked}: {answered}, by the book none")?,
        },
        _ => println!(rt; "{asked}: {answered}")?,
    }
    book.enter(call, answer);
    Ok(())
}

// Tells a call of an array that is serviced. The book takes no note of a mend or an exchange.
pub fn tell_service(
    rt: &HostRuntime,
    book: &mut Book,
    call: &Service,
    answer: Answer,
) -> io::Result<()> {
    let answered = Answered(answer);
    match call {
        Service::Plain(call) => tell(rt, book, call, answer),
        Service::Mend { bay, place } => println!(rt; "mend {bay} {place}: {answered}"),
        Service::Exchange { bay } => println!(rt; "exchange {bay}: {answered}"),
    }
}
