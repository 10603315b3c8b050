use shelf::LostCell;
use std::fmt;

// What the account says of a call that was carried out.
#[derive(Drop)]
pub enum Answer {
    // The bay stops at the call of this number.
    Stops {
        bay: u32,
        call: u32,
    },
    // Bit b is clear only where the cell of bay b is blank.
    Laid {
        place: u32,
        bits: u32,
    },
    Found {
        bay: u32,
        place: u32,
        word: u32,
        book: BookWord,
    },
    Written {
        bay: u32,
        place: u32,
        word: u32,
    },
    Patched {
        bay: u32,
        place: u32,
        word: u32,
    },
    Exchanged {
        bay: u32,
    },
    // A cell of a bay below was whole, or was mended.
    Mended {
        bay: u32,
        place: u32,
        whole: bool,
    },
    // The number of each mend's answer or refusal, from the first place on.
    Swept {
        bay: u32,
        first: u32,
        answers: Vec<u8>,
    },
    // The word of a cell of a bay below.
    Below {
        bay: u32,
        place: u32,
        word: u32,
    },
    // What was fetched from the first place on, and the words of the book.
    Fetched {
        bay: u32,
        first: u32,
        fetched: Fetch,
        book: Vec<Option<u32>>,
    },
    // The lost cells of a run of places.
    Surveyed {
        run: Run,
        lost: Vec<LostCell>,
    },
    Ended,
}

// The word that the plain book has for a cell, if it has one.
#[derive(Clone, Copy, Debug, PartialEq, Eq)]
pub struct BookWord(pub Option<u32>);

impl fmt::Display for BookWord {
    fn fmt<W: fmt::Write>(&self, f: &mut fmt::Formatter<W>) -> fmt::Result {
        match self.0 {
            Some(word) => write!(f, "{word}"),
            None => f.write_str("none"),
        }
    }
}

// The two buffers that a fetch fills, kept as they are: a list of options beside them would have to be made after the reads, when want
// of memory can't refuse the line any more, and takes more memory than both. So many marks are 1.
#[derive(Drop)]
pub struct Fetch {
    pub words: Vec<u32>,
    pub marks: Vec<u8>,
    pub found: usize,
}

// One of several places: its word, or this name where there is none, with a blank before it unless it is the first. Std's join
// allocates, which printing can't.
#[derive(Clone, Copy)]
struct Place<'a> {
    index: usize,
    word: Option<u32>,
    none: &'a str,
}

impl fmt::Display for Place<'_> {
    fn fmt<W: fmt::Write>(&self, f: &mut fmt::Formatter<W>) -> fmt::Result {
        if self.index > 0 {
            f.write_str(" ")?;
        }
        match self.word {
            Some(word) => write!(f, "{word}"),
            None => f.write_str(self.none),
        }
    }
}

impl fmt::Display for Fetch {
    fn fmt<W: fmt::Write>(&self, f: &mut fmt::Formatter<W>) -> fmt::Result {
        if self.words.is_empty() {
            return write!(f, "no places");
        }
        for (index, (word, mark)) in self.words.iter().zip(self.marks.iter()).enumerate() {
            let word = if *mark == 1 { Some(*word) } else { None };
            let none = "lost";
            write!(f, "{}", Place { index, word, none })?;
        }
        Ok(())
    }
}

// The words that the book has for places.
#[derive(Clone, Copy)]
struct BookWords<'a>(&'a [Option<u32>]);

impl fmt::Display for BookWords<'_> {
    fn fmt<W: fmt::Write>(&self, f: &mut fmt::Formatter<W>) -> fmt::Result {
        if self.0.is_empty() {
            return write!(f, "no places");
        }
        for (index, word) in self.0.iter().copied().enumerate() {
            let none = "none";
            write!(f, "{}", Place { index, word, none })?;
        }
        Ok(())
    }
}

// Numbers with blanks between them.
#[derive(Clone, Copy)]
struct Numbers<'a>(&'a [u8]);

impl fmt::Display for Numbers<'_> {
    fn fmt<W: fmt::Write>(&self, f: &mut fmt::Formatter<W>) -> fmt::Result {
        if self.0.is_empty() {
            return write!(f, "no places");
        }
        for (i, number) in self.0.iter().enumerate() {
            if i > 0 {
                write!(f, " ")?;
            }
            write!(f, "{number}")?;
        }
        Ok(())
    }
}

// How many cells are lost, and which.
#[derive(Clone, Copy)]
struct LostCells<'a>(&'a [LostCell]);

impl fmt::Display for LostCells<'_> {
    fn fmt<W: fmt::Write>(&self, f: &mut fmt::Formatter<W>) -> fmt::Result {
        let found = self.0.len();
        write!(f, "lost {found}")?;
        for (i, cell) in self.0.iter().enumerate() {
            let before = if i == 0 { ":" } else { "," };
            write!(f, "{before} bay {} place {}", cell.bay, cell.place)?;
        }
        Ok(())
    }
}

// The places of a run, of which there are so many from the first on.
#[derive(Clone, Copy)]
pub struct Run {
    pub first: u32,
    pub count: u32,
}

impl fmt::Display for Run {
    fn fmt<W: fmt::Write>(&self, f: &mut fmt::Formatter<W>) -> fmt::Result {
        if self.count == 0 {
            return write!(f, "no places");
        }
        let first = self.first;
        let last = u64::from(first) + u64::from(self.count) - 1;
        write!(f, "places {first} to {last}")
    }
}

impl fmt::Display for Answer {
    fn fmt<W: fmt::Write>(&self, f: &mut fmt::Formatter<W>) -> fmt::Result {
        match self {
            Answer::Stops { bay, call } => write!(f, "bay {bay} stops at call {call}"),
            Answer::Laid { place, bits } => write!(f, "place {place}: laid, bits {bits}"),
            Answer::Found {
                bay,
                place,
                word,
                book,
            } => write!(f, "bay {bay} place {place}: {word}; book {book}"),
            Answer::Written { bay, place, word } => {
                write!(f, "bay {bay} place {place}: written {word}")
            }
            Answer::Patched { bay, place, word } => {
                write!(f, "bay {bay} place {place}: patched {word}")
            }
            Answer::Exchanged { bay } => write!(f, "bay {bay}: exchanged"),
            Answer::Mended { bay, place, whole } => {
                let found = if *whole { "whole" } else { "mended" };
                write!(f, "bay {bay} below, place {place}: {found}")
            }
            Answer::Swept {
                bay,
                first,
                answers,
            } => write!(
                f,
                "bay {bay} below, from place {first}: swept {}",
                Numbers(answers)
            ),
            Answer::Below { bay, place, word } => write!(
                f,
                "bay {bay} below, place {place}: {word}"
            ),
            Answer::Fetched {
                bay,
                first,
                fetched,
                book,
            } => {
                let found = fetched.found;
                let book = BookWords(book);
                write!(
                    f,
                    "bay {bay} from place {first}: {fetched}, words {found}; book {book}"
                )
            }
            Answer::Surveyed { run, lost } => write!(f, "{run}: {}", LostCells(lost)),
            Answer::Ended => write!(f, "ended"),
        }
    }
}
