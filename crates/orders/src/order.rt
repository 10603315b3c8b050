// What a line asks of the program. Paths are those of the line.
#[derive(Clone, Copy, Debug, PartialEq, Eq)]
pub enum Order<'a> {
    // What the commands are, or what the one of this name does.
    Help(Option<&'a [u8]>),
    // Run shelves in memory by the script at this path, or the one on standard input.
    Drill(Option<&'a [u8]>),
    // Carry out the commands of the script at this path, or of the one on standard input.
    Script(Option<&'a [u8]>),
    // A task on the archive with its description at this path.
    On { archive: &'a [u8], task: Task<'a> },
}

// So many places from the first on.
#[derive(Clone, Copy, Debug, PartialEq, Eq)]
pub struct Run {
    pub first: u32,
    pub count: u32,
}

// What is asked of an archive. Without a run all its places are meant.
#[derive(Clone, Copy, Debug, PartialEq, Eq)]
pub enum Task<'a> {
    // Write a blank image for each bay.
    Create,
    // Lay the table at this path, or the one on standard input.
    Lay(Option<&'a [u8]>),
    // Another word in a cell that is told.
    Write { bay: u32, place: u32, word: u32 },
    // The word of a cell.
    Read { bay: u32, place: u32 },
    // The table of a run of places.
    Print(Option<Run>),
    // The lost cells of a run of places.
    Survey(Option<Run>),
    // A fresh image in a bay below.
    Exchange { bay: u32 },
    // Mend the cells of a bay below, or of all bays.
    Sweep(Option<u32>),
    // Which bays run, what is filled and lost, and what a further loss would cost.
    Status,
    // Which places disagree with their checks.
    Verify,
    // The bytes of a file over the data bays.
    Put(&'a [u8]),
    // The same bytes back into a file.
    Get(&'a [u8]),
}
