// What the commands are, and what each does.
use anyhow::bail;
use orders::Verb;

// All commands, in the order in which they are listed.
const VERBS: [Verb; 15] = [
    Verb::Help,
    Verb::Create,
    Verb::Lay,
    Verb::Write,
    Verb::Read,
    Verb::Print,
    Verb::Survey,
    Verb::Exchange,
    Verb::Sweep,
    Verb::Status,
    Verb::Verify,
    Verb::Put,
    Verb::Get,
    Verb::Drill,
    Verb::Script,
];

// What is written after the name of a command.
fn form(verb: Verb) -> &'static str {
    match verb {
        Verb::Help => "[COMMAND]",
        Verb::Create => "ARCHIVE",
        Verb::Lay => "ARCHIVE [TABLE]",
        Verb::Write => "ARCHIVE BAY PLACE WORD",
        Verb::Read => "ARCHIVE BAY PLACE",
        Verb::Print => "ARCHIVE [FIRST COUNT]",
        Verb::Survey => "ARCHIVE [FIRST COUNT]",
        Verb::Exchange => "ARCHIVE BAY",
        Verb::Sweep => "ARCHIVE [BAY]",
        Verb::Status => "ARCHIVE",
        Verb::Verify => "ARCHIVE",
        Verb::Put => "ARCHIVE FILE",
        Verb::Get => "ARCHIVE FILE",
        Verb::Drill => "[FILE]",
        Verb::Script => "[FILE]",
    }
}

// What a command does.
fn purpose(verb: Verb) -> &'static str {
    match verb {
        Verb::Help => "lists the commands, or says what one does",
        Verb::Create =>
            "writes a blank image for each bay of the description; none is written where a file is there already",
        Verb::Lay =>
            "lays the rows of a table, PLACE,WORD,.. each, from a file or from standard input",
        Verb::Write => "writes a word in a cell that is told, and moves the checks",
        Verb::Read => "prints the word of a cell",
        Verb::Print =>
            "prints the table of a run of places, or of all; what is lost or torn is said, and a total only where all its cells are told",
        Verb::Survey => "lists the lost cells of a run of places, or of all",
        Verb::Exchange => "puts a fresh image in a bay below",
        Verb::Sweep => "mends the cells of a bay below, or of all bays",
        Verb::Status =>
            "says which bays run, how many cells are filled, told and lost, and what the loss of each bay would cost",
        Verb::Verify => "computes every check from the data, and says which places disagree",
        Verb::Put => "puts the bytes of a file over the data bays, from place 0 on",
        Verb::Get => "gets them back, or lists the lost places and writes nothing",
        Verb::Drill =>
            "runs shelves in memory by a script of calls and failures, and prints each answer with the word of a plain book",
        Verb::Script => "carries out commands, one a line, from a file or from standard input",
    }
}

// Lists the commands.
pub fn list_commands(rt: &HostRuntime) -> anyhow::Result<()> {
    for verb in VERBS {
        println!(rt; "raskold {verb} {}", form(verb))?;
    }
    Ok(())
}

// Says what a command does, or lists them all.
pub fn help(rt: &HostRuntime, name: Option<&[u8]>) -> anyhow::Result<()> {
    let Some(name) = name else {
        return list_commands(rt);
    };
    match Verb::try_from(name) {
        Ok(verb) => println!(rt; "raskold {verb} {}: {}", form(verb), purpose(verb))?,
        Err(fault) => bail!("{fault}; `raskold help` lists the commands"),
    }
    Ok(())
}
