ghost use Rattle.std.specs.Prelude.{◌≡◌, Ok, Some};
ghost use Rattle.orders.specs.Verbs.{verb_of, verb_name};

use command::Fault;
use std::fmt;

// The name of a command.
#[derive(Clone, Copy, Debug, PartialEq, Eq)]
pub enum Verb {
    // What the commands are, or what one does.
    Help,
    // Write a blank image for each bay.
    Create,
    // Lay a table of counts.
    Lay,
    // Write one cell.
    Write,
    // Read one cell.
    Read,
    // Print the table of a run of places.
    Print,
    // List the lost cells of a run of places.
    Survey,
    // Put a fresh image in a bay below.
    Exchange,
    // Mend the cells of a bay below, or of all.
    Sweep,
    // Say which bays run, what is filled and lost, and what a further loss would cost.
    Status,
    // Compute every check from the data, and say which places disagree.
    Verify,
    // Put the bytes of a file over the data bays.
    Put,
    // Get them back.
    Get,
    // Run shelves in memory by a script.
    Drill,
    // Carry out the commands of a script.
    Script,
}

impl TryFrom<&[u8]> for Verb {
    type Error = Fault;

    ghost try_from_gives = { λ token r. r ≡ verb_of token.now };

    // The command that a token names.
    #[tactic(auto, using(command::proofs::Names::bytes_eq_reads))]
    fn try_from(token: &[u8]) -> Result<Verb, Fault> {
        match token {
            b"help" => Ok(Verb::Help),
            b"create" => Ok(Verb::Create),
            b"lay" => Ok(Verb::Lay),
            b"write" => Ok(Verb::Write),
            b"read" => Ok(Verb::Read),
            b"print" => Ok(Verb::Print),
            b"survey" => Ok(Verb::Survey),
            b"exchange" => Ok(Verb::Exchange),
            b"sweep" => Ok(Verb::Sweep),
            b"status" => Ok(Verb::Status),
            b"verify" => Ok(Verb::Verify),
            b"put" => Ok(Verb::Put),
            b"get" => Ok(Verb::Get),
            b"drill" => Ok(Verb::Drill),
            b"script" => Ok(Verb::Script),
            _ => Err(Fault::UnknownCommand),
        }
    }
}

impl Verb {
    // Its name: a line that has it there names this command.
    pub fn name(self) -> &'static str
        ensures spelled { result.now ≡ verb_name self }
        ensures read_back { verb_of result.now ≡ Ok self }
    {
        match self {
            Verb::Help => "help",
            Verb::Create => "create",
            Verb::Lay => "lay",
            Verb::Write => "write",
            Verb::Read => "read",
            Verb::Print => "print",
            Verb::Survey => "survey",
            Verb::Exchange => "exchange",
            Verb::Sweep => "sweep",
            Verb::Status => "status",
            Verb::Verify => "verify",
            Verb::Put => "put",
            Verb::Get => "get",
            Verb::Drill => "drill",
            Verb::Script => "script",
        }
    }
}

// By hand: what a derive prints has no contract.
impl fmt::Display for Verb {
    ghost output = { λ v. Some (verb_name v) };

    fn fmt<W: fmt::Write>(&self, f: &mut fmt::Formatter<W>) -> fmt::Result {
        f.write_str(self.name())
    }
}
