ghost use Rattle.std.specs.Prelude.{◌≡◌, Some, None};
ghost use Rattle.archive.specs.Contents.{kept};
ghost use Rattle.archive.specs.Entries.{answered, Carries, Takes, Afresh, Told};

use crate::contents::Contents;
use crate::fault::Fault;
use crate::report::Report;
use crate::whole::Archive;
use command::{Command, read_command};
use std::alloc::Global;

// Numbers of a line have 32 bits, and those of a shelf are usize. Rust has no From between them, so they are cast, which loses nothing.
impl Archive {
    // No archive is described yet.
    pub fn new() -> Archive
        ensures { kept result.contents ≡ None }
    {
        Archive { contents: None }
    }

    // Carries out one line of a script, and answers what the account says of it: nothing, where the line means nothing.
    // A line that is refused changes nothing. The checks that a write moved are the ones computed afresh,
    // and of lost bays it tells just what the others tell.
    pub fn take_line(&mut self, heap: Global, line: &[u8]) -> Result<Option<Report>, Fault>
        ensures takes { Takes self.old.contents self.new.contents line.now result }
        ensures afresh { Afresh result }
        ensures told { Told (kept self.old.contents) result }
    {
        match read_command(heap, line)? {
            None => Ok(None),
            Some(command) => Ok(Some(self.carry_out(heap, command)?)),
        }
    }

    // Carries out a command.
    fn carry_out(&mut self, heap: Global, command: Command) -> Result<Report, Fault>
        ensures carries { Carries self.old.contents self.new.contents command result }
        ensures afresh { Afresh (answered Some result) }
        ensures told { Told (kept self.old.contents) (answered Some result) }
    {
        match command {
            Command::Archive(description) => {
                self.contents = Some(Contents::described(heap, description)?);
                Ok(Report::Described(description))
            }
            Command::Lay { place, words } => {
                let contents = self.contents.as_mut().ok_or(Fault::NoArchive)?;
                let stripe = contents.lay(place as usize, &words)?;
                Ok(Report::Laid { place, stripe })
            }
            Command::Write { bay, place, word } => {
                let contents = self.contents.as_mut().ok_or(Fault::NoArchive)?;
                let rewrite = contents.write(bay as usize, place as usize, word)?;
                Ok(Report::Written {
                    bay,
                    place,
                    word,
                    rewrite,
                })
            }
            Command::Lost { bays } => {
                let contents = self.contents.as_ref().ok_or(Fault::NoArchive)?;
                Ok(Report::Lost(contents.loss(bays)?))
            }
        }
    }
}
