ghost use Rattle.std.specs.Prelude.{◌≡◌, OnOk, IfSome};
ghost use Rattle.std.specs.Io.BufRead.{take_through, DropsThrough};
ghost use Rattle.script.specs.Scripts.{New, Advances, Tells, Refuses};

use std::alloc::Global;
use std::io::BufRead;
use std::{fmt, io};

// The lines of an input, one by one, and how many of them were read and refused. Its fields are public: clauses name them, and nothing
// rests on them.
#[derive(Drop)]
pub struct Script<R> {
    pub input: R,
    // The line that was read last.
    pub line: Vec<u8>,
    pub lines: u64,
    pub refused: u64,
}

impl<R: BufRead> Script<R> {
    // Nothing is read yet.
    pub fn new(heap: Global, input: R) -> Script<R>
        ensures { New input result }
    {
        Script {
            input,
            line: Vec::new(heap),
            lines: 0,
            refused: 0,
        }
    }

    // Reads the next line. False where there is none: an Option of the line would lend the script, and leave the clauses no state after
    // the call to speak of.
    pub fn advance(&mut self) -> io::Result<bool>
        ensures counts { Advances self.old self.new result }
        ensures line { OnOk result (IfSome (R.remaining self.old.input) (λ xs. self.new.line.items ≡ take_through 10 xs)) }
        ensures rest { OnOk result (DropsThrough (R.remaining self.old.input) (R.remaining self.new.input) 10) }
    {
        self.line.clear();
        if self.input.read_until(b'\n', &mut self.line)? == 0 {
            return Ok(false);
        }
        self.lines = self.lines.saturating_add(1);
        Ok(true)
    }

    // Prints what the account says of the line: nothing, a report, or what is wrong with it. One that is wrong is refused.
    pub fn tell<T: fmt::Display + Drop, E: fmt::Display + Drop>(
        &mut self,
        rt: &HostRuntime,
        said: Result<Option<T>, E>,
    ) -> anyhow::Result<()>
        ensures { Tells said self.old self.new }
    {
        match said {
            Ok(None) => Ok(()),
            Ok(Some(report)) => Ok(rt.println(report)?),
            Err(fault) => self.refuse(rt, fault),
        }
    }

    // Counts the line as refused, and prints it with what is wrong.
    pub fn refuse<E: fmt::Display + Drop>(
        &mut self,
        rt: &HostRuntime,
        fault: E,
    ) -> anyhow::Result<()>
        ensures { Refuses self.old self.new }
    {
        self.refused = self.refused.saturating_add(1);
        let number = self.lines;
        let text = String::from_utf8_lossy(rt.alloc(), self.line.trim_ascii())?;
        println!(rt; "line {number}: {text}: {fault}")?;
        Ok(())
    }
}

#[cfg(test)]
mod tests {
    use super::*;
    use std::test::Fail;

    // Each line comes once, those that are refused are counted, and after the last there is none.
    #[test]
    fn counts_lines(rt: HostRuntime) -> Result<(), Fail> {
        let mut script = Script::new(rt.alloc(), b"lay 0 1\nsweep \xff".as_slice());
        assert!(rt; script.advance()?);
        assert_eq!(rt; script.line.as_slice(), b"lay 0 1\n".as_slice());
        script.tell(&rt, Ok::<Option<u8>, &str>(Some(1)))?;
        assert!(rt; script.advance()?);
        script.tell(&rt, Err::<Option<u8>, &str>("unknown command"))?;
        assert!(rt; !script.advance()?);
        assert_eq!(rt; script.lines, 2);
        assert_eq!(rt; script.refused, 1);
        Ok(())
    }
}
