use std::fmt;

// An error that is printed in one line, with its causes.
#[derive(Drop)]
pub struct OneLine(pub anyhow::Error);

impl fmt::Debug for OneLine {
    fn fmt<W: fmt::Write>(&self, f: &mut fmt::Formatter<W>) -> fmt::Result {
        write!(f, "{:#}", self.0)
    }
}

impl fmt::Display for OneLine {
    fn fmt<W: fmt::Write>(&self, f: &mut fmt::Formatter<W>) -> fmt::Result {
        write!(f, "{:#}", self.0)
    }
}
