// Cuts a text into the lines that say something.
ghost use Rattle.std.specs.Prelude.{◌≡◌, ◌+◌, ◌<◌, length, drop};
ghost use Rattle.std.specs.List.{prefix_len};
ghost use Rattle.command.specs.Lines.{naming};
ghost use Rattle.command.specs.Tokens.{tokens};
ghost use Rattle.std.specs.Iterator.{YieldsFirstBy, item_count};
ghost use Rattle.description.specs.Cuts.{said, lines_left};
ghost use Rattle.description.specs.Lines.{said_after, with_line, inside};

use crate::rest::Rest;
use command::{Cursor, name_of};

// A line that is no remark and not blank: its number in the text, counted from 1, its first token, and those after it.
#[derive(Drop)]
pub struct Line<'a> {
    pub number: usize,
    pub name: &'a [u8],
    pub arguments: Cursor<'a>,
}

// The lines of a text, from its start on.
pub fn lines(text: &[u8]) -> Rest
    ensures { lines_left result ≡ said_after 0 text.now }
{
    Rest { text, taken: 0 }
}

impl<'a> Iterator for Rest<'a> {
    type Item = Line<'a>;

    ghost next_gives = { YieldsFirstBy said lines_left };

    ghost remaining = { item_count lines_left };

    // Takes the next line, or answers None where only blank lines and remarks are left.
    #[tactic(auto, using(crate::proofs::Cutting::said_end))]
    fn next(&mut self) -> Option<Line<'a>> {
        while !self.text.is_empty() {
            let line = self.cut();
            if let Some((name, arguments)) = name_of(line) {
                return Some(Line {
                    number: self.taken,
                    name,
                    arguments,
                });
            }
        }
        None
    }
}

impl<'a> Rest<'a> {
    // Takes the first line, whatever it says, and the newline behind it.
    #[tactic(auto, using(crate::proofs::Cutting::cutting))]
    fn cut(&mut self) -> &'a [u8]
        requires { 0 < length self.old.text.now }
        ensures first { lines_left self.old ≡ with_line self.new.taken (naming (tokens result.now)) (lines_left self.new) }
        ensures shorter { length self.new.text.now < length self.old.text.now }
    {
        let (line, rest) = self.text.split_at(line_length(self.text));
        *self = Rest {
            text: past_first(rest),
            taken: self.taken + 1,
        };
        line
    }
}

// The text without its first byte.
fn past_first(text: &[u8]) -> &[u8]
    ensures { result.now ≡ drop 1 text.now }
{
    match text {
        [] => text,
        [_, rest @ ..] => rest,
    }
}

// How many bytes stand in front of the first newline.
fn line_length(text: &[u8]) -> usize
    ensures { result ≡ prefix_len inside text.now }
{
    text.iter().take_while(|byte| **byte != b'\n').count()
}
