// Cuts a line at its commas.
ghost use Rattle.std.specs.Prelude.{◌≡◌, ◌∷◌};
ghost use Rattle.std.specs.Iterator.{YieldsFirstRef, item_count};
ghost use Rattle.std.specs.List.{position};
ghost use Rattle.std.specs.Option.{option_map};
ghost use Rattle.command.specs.Tokens.{tokens};
ghost use Rattle.tables.specs.Fields.{comma, fields, field_number, heading, lone, empty};
ghost use Rattle.tables.specs.Left.{fields_after, fields_left};

use command::{Cursor, read_number};

// The fields of a line that were not taken yet.
#[derive(Drop)]
pub(crate) struct Fields<'a> {
    rest: Option<&'a [u8]>,
}

impl<'a> Iterator for Fields<'a> {
    type Item = &'a [u8];

    ghost next_gives = { YieldsFirstRef fields_left };

    ghost remaining = { item_count fields_left };

    // Takes the next field, or answers None where the line has no more.
    fn next(&mut self) -> Option<&'a [u8]> {
        let (field, after) = first_field(self.rest?);
        self.rest = after;
        Some(field)
    }
}

// The fields after a line's first, where it has others.
pub(crate) fn fields_of(rest: Option<&[u8]>) -> Fields
    ensures { fields_left result ≡ fields_after rest.entry }
{
    Fields { rest }
}

// A line's first field, and what comes after its comma, where it has one.
#[tactic(auto, using(crate::proofs::Cuts::cutting))]
pub(crate) fn first_field(line: &[u8]) -> (&[u8], Option<&[u8]>)
    ensures { fields line.now ≡ result.0.now ∷ fields_after result.1 }
{
    match first_comma(line) {
        None => (line, None),
        Some(i) => {
            let (field, rest) = line.split_at(i);
            let (_, after) = rest.split_at(1);
            (field, Some(after))
        }
    }
}

// Where the first comma stands, or None where there is none.
fn first_comma(text: &[u8]) -> Option<usize>
    ensures { result ≡ position comma text.now }
{
    text.iter().position(|byte| *byte == b',')
}

// The number that a field writes, with blanks around it or none; None where it writes anything else.
pub(crate) fn field_number(field: &[u8]) -> Option<u32>
    ensures { result ≡ field_number field.now }
{
    read_number(lone_token(field)?)
}

// Whether a field is the word that a heading begins with.
pub(crate) fn is_heading(field: &[u8]) -> bool
    ensures { result ≡ heading field.now }
{
    match lone_token(field) {
        Some(token) => token == b"place".as_slice(),
        None => false,
    }
}

// What stands in a field between blanks, where it is one thing alone.
fn lone_token(field: &[u8]) -> Option<&[u8]>
    ensures { option_map (λ t. t.now) result ≡ lone (tokens field.now) }
{
    let mut cursor = Cursor::new(field);
    let token = cursor.next()?;
    match cursor.next() {
        None => Some(token),
        Some(_) => None,
    }
}

// Whether a text is empty, or all blanks.
pub(crate) fn is_empty(text: &[u8]) -> bool
    ensures { result ≡ empty text.now }
{
    Cursor::new(text).next().is_none()
}
