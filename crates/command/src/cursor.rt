// Cuts a line into its tokens, one at a time.
ghost use Rattle.std.specs.Prelude.{◌≡◌};
ghost use Rattle.std.specs.Iterator.{YieldsFirstRef, item_count};
ghost use Rattle.std.specs.List.{position, prefix_len};
ghost use Rattle.std.specs.Option.{option_map};
ghost use Rattle.command.specs.Cursors.{tokens_left};
ghost use Rattle.command.specs.Lines.{naming};
ghost use Rattle.command.specs.Tokens.{blank, solid, tokens};

// What is left of a line after the tokens that were taken from it.
#[derive(Drop)]
pub struct Cursor<'a> {
    rest: &'a [u8],
}

impl<'a> Cursor<'a> {
    // A cursor at the first token of a text.
    pub fn new(text: &'a [u8]) -> Cursor<'a>
        ensures { tokens_left result ≡ tokens text.now }
    {
        Cursor { rest: text }
    }
}

impl<'a> Iterator for Cursor<'a> {
    type Item = &'a [u8];

    ghost next_gives = { YieldsFirstRef tokens_left };

    ghost remaining = { item_count tokens_left };

    // Takes the next token, or answers None where only blanks are left.
    #[tactic(auto, using(crate::proofs::Cuts::cutting))]
    fn next(&mut self) -> Option<&'a [u8]> {
        let (_, text) = self.rest.split_at(token_start(self.rest)?);
        let (token, rest) = text.split_at(token_length(text));
        self.rest = rest;
        Some(token)
    }
}

// A line's first token and a cursor at those after it, or None where the line has no token, or where its first begins with '#'.
pub fn name_of(line: &[u8]) -> Option<(&[u8], Cursor)>
    ensures { option_map (λ n. (n.0.now, tokens_left n.1)) result ≡ naming (tokens line.now) }
{
    let mut cursor = Cursor { rest: line };
    match cursor.next() {
        None | Some([b'#', ..]) => None,
        Some(name) => Some((name, cursor)),
    }
}

// Where the first byte that is no blank stands, or None where there is none.
fn token_start(text: &[u8]) -> Option<usize>
    ensures { result ≡ position solid text.now }
{
    text.iter().position(|byte| !is_blank(*byte))
}

// How many bytes stand in front of the first blank.
fn token_length(text: &[u8]) -> usize
    ensures { result ≡ prefix_len solid text.now }
{
    text.iter().take_while(|byte| !is_blank(**byte)).count()
}

// A space, a tab, a newline or a carriage return.
fn is_blank(byte: u8) -> bool
    ensures { result ≡ blank byte }
{
    byte == b' ' || byte == b'\t' || byte == b'\n' || byte == b'\r'
}
