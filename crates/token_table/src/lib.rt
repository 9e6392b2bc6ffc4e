// The token table: a token has its kind, its place in the text, and where its content starts in the contents and its length; the tokens
// up to a separator, and the words of a code or of a name.
#![tactic(auto)]

ghost use Rattle.std.specs.Prelude.{◌<◌, ◌+◌, ◌≡◌, true, length, drop};
ghost use Rattle.token_table.specs.Table.{number, place_in, start_in, end_in, fits_kind, Alternates, content_in};
ghost use Rattle.token_table.specs.Parts.{before, place_or, capped, words_size, words_in};

use rules::{Reason, Refusal};

// The bytes of a field before its content: tag and length.
const HEAD: u64 = record_walk::HEADER as u64;

// The kinds of tokens: the separators in the paper's order, the first six those that join units; then a word and a string.
#[derive(Clone, Copy, Debug, PartialEq, Eq, PartialOrd, Ord)]
pub enum Kind {
    // `&&-`
    AmpAmpDash,
    // `&&`
    AmpAmp,
    // `&-`
    AmpDash,
    // `&`
    Amp,
    // `++`
    PlusPlus,
    // `-`
    Dash,
    // `,`
    Comma,
    // `:`
    Colon,
    // `=`
    Equals,
    // `;`
    Semicolon,
    // A word.
    Word,
    // A string.
    String,
}

impl Kind {
    // May a token of this kind stand where a unit is wanted, or else where a joining separator is?
    fn fits(self, unit: bool) -> bool
        ensures { result ≡ fits_kind unit (number self) }
    {
        if unit {
            Kind::Word <= self
        } else {
            self <= Kind::Dash
        }
    }
}

// A token: its kind, its place in the text, and its content, `len` bytes from `start` on.
#[derive(Clone, Copy, Debug, PartialEq, Eq)]
pub struct Token {
    pub kind: Kind,
    pub place: u16,
    pub start: u16,
    pub len: u16,
}

impl Token {
    // The token of a kind at a place, whose content is `len` bytes from `start` on.
    pub fn new(kind: Kind, place: usize, start: usize, len: usize) -> Self
        requires { (place < 65536) × (start < 65536) × (len < 65536) }
        ensures { result ≡ record { kind = kind; place = place; start = start; len = len } }
    {
        Token {
            kind,
            place: place as u16,
            start: start as u16,
            len: len as u16,
        }
    }

    // The place of a token in the text.
    pub fn place(self) -> u32
        ensures { result ≡ place_in self }
    {
        u32::from(self.place)
    }

    // Where a token's content starts, kept inside contents of `size` bytes.
    pub fn start(self, size: usize) -> usize
        ensures { result ≡ start_in self size }
    {
        size.min(usize::from(self.start))
    }

    // Where a token's content ends, kept inside contents of `size` bytes.
    pub fn end(self, size: usize) -> usize
        ensures { result ≡ end_in self size }
    {
        size.min(usize::from(self.start) + usize::from(self.len))
    }

    // A token's content.
    pub fn content(self, contents: &[u8]) -> &[u8]
        ensures value { result.now ≡ content_in contents.now self }
        ensures small { length result.now < 65536 }
    {
        &contents[self.start(contents.len())..self.end(contents.len())]
    }
}

// 11: do units and joining separators alternate, beginning and ending with a unit?
pub fn alternates(toks: &[Token], end: u32) -> Result<(), Refusal>
    ensures { Alternates toks.now end result }
{
    let mut unit = true;
    for t in toks {
        if !t.kind.fits(unit) {
            return Err(Reason::WrongShape.at(t.place()));
        }
        unit = !unit;
    }
    if unit {
        return Err(Reason::WrongShape.at(end));
    }
    Ok(())
}

// The index of the first token of this kind from `from` on; where there is none, the table's length.
pub fn find(toks: &[Token], from: usize, wanted: Kind) -> usize
    ensures { result ≡ from + before (number wanted) (drop from toks.now) }
{
    let Some(rest) = toks.get(from..) else {
        return from;
    };
    let stop = rest.iter().position(|t| t.kind == wanted);
    from + stop.unwrap_or(rest.len())
}

// The place of the token at this index; where there is none, `end`, the place of the separator behind the table.
pub fn place_at(toks: &[Token], at: usize, end: u32) -> u32
    ensures { result ≡ place_or (drop at toks.now) end }
{
    match toks.get(at) {
        Some(t) => t.place(),
        None => end,
    }
}

// A size, kept within what an answer holds.
pub fn cap(size: u64) -> u32
    ensures { result ≡ capped size }
{
    u32::try_from(size).unwrap_or(u32::MAX)
}

// The bytes of the fields of a code's or a name's pieces: every other token is a piece.
pub fn pieces_len(toks: &[Token], contents: &[u8]) -> u32
    ensures { result ≡ capped (words_size (words_in true contents.now toks.now)) }
{
    let mut size: u32 = 0;
    for t in toks.iter().step_by(2) {
        size = cap(size as u64 + HEAD + t.content(contents).len() as u64);
    }
    size
}
