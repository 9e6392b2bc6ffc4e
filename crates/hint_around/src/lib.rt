// What stands around a token of the table: its neighbours, and the value, the place and the block that hold it.
#![tactic(auto)]

use token_table::{Kind, Token};

// The base of the code, and of the places past the end of the list.
const DECIMAL: u8 = b'D';

// A token of a table, or its end: the tokens, their contents, the base letters of the places, and the token's index.
#[derive(Clone, Copy)]
pub struct Around<'a> {
    pub toks: &'a [Token],
    pub contents: &'a [u8],
    pub bases: &'a [u8],
    pub at: usize,
}

// The index of the token that begins at a place of the text, or the table's length.
pub fn index_at(toks: &[Token], place: u32) -> usize {
    toks.iter()
        .position(|t| t.place() == place)
        .unwrap_or(toks.len())
}

impl<'a> Around<'a> {
    // The kind of the token.
    pub fn kind(self) -> Option<Kind> {
        self.kind_before(0)
    }

    // The kind of the token that stands `back` tokens before it.
    pub fn kind_before(self, back: usize) -> Option<Kind> {
        let i = self.at.checked_sub(back)?;
        Some(self.toks.get(i)?.kind)
    }

    // Is it a unit: a word or a string?
    pub fn is_unit(self) -> bool {
        matches!(self.kind(), Some(Kind::Word | Kind::String))
    }

    // Its place in the text, none at the table's end.
    pub fn place(self) -> Option<usize> {
        Some(self.toks.get(self.at)?.place() as usize)
    }

    // Its content, a word's characters or a string's bytes; none at the table's end.
    pub fn content(self) -> &'a [u8] {
        match self.toks.get(self.at) {
            Some(t) => t.content(self.contents),
            None => b"",
        }
    }

    // The tokens before it.
    fn before(self) -> &'a [Token] {
        self.toks.get(..self.at).unwrap_or(self.toks)
    }

    // Which place of the command holds it, or ends with it: the first is 1, and 0 is the code.
    pub fn place_number(self) -> usize {
        let begun = self
            .before()
            .iter()
            .filter(|t| matches!(t.kind, Kind::Comma | Kind::Colon));
        begun.count()
    }

    // The base letter of its place.
    pub fn base(self) -> u8 {
        let n = self.place_number();
        if n == 0 {
            return DECIMAL;
        }
        *self.bases.get(n - 1).unwrap_or(&DECIMAL)
    }

    // Where the stretch begins that holds it: behind the last token before it of one of these kinds.
    fn behind(self, ends: &[Kind]) -> usize {
        match self.before().iter().rposition(|t| ends.contains(&t.kind)) {
            Some(end) => end + 1,
            None => 0,
        }
    }

    // The first token of the value that holds it: behind the last `,`, `:` or `=`.
    pub fn value_start(self) -> usize {
        self.behind(&[Kind::Comma, Kind::Colon, Kind::Equals])
    }

    // The first token of the place that holds it, or ends with it.
    pub fn place_start(self) -> usize {
        self.behind(&[Kind::Comma, Kind::Colon])
    }

    // The first token of the block that holds it.
    pub fn block_start(self) -> usize {
        self.behind(&[Kind::Colon])
    }

    // The first token from it on that is a `,`, `:`, `=` or `;`: what ends a value, or a name.
    pub fn next_mark(self) -> usize {
        let Some(rest) = self.toks.get(self.at..) else {
            return self.at;
        };
        let ends = [Kind::Comma, Kind::Colon, Kind::Equals, Kind::Semicolon];
        let mark = rest.iter().position(|t| ends.contains(&t.kind));
        self.at + mark.unwrap_or(rest.len())
    }

    // Has the place that begins with it a name?
    pub fn is_named(self) -> bool {
        match self.toks.get(self.next_mark()) {
            Some(mark) => mark.kind == Kind::Equals,
            None => false,
        }
    }
}
