// Names on the token table: does a place's name stand already among the places of its block before it?
#![tactic(auto)]

ghost use Rattle.std.specs.Prelude.{◌≡◌, true};
ghost use Rattle.laws.specs.Lists.{eq_l};
ghost use Rattle.rules.specs.Commands.{same_name};
ghost use Rattle.token_table.specs.Table.{content_in};
ghost use Rattle.token_table.specs.Parts.{words_in};
ghost use Rattle.marks.specs.Marks.{key_of};
ghost use Rattle.read_names.specs.Names.{name_key, Stands, IsTwice};

use marks::Marks;
use token_table::{Kind, Token};

// From one piece of a name to the next: the piece and the `-` behind it.
const STEP: usize = 2;

// Have two tokens the same content?
fn same_piece(contents: &[u8], t: Token, u: Token) -> bool
    ensures { result ≡ eq_l (content_in contents.now t) (content_in contents.now u) }
{
    marks::same(t.content(contents), u.content(contents))
}

// Are two names equal, piece by piece? Every other token is a piece. The index stays in hand: behind the loop it tells whether the second name goes on.
fn same_name(a: &[Token], b: &[Token], contents: &[u8]) -> bool
    ensures { result ≡ same_name (words_in true contents.now a.now) (words_in true contents.now b.now) }
{
    let mut i: usize = 0;
    while i < a.len() {
        if b.len() <= i {
            return false;
        }
        if !same_piece(contents, a[i], b[i]) {
            return false;
        }
        i += STEP;
    }
    b.len() <= i
}

// Does the name stand among those of these places, each ended by its `,`? From one place to the next is no fixed step.
fn stands(before: &[Token], name: &[Token], contents: &[u8]) -> bool
    ensures { Stands contents.now before.now (words_in true contents.now name.now) result }
{
    let mut i: usize = 0;
    while i < before.len() {
        let equals = token_table::find(before, i, Kind::Equals);
        if same_name(name, &before[i..equals], contents) {
            return true;
        }
        i = token_table::find(before, i, Kind::Comma) + 1;
    }
    false
}

// The key of a name.
pub fn key(name: &[Token], contents: &[u8]) -> u32
    ensures { result ≡ name_key 0 (words_in true contents.now name.now) }
{
    let mut key: u32 = 0;
    for t in name.iter().step_by(STEP) {
        key = marks::key(key, t.content(contents));
    }
    key
}

// Does the name, whose key this is, stand among those of the places of its block before it? It is looked for only where the key is marked.
pub fn is_twice(before: &[Token], name: &[Token], contents: &[u8], marks: Marks, key: u32) -> bool
    ensures { IsTwice contents.now before.now marks key (words_in true contents.now name.now) result }
{
    marks.has(key) && stands(before, name, contents)
}
