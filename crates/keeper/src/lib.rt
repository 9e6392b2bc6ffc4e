// M-100: the line keeper, a key at a time.
#![tactic(auto)]

ghost use Rattle.std.specs.Prelude.{◌≡◌, ◌+◌, ◌≤◌, ◌<◌, length, get_or, take};
ghost use Rattle.rules.specs.Refusals.{ok, bad, no_key, most_text};
ghost use Rattle.rules.specs.Keeping.{ready, settled, after_key};
ghost use Rattle.keeper.specs.Spots.{opened, turned, is_outside, ends_here};

use rules::{Keeper, MOST_TEXT, Pressed, Reason};

// The bytes that a keeper carries.
const MOST: u32 = MOST_TEXT as u32;

// The keys that correct a line.
const BACKSPACE: u8 = 8;

const CANCEL: u8 = 24;

// The byte that makes a line ready.
const END: u8 = b';';

// Where the byte behind a line's bytes would stand: outside string and comment; there, behind a `/`; in a comment; there, behind a `*`;
// in a string.
#[derive(Clone, Copy, Debug, PartialEq, Eq)]
pub enum Spot {
    Outside,
    Slashed,
    InComment,
    Starred,
    InString,
}

impl Spot {
    // The spot behind a byte that stands outside string and comment.
    fn opened(b: u8) -> Spot
        ensures { result ≡ opened b }
    {
        match b {
            b'/' => Spot::Slashed,
            b'"' => Spot::InString,
            _ => Spot::Outside,
        }
    }

    // The spot behind one more byte.
    fn turned(self, b: u8) -> Spot
        ensures { result ≡ turned self b }
    {
        match self {
            Spot::Outside => Spot::opened(b),
            Spot::Slashed => {
                if b == b'*' {
                    return Spot::InComment;
                }
                Spot::opened(b)
            }
            Spot::InComment => {
                if b == b'*' {
                    return Spot::Starred;
                }
                Spot::InComment
            }
            Spot::Starred => {
                if b == b'/' {
                    return Spot::Outside;
                }
                if b == b'*' {
                    return Spot::Starred;
                }
                Spot::InComment
            }
            Spot::InString => {
                if b == b'"' {
                    return Spot::Outside;
                }
                Spot::InString
            }
        }
    }

    // Is it outside string and comment?
    fn is_outside(self) -> bool
        ensures { result ≡ is_outside self }
    {
        matches!(self, Spot::Outside | Spot::Slashed)
    }

    // Does the byte, at this spot, end the line? The byte is asked first, since few are a `;`.
    fn ends(self, b: u8) -> bool
        ensures { result ≡ ends_here self b }
    {
        b == END && self.is_outside()
    }
}

// Whether the line that ends with the `;` at `last` is ready: the walk over the bytes before.
fn ends_first(bytes: &[u8], last: usize) -> bool
    requires { (last < length bytes.now) × (get_or bytes.now last 0 ≡ 59) }
    ensures { result ≡ ready (take (last + 1) bytes.now) }
{
    let mut spot = Spot::Outside;
    for b in &bytes[..last] {
        if spot.ends(*b) {
            return false;
        }
        spot = spot.turned(*b);
    }
    spot.is_outside()
}

// Whether the line of the first `count` bytes is ready. Where its last byte is no `;`, no other byte is looked at.
#[tactic(auto, using(crate::proofs::SpotLaws::none_held, crate::proofs::SpotLaws::last_semi, crate::proofs::SpotLaws::last_other))]
fn is_ready(bytes: &[u8], count: u32) -> bool
    requires { count ≤ length bytes.now }
    ensures { result ≡ ready (take count bytes.now) }
{
    if count == 0 {
        return false;
    }
    let last = count as usize - 1;
    bytes[last] == END && ends_first(bytes, last)
}

// A key was taken: the keeper after it, and whether its line is ready.
fn taken(keeper: Keeper) -> Pressed
    requires { keeper.count ≤ 1024 }
    ensures { result ≡ settled (ok keeper) keeper }
{
    let ready = is_ready(&keeper.bytes, keeper.count);
    let answer = Ok(u32::from(ready));
    Pressed { keeper, answer }
}

// A key was refused: "the line stays".
fn not_taken(keeper: Keeper) -> Pressed
    ensures { result ≡ settled (bad no_key most_text) keeper }
{
    let answer = Err(Reason::NoKey.at(MOST));
    Pressed { keeper, answer }
}

// One key to a line keeper. "The next key starts an empty line": of a ready line it finds no byte.
#[tactic(auto, using(crate::proofs::KeyLaws::key_over, crate::proofs::KeyLaws::key_cancel, crate::proofs::KeyLaws::key_back, crate::proofs::KeyLaws::key_full, crate::proofs::KeyLaws::key_held))]
pub fn key(keeper: Keeper, key: u8) -> Pressed
    ensures { result ≡ after_key keeper key }
{
    let mut after = keeper;
    let count = after.count;
    if MOST < count {
        return not_taken(after);
    }
    if key == CANCEL {
        after.count = 0;
        return taken(after);
    }
    let ready = is_ready(&after.bytes, count);
    let from = if ready { 0 } else { count };
    if key == BACKSPACE {
        after.count = from.saturating_sub(1);
        return taken(after);
    }
    if MOST <= from {
        return not_taken(after);
    }
    after.bytes[from as usize] = key;
    after.count = from + 1;
    taken(after)
}
