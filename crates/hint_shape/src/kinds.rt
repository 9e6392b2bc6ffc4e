// Why a place differs from the first one of its block (9).
ghost use Rattle.std.specs.Prelude.{◌≤◌};

use hint_around::Around;
use hint_phrases::{Hint, Kind, Phrase, plain};

// A numeral with so many digits, the fraction's among them, is within every limit.
const MOST_DIGITS: usize = 9;

// How the place that begins at a token, or is empty and ends with it, differs from the first of its block.
pub fn why_kind<'a>(line: &'a [u8], around: Around) -> Hint<'a> {
    let first = Around {
        at: around.block_start(),
        ..around
    };
    if first.is_named() {
        return unnamed(line, around);
    }
    if first.next_mark() == first.at {
        return plain(Phrase::Kind(Kind::NamedAfterOmitted));
    }
    plain(Phrase::Kind(Kind::Named))
}

// How a place without a name differs from a first one with a name.
fn unnamed<'a>(line: &'a [u8], around: Around) -> Hint<'a> {
    if around.next_mark() == around.at {
        return plain(Phrase::Kind(Kind::Omitted));
    }
    if 2 <= around.at && is_fraction(around) {
        return fraction(line, around);
    }
    plain(Phrase::Kind(Kind::Unnamed))
}

// The token before the comma.
fn whole(around: Around) -> Around
    requires { 2 ≤ around.at }
{
    Around {
        at: around.at - 2,
        ..around
    }
}

// Do decimal digits stand before and behind the comma, in a place of base D?
fn is_fraction(around: Around) -> bool
    requires { 2 ≤ around.at }
{
    is_number(around) && is_number(whole(around)) && whole(around).base() == b'D'
}

// Is a token a word of decimal digits?
fn is_number(around: Around) -> bool {
    around.kind() == Some(token_table::Kind::Word) && units::all_decimal(around.content(), 0)
}

// A comma for a full stop, and the fraction that was meant, where that can be told.
fn fraction<'a>(line: &'a [u8], around: Around) -> Hint<'a>
    requires { 2 ≤ around.at }
{
    match meant(line, around) {
        Some(stretches) => Hint {
            stretches,
            ..plain(Phrase::Kind(Kind::Fraction))
        },
        None => plain(Phrase::Kind(Kind::Comma)),
    }
}

// What stands before and behind the comma, where both places are a numeral each, few digits in all, with nothing between their bytes.
fn meant<'a>(line: &'a [u8], around: Around) -> Option<(&'a [u8], &'a [u8])>
    requires { 2 ≤ around.at }
{
    let whole = whole(around);
    let name = Around {
        at: whole.place_start(),
        ..around
    };
    let comma = Around {
        at: around.at - 1,
        ..around
    };
    let part = around.content();
    if !is_short(whole.content().len(), part.len()) || !stands_alone(around) {
        return None;
    }
    let before = line.get(name.place()?..comma.place()?)?;
    let joint = line.get(name.place()?..around.place()?)?;
    let behind = line.get(around.place()?..)?.get(..part.len())?;
    if is_plain(joint) && is_plain(behind) {
        Some((before, behind))
    } else {
        None
    }
}

// Are so many digits before and behind the full stop few?
fn is_short(whole: usize, part: usize) -> bool {
    whole <= MOST_DIGITS && part <= MOST_DIGITS - whole
}

// Is the token a whole place, and is the one before the comma a whole value?
fn stands_alone(around: Around) -> bool {
    let end = around.next_mark();
    around.kind_before(3) == Some(token_table::Kind::Equals)
        && around.at < end
        && end - around.at == 1
}

// Does each byte stand in a name, a `=`, a numeral or a comma?
fn is_plain(bytes: &[u8]) -> bool {
    bytes.iter().all(|b| digits::is_alnum(*b) || matches!(*b, b'-' | b'=' | b','))
}
