// The printer's bound: at most so many bytes a well-formed record's text has, in one pass over the fields behind its head. It is no measure of the text: it tells
// early that most texts fit.
#![tactic(auto)]

ghost use Rattle.std.specs.Prelude.{◌≡◌, true, ◌+◌};
ghost use Rattle.rules.specs.WellFormed.{well_formed_body};
ghost use Rattle.record_walk.specs.Fields.{length_at};
ghost use Rattle.print_bound.specs.Bounds.{TextWithin, longer_bound, stop_bound, any_bound, is_plain, number_bound, end_bound, other_at, Stands};

use record_walk::{HEADER, LETTER_FIELD, NUMERAL_FIELD, Tag};

// The values below this have one decimal digit.
const TEN: u32 = 10;

// The values below this have four decimal digits at most.
const TEN_THOUSAND: u32 = 10000;

// The values below this have four digits at most in every base.
const SIXTEEN: u32 = 16;

// A decimal digit and a separator.
const ONE_DIGIT: usize = 2;

// Four decimal digits and a separator.
const FOUR_DIGITS: usize = 5;

// The ten decimal digits of the largest value and a separator.
const TEN_DIGITS: usize = 11;

// Four digits, a prefix and a separator.
const FEW_OF_ANY: usize = 7;

// The thirty-two binary digits of the largest value, a prefix and a separator.
const MOST_OF_ANY: usize = 35;

// Four digits, a prefix and `&&-`.
const FEW_OF_END: usize = 9;

// Thirty-two digits, a prefix and `&&-`.
const MOST_OF_END: usize = 37;

// The `:` or `,` before a place, and the `;`.
const SEPARATOR: usize = 1;

// The stop of a numeral and the digits behind it.
fn stop_bound(fraction: u8) -> usize
    ensures { result ≡ stop_bound fraction }
{
    fraction as usize + fraction as usize
}

// A decimal numeral of more than one digit, without a prefix.
fn longer_bound(fraction: u8, value: u32) -> usize
    ensures { result ≡ longer_bound value + stop_bound fraction }
{
    if value < TEN_THOUSAND {
        return FOUR_DIGITS + stop_bound(fraction);
    }
    TEN_DIGITS + stop_bound(fraction)
}

// A numeral of any base.
fn any_bound(fraction: u8, value: u32) -> usize
    ensures { result ≡ any_bound fraction value }
{
    if value < SIXTEEN {
        return FEW_OF_ANY + stop_bound(fraction);
    }
    MOST_OF_ANY
}

// Whether a numeral is decimal, and D its place's base.
fn is_plain(base: u8, letter: u8) -> bool
    ensures { result ≡ is_plain base letter }
{
    base == letter && letter == b'D'
}

// At most so many bytes a numeral has, with a separator before it.
fn number_bound(base: u8, letter: u8, fraction: u8, value: u32) -> usize
    ensures { result ≡ number_bound base letter fraction value }
{
    if is_plain(base, letter) {
        if value < TEN {
            return ONE_DIGIT + stop_bound(fraction);
        }
        return longer_bound(fraction, value);
    }
    any_bound(fraction, value)
}

// At most so many bytes an upper end or an increment has, with its separator.
fn end_bound(value: u32) -> usize
    ensures { result ≡ end_bound value }
{
    if value < SIXTEEN {
        return FEW_OF_END;
    }
    MOST_OF_END
}

// How many bytes the field that stands there has: its content has less than 256.
fn size_at(rec: &[u8], at: usize) -> usize
    requires { Stands rec.now at }
    ensures { result ≡ 3 + length_at rec.now at }
{
    HEADER + rec[at + record_walk::LENGTH] as usize
}

// At most so many bytes are written for a field that is no numeral, no single element and no place.
fn other_bound(rec: &[u8], at: usize) -> usize
    requires { Stands rec.now at }
    ensures { result ≡ other_at rec.now at }
{
    let size = size_at(rec, at);
    let tag = rec[at];
    if tag == Tag::Range as u8 {
        return end_bound(record_walk::number_at(rec, at + record_walk::UPPER))
            + end_bound(record_walk::number_at(rec, at + record_walk::INCREMENT));
    }
    if tag == Tag::String as u8 {
        return size + (size - HEADER);
    }
    size
}

// At most so many bytes the text of a record has that has these bytes behind its head. A `while`, since a field says how far the next one is.
pub fn bound(rec: &[u8]) -> usize
    requires { well_formed_body rec.now ≡ true }
    ensures { TextWithin rec.now result }
{
    let mut at: usize = 0;
    let mut sum: usize = SEPARATOR;
    let mut base: u8 = 0;
    while at < rec.len() {
        let tag = rec[at];
        if tag == Tag::Numeral as u8 {
            sum += number_bound(
                base,
                rec[at + record_walk::LETTER],
                rec[at + record_walk::FRACTION],
                record_walk::number_at(rec, at + record_walk::VALUE),
            );
            at += NUMERAL_FIELD;
        } else if tag == Tag::Single as u8 {
            at += HEADER;
        } else if tag == Tag::Place as u8 {
            sum += SEPARATOR;
            base = rec[at + HEADER];
            at += LETTER_FIELD;
        } else {
            sum += other_bound(rec, at);
            at += size_at(rec, at);
        }
    }
    sum
}
