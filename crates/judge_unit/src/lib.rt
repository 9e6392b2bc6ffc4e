// One unit field of a record judged: whether its unit would be read as that kind under its place's base.
#![tactic(auto)]

ghost use Rattle.std.specs.Prelude.{◌≡◌, true, false, ◌+◌, ◌≤◌, length};
ghost use Rattle.rules.specs.Characters.{is_permitted, is_word_char};
ghost use Rattle.rules.specs.Units.{is_held_key, numeral, keyed, identifier, symbolic, text, base_at, radix_at, is_identifier};
ghost use Rattle.rules.specs.Records.{numeral_tag};
ghost use Rattle.rules.specs.WellFormed.{is_none, wf_unit, ok_fraction};
ghost use Rattle.digits.specs.Digits.{plain_letter};
ghost use Rattle.std.specs.Bool.{then_some};
ghost use Rattle.record_walk.specs.Fields.{length_at};
ghost use Rattle.record_walk.specs.Tags.{number};
ghost use Rattle.record_walk.specs.Runs.{bytes_in};
ghost use Rattle.judge_unit.specs.Units.{ok_at, stands_as, numeral_stands, unit_stands, decimal_at, IsUnit};

use record_walk::{Field, Tag};

// A decimal numeral's field begins with these four bytes: its tag, its length, the letter D.
const DECIMAL: u32 = 117442116;

// A character of words, `+` apart.
fn is_word_char(b: u8) -> bool
    ensures { result ≡ is_word_char b }
{
    digits::is_alnum(b) || matches!(b, b'#' | b'%' | b'.' | b'\'' | b'*')
}

// Whether all are characters of words, and no `+` follows a `+`.
fn no_double(word: &[u8]) -> bool
    ensures { result ≡ ok_at false word.now 0 }
{
    let mut plus = false;
    for &b in word {
        if is_word_char(b) {
            plus = false;
        } else if b == b'+' && !plus {
            plus = true;
        } else {
            return false;
        }
    }
    true
}

// A byte that a text may have: 9 to 13 and 32 to 126.
fn is_permitted(b: u8) -> bool
    ensures { result ≡ is_permitted b }
{
    matches!(b, b' '..=b'~') || matches!(b, 9..=13)
}

// Whether the word is no numeral of the base.
fn no_numeral(word: &[u8], base: u8) -> bool
    ensures { result ≡ is_none (numeral (base_at base) word.now) }
{
    matches!(
        units::numeral_unit(word, 0, base),
        Err(units::Fault::Unreadable)
    )
}

// Whether an identifier is no numeral of the base: without asking, where no letter is a digit.
fn is_no_numeral(word: &[u8], base: u8) -> bool
    requires { is_identifier word.now ≡ true }
    ensures { result ≡ is_none (numeral (base_at base) word.now) }
{
    !matches!(base, b'H' | b'K') || no_numeral(word, base)
}

// Whether the content may stand as a keyed numeral, which any base allows: keyed digits as records hold them, no letter small.
fn keyed_stands(word: &[u8], base: u8) -> bool
    ensures { result ≡ wf_unit (base_at base) (keyed word.now) }
{
    1 <= word.len()
        && word.len() <= rules::MOST_WORD
        && word.iter().all(|b| digits::is_held_key(*b))
}

// Whether the content may stand as an identifier.
fn identifier_stands(word: &[u8], base: u8) -> bool
    ensures { result ≡ wf_unit (base_at base) (identifier word.now) }
{
    word.len() <= rules::MOST_WORD && units::is_identifier(word) && is_no_numeral(word, base)
}

// Whether the content may stand as a symbolic name.
fn symbol_stands(word: &[u8], base: u8) -> bool
    ensures { result ≡ wf_unit (base_at base) (symbolic word.now) }
{
    word.len() <= rules::MOST_WORD
        && !units::is_identifier(word)
        && units::is_symbolic(word)
        && no_numeral(word, base)
        && no_double(word)
}

// Whether the content may stand as a string, which any base allows.
fn text_stands(word: &[u8], base: u8) -> bool
    ensures { result ≡ wf_unit (base_at base) (text word.now) }
{
    word.len() <= rules::MOST_STRING && word.iter().all(|b| is_permitted(*b))
}

// Whether the content may stand as the unit of the tag, for the kinds that are their characters.
#[tactic(auto, unfolding(crate::specs::Units::stands_as))]
fn stands(tag: Tag, word: &[u8], base: u8) -> bool
    ensures { result ≡ stands_as (number tag) base word.now }
{
    match tag {
        Tag::Keyed => keyed_stands(word, base),
        Tag::Identifier => identifier_stands(word, base),
        Tag::Symbolic => symbol_stands(word, base),
        Tag::String => text_stands(word, base),
        _ => false,
    }
}

// Only a decimal numeral has fraction digits.
fn fraction_stands(letter: u8, fraction: u8) -> bool
    requires { plain_letter letter ≡ true }
    ensures { result ≡ ok_fraction (radix_at letter) fraction }
{
    fraction == 0 || letter == b'D' && fraction as usize <= rules::MOST_FRACTION
}

// Whether a numeral of the letter, with so many fraction digits, may stand.
#[tactic(auto, unfolding(crate::specs::Units::numeral_stands))]
fn numeral_stands(base: u8, letter: u8, fraction: u8) -> bool
    ensures { result ≡ numeral_stands base letter fraction }
{
    base != b'K' && digits::plain_letter(letter) && fraction_stands(letter, fraction)
}

// Whether a unit may stand as this field.
fn content_stands(rec: &[u8], field: Field, base: u8) -> bool
    requires { (field.start ≤ field.next) × (field.next ≤ length rec.now) × (number field.tag ≡ numeral_tag → field.next ≡ field.start + 6) }
    ensures { result ≡ unit_stands (base_at base) (number field.tag) (bytes_in rec.now field.start field.next) }
{
    match field.tag {
        Tag::Numeral => numeral_stands(base, rec[field.start], rec[field.start + 1]),
        tag => stands(tag, &rec[field.start..field.next], base),
    }
}

// Whether a unit's field stands there that may.
fn any_unit(rec: &[u8], at: usize, base: u8) -> bool
    requires { at ≤ length rec.now }
    ensures { IsUnit (base_at base) rec.now at (then_some result (at + 3 + length_at rec.now at)) }
{
    let Some(field) = record_walk::field_at(rec, at) else {
        return false;
    };
    content_stands(rec, field, base)
}

// Where the unit's field ends, if it may stand.
fn end_of(rec: &[u8], at: usize, stands: bool) -> Option<usize>
    requires { stands ≡ true → at + 3 + length_at rec.now at ≤ length rec.now }
    ensures { result ≡ then_some stands (at + 3 + length_at rec.now at) }
{
    if stands {
        Some(at + record_walk::field_end(rec[at + 1], rec[at + 2]))
    } else {
        None
    }
}

// Whether a decimal numeral's field stands there.
#[tactic(auto, unfolding(crate::specs::Units::decimal_at))]
fn is_decimal(rec: &[u8], at: usize) -> bool
    requires { at ≤ length rec.now }
    ensures { result ≡ decimal_at rec.now at }
{
    at + record_walk::NUMERAL_FIELD <= rec.len()
        && record_walk::number_at(rec, at) == DECIMAL
        && fraction_stands(b'D', rec[at + record_walk::FRACTION])
}

// Where the unit's field that stands there ends, under the base of its place's letter, if a unit stands there that may. Most are decimal numerals.
pub fn unit_end(rec: &[u8], at: usize, base: u8) -> Option<usize>
    requires { at ≤ length rec.now }
    ensures { IsUnit (base_at base) rec.now at result }
{
    if base == b'K' {
        return end_of(rec, at, any_unit(rec, at, b'K'));
    }
    if is_decimal(rec, at) {
        return Some(at + record_walk::NUMERAL_FIELD);
    }
    end_of(rec, at, any_unit(rec, at, base))
}
