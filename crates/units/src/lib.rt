// One word under its place's base: a numeral, a keyed numeral, an identifier or a symbolic name, or why it is none (12, 13).
#![tactic(auto)]

ghost use Rattle.std.specs.Prelude.{◌≡◌, ℕ, ◌<◌, ◌≤◌, length, get_or, drop, eqb};
ghost use Rattle.laws.specs.Lists.{all_at};
ghost use Rattle.rules.specs.Characters.{byte, is_digit, is_alnum, is_symbol_char};
ghost use Rattle.rules.specs.Units.{is_key, is_identifier, is_symbolic_name, numeral, base_at};
ghost use Rattle.units.specs.Words.{refused_with, sized, of_numeral, fraction_unit, plain_unit, name_unit, or_name, may_stand, prefix_unit, unit_under};

use rules::{Reason, Refusal};

// What a word is. A numeral has its base's letter, its count of fraction digits and the whole number without the stop; a keyed numeral is
// the capitals of the word without its first `skip` characters.
#[derive(Clone, Copy, Debug, PartialEq, Eq)]
pub enum Word {
    Numeral {
        letter: u8,
        fraction: u8,
        value: u32,
    },
    Keyed {
        skip: usize,
    },
    Identifier,
    Symbolic,
}

// Why a word is none: it has no reading (12), or its numeral is too big (13).
#[derive(Clone, Copy, Debug, PartialEq, Eq)]
pub enum Fault {
    Unreadable,
    TooBig,
}

impl Fault {
    // The refusal of the word that stands at a place of the text.
    pub fn at(self, place: u32) -> Refusal
        ensures { result ≡ refused_with self place }
    {
        match self {
            Fault::Unreadable => Reason::Unreadable.at(place),
            Fault::TooBig => Reason::TooBig.at(place),
        }
    }
}

// A numeral, if its value and its fraction are within the limits.
#[tactic(auto, unfolding(crate::specs::Words::sized))]
fn sized_unit(letter: u8, fraction: usize, value: u64) -> Result<Word, Fault>
    ensures { result ≡ sized letter fraction value }
{
    if rules::MOST_VALUE < value || rules::MOST_FRACTION < fraction {
        return Err(Fault::TooBig);
    }
    Ok(Word::Numeral {
        letter,
        fraction: fraction as u8,
        value: value as u32,
    })
}

// A decimal numeral with whole digits of value `whole` before `at`: the full stop must stand there, and digits to the word's end behind it.
#[tactic(auto, unfolding(crate::specs::Words::fraction_unit))]
fn fraction_unit(word: &[u8], at: usize, letter: u8, whole: u64) -> Result<Word, Fault>
    requires { at < length word.now }
    ensures { result ≡ fraction_unit letter word.now at whole }
{
    if word[at] != b'.' {
        return Err(Fault::Unreadable);
    }
    let rest = digits::digits(word, at + 1, 10, whole);
    if rest.end < word.len() || rest.end <= at + 1 {
        return Err(Fault::Unreadable);
    }
    sized_unit(letter, rest.end - (at + 1), rest.value)
}

// A numeral of D, H, O or B from `from` on.
#[tactic(auto, unfolding(crate::specs::Words::plain_unit))]
fn plain_unit(word: &[u8], from: usize, letter: u8) -> Result<Word, Fault>
    ensures { result ≡ plain_unit letter word.now from }
{
    let base = digits::size(letter);
    let run = digits::digits(word, from, base, 0);
    if run.end <= from {
        return Err(Fault::Unreadable);
    }
    if word.len() <= run.end {
        return sized_unit(letter, 0, run.value);
    }
    if base == 10 {
        fraction_unit(word, run.end, letter, run.value)
    } else {
        Err(Fault::Unreadable)
    }
}

// Whether all characters from `from` on are decimal digits.
pub fn all_decimal(word: &[u8], from: usize) -> bool
    ensures { result ≡ all_at is_digit word.now from }
{
    word.iter().skip(from).all(|b| digits::is_digit(*b))
}

// A numeral's characters from `from` on, in the base of a letter, where they are one.
pub fn numeral_unit(word: &[u8], from: usize, letter: u8) -> Result<Word, Fault>
    ensures { result ≡ of_numeral letter from (numeral (base_at letter) (drop from word.now)) }
{
    if letter != b'K' {
        return plain_unit(word, from, letter);
    }
    if from < word.len() && word[from..].iter().all(|b| digits::is_key(*b)) {
        Ok(Word::Keyed { skip: from })
    } else {
        Err(Fault::Unreadable)
    }
}

// Rule 3: it starts with a letter and has only letters and digits.
pub fn is_identifier(word: &[u8]) -> bool
    ensures { result ≡ is_identifier word.now }
{
    match word.split_first() {
        Some((first, rest)) => digits::is_letter(*first)
            && rest.iter().all(|b| digits::is_alnum(*b)),
        None => false,
    }
}

// Rule 4: it has only characters of symbolic names, and at least one that is no digit.
pub fn is_symbolic(word: &[u8]) -> bool
    ensures { result ≡ is_symbolic_name word.now }
{
    word.iter().all(|b| digits::is_sign(*b)) && !all_decimal(word, 0)
}

// Rules 3 to 5: a word that is no numeral.
#[tactic(auto, unfolding(crate::specs::Words::name_unit))]
fn name_unit(word: &[u8]) -> Result<Word, Fault>
    ensures { result ≡ name_unit word.now }
{
    if is_identifier(word) {
        Ok(Word::Identifier)
    } else if is_symbolic(word) {
        Ok(Word::Symbolic)
    } else {
        Err(Fault::Unreadable)
    }
}

// Whether the word starts with a decimal digit.
fn starts_decimal(word: &[u8]) -> bool
    ensures { result ≡ is_digit (get_or word.now 0 0) }
{
    !word.is_empty() && digits::is_digit(word[0])
}

// Rule 2: a numeral of its place's base. Under D a word without a digit at its start is none, and needs no reading.
fn base_unit(word: &[u8], base: u8) -> Result<Word, Fault>
    ensures { result ≡ of_numeral base 0 (numeral (base_at base) word.now) }
{
    if base == b'D' && !starts_decimal(word) {
        return Err(Fault::Unreadable);
    }
    numeral_unit(word, 0, base)
}

// Rules 2 to 5: a word without prefix.
fn bare_unit(word: &[u8], base: u8) -> Result<Word, Fault>
    ensures { result ≡ or_name word.now (of_numeral base 0 (numeral (base_at base) word.now)) }
{
    match base_unit(word, base) {
        Err(Fault::Unreadable) => name_unit(word),
        read => read,
    }
}

// Whether a numeral with this prefix may stand under the base: under K only K.
#[tactic(auto, unfolding(crate::specs::Words::may_stand))]
fn may_stand(base: u8, letter: u8) -> bool
    ensures { result ≡ may_stand base letter }
{
    letter == b'K' || base != b'K' && digits::plain_letter(letter)
}

// Rule 1: a word whose second character is the mark; the letter before it may be small.
#[tactic(auto, unfolding(crate::specs::Words::prefix_unit))]
fn prefix_unit(word: &[u8], base: u8) -> Result<Word, Fault>
    requires { 2 ≤ length word.now }
    ensures { result ≡ prefix_unit base word.now }
{
    let letter = digits::capital_of(word[0]);
    if may_stand(base, letter) {
        numeral_unit(word, digits::PREFIX, letter)
    } else {
        Err(Fault::Unreadable)
    }
}

// Whether the word's second character is the mark.
fn is_prefixed(word: &[u8]) -> bool
    ensures { result ≡ eqb (get_or word.now 1 0) (byte "'") }
{
    digits::PREFIX <= word.len() && word[1] == b'\''
}

// Rules 1 to 5: any word.
#[tactic(auto, unfolding(crate::specs::Words::unit_under))]
fn any_unit(word: &[u8], base: u8) -> Result<Word, Fault>
    ensures { result ≡ unit_under base word.now }
{
    if is_prefixed(word) {
        prefix_unit(word, base)
    } else {
        bare_unit(word, base)
    }
}

// What the word is under the base of its place's letter. Most words are decimal digits under D: those are read at once, and two calls of
// `any_unit` keep it a function of its own, so that this one is small enough to become part of its callers.
#[inline]
pub fn read_word(word: &[u8], base: u8) -> Result<Word, Fault>
    ensures { result ≡ unit_under base word.now }
{
    if base == b'D' {
        let run = digits::digits(word, 0, 10, 0);
        if word.len() <= run.end && !word.is_empty() {
            return sized_unit(b'D', 0, run.value);
        }
        return any_unit(word, b'D');
    }
    any_unit(word, base)
}
