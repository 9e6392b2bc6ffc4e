// A value's part of the token table, unit by unit: the n-th unit is token 2n, the separator before it is token 2n - 1.
#![tactic(auto)]

ghost use Rattle.std.specs.Prelude.{◌≡◌, ◌≤◌};
ghost use Rattle.token_table.specs.Table.{number};
ghost use Rattle.read_joins.specs.Joins.{joins_in, join_kind, count as count_of, sep_kind, sep_place, unit_place, begins_kind};
ghost use Rattle.read_joins.specs.Answers.{next_of, more_of, unit_end, end_at, both_ends, step_end, ArgEnd, NoMore};

use rules::{Reason, Refusal};
use token_table::{Kind, Token};
use units::{Fault, Word};

// A unit as the end of a range: a numeral without fraction, by how many digits its base has and its value.
#[derive(Clone, Copy, Debug, PartialEq, Eq)]
pub struct End {
    pub size: u8,
    pub value: u32,
}

// Both ends of a range: numerals of one base of `size` digits.
#[derive(Clone, Copy, Debug, PartialEq, Eq)]
pub struct Ends {
    pub size: u8,
    pub lower: u32,
    pub upper: u32,
}

// An element: one argument, or a range of `more` terms behind its first; `next` is the unit that begins the next element.
#[derive(Clone, Copy, Debug, PartialEq, Eq)]
pub enum Shape {
    Single {
        next: usize,
    },
    Range {
        upper: u32,
        inc: u32,
        more: u32,
        next: usize,
    },
}

impl Shape {
    // The unit that begins the next element.
    pub fn next(self) -> usize
        ensures { result ≡ next_of self }
    {
        match self {
            Shape::Single { next } => next,
            Shape::Range { next, .. } => next,
        }
    }

    // How many arguments stand behind the first.
    pub fn more(self) -> u32
        ensures { result ≡ more_of self }
    {
        match self {
            Shape::Single { .. } => 0,
            Shape::Range { more, .. } => more,
        }
    }
}

// How many units the value has.
pub fn count(toks: &[Token]) -> usize
    ensures { result ≡ count_of toks.now }
{
    (toks.len() + 1) / 2
}

// The kind of a joining separator; an `&` for what is none.
fn join_kind(kind: Kind) -> Kind
    ensures { number result ≡ join_kind (number kind) }
{
    if kind <= Kind::Dash { kind } else { Kind::Amp }
}

// The kind of the separator before the n-th unit; before the first and past the last an `&`.
pub fn sep_kind(toks: &[Token], n: usize) -> Kind
    ensures { number result ≡ sep_kind toks.now n }
{
    if 0 < n && n < count(toks) {
        join_kind(toks[n + n - 1].kind)
    } else {
        Kind::Amp
    }
}

// The place of the separator before the n-th unit.
pub fn sep_place(toks: &[Token], n: usize) -> u32
    ensures { result ≡ sep_place toks.now n }
{
    if 0 < n && n < count(toks) {
        toks[n + n - 1].place()
    } else {
        0
    }
}

// The place of the n-th unit.
pub fn unit_place(toks: &[Token], n: usize) -> u32
    ensures { result ≡ unit_place toks.now n }
{
    if n < count(toks) {
        toks[n + n].place()
    } else {
        0
    }
}

// Does a separator of this kind begin an element?
pub fn begins(kind: Kind) -> bool
    ensures { result ≡ begins_kind (number kind) }
{
    matches!(kind, Kind::Amp | Kind::AmpDash)
}

// A word that was read as the end of a range.
fn unit_end(word: Result<Word, Fault>) -> Option<End>
    ensures { result ≡ unit_end word }
{
    match word {
        Ok(
            Word::Numeral {
                letter,
                fraction: 0,
                value,
            },
        ) => Some(End {
            size: digits::size(letter),
            value,
        }),
        _ => None,
    }
}

// The n-th unit as the end of a range.
pub fn end_of(toks: &[Token], contents: &[u8], base: u8, n: usize) -> Option<End>
    ensures { result ≡ end_at (joins_in base contents.now toks.now) n }
{
    if count(toks) <= n {
        return None;
    }
    let t = toks[n + n];
    match t.kind {
        Kind::Word => unit_end(units::read_word(t.content(contents), base)),
        _ => None,
    }
}

// The lower and the upper end of a range together, if they are numerals of one base.
pub fn both_ends(lower: Option<End>, upper: Option<End>) -> Option<Ends>
    ensures { result ≡ both_ends lower upper }
{
    let lower = lower?;
    let upper = upper?;
    if lower.size != upper.size {
        return None;
    }
    Some(Ends {
        size: lower.size,
        lower: lower.value,
        upper: upper.value,
    })
}

// The increment of a range in a base of `size` digits, if it is a numeral of that base that is not 0.
pub fn step_end(size: u8, step: Option<End>) -> Option<u32>
    ensures { result ≡ step_end size step }
{
    match step {
        Some(end) if end.size == size && end.value != 0 => Some(end.value),
        _ => None,
    }
}

// Where the units joined by `-` from the n-th on end. No unit is read, so there is no list to iterate over: a `while` on the separators is plainest.
pub fn arg_end(toks: &[Token], n: usize) -> usize
    ensures { ArgEnd toks.now n result }
{
    let mut k = n;
    while sep_kind(toks, k) == Kind::Dash {
        k += 1;
    }
    k
}

// A range behind whose increment nothing more may be joined.
pub fn no_more(toks: &[Token], n: usize, lower: u32, upper: u32, inc: u32) -> Result<Shape, Refusal>
    requires { (lower ≤ upper) × (1 ≤ inc) }
    ensures { NoMore toks.now n lower upper inc result }
{
    if !begins(sep_kind(toks, n)) {
        return Err(Reason::GroupBroken.at(sep_place(toks, n)));
    }
    Ok(Shape::Range {
        upper,
        inc,
        more: (upper - lower) / inc,
        next: n,
    })
}
