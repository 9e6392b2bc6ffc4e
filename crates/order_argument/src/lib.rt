// An argument of a value in a record: found by its position in the value, measured, and written as a single element.
#![tactic(auto)]

ghost use Rattle.std.specs.Prelude.{◌≡◌, true, ℕ, ◌-◌, ◌/◌, ◌≤◌, length};
ghost use Rattle.laws.specs.Over.{over};
ghost use Rattle.record_walk.specs.Runs.{Whole};
ghost use Rattle.order_argument.specs.Terms.{is_range, more_terms, term_value, term_bytes, valued_bytes, argument_bytes, IsArgument};

use record_walk::Tag;

// A range without leading units: its own field and its lower end's.
const SHORTEST_RANGE: usize = record_walk::RANGE_FIELD + record_walk::NUMERAL_FIELD;

// Where in a value an argument is: the element that names it, and which of the element's terms it is, from 0. No one type with `list_argument::Standing`, whose `term` is a term's value.
#[derive(Clone, Copy, Debug, PartialEq, Eq)]
pub struct Argument {
    pub start: usize,
    pub end: usize,
    pub term: u32,
}

// Whether these bytes of an element are a range's: its field with upper end and increment, and a numeral as last unit.
#[tactic(auto, unfolding(crate::specs::Terms::is_range))]
pub fn is_range(element: &[u8]) -> bool
    ensures { result ≡ is_range element.now }
{
    SHORTEST_RANGE <= element.len() && element[0] == Tag::Range as u8
}

// How often the increment goes into what lies between the ends; most often it is 1, and that needs no division.
fn steps(lower: u32, upper: u32, increment: u32) -> u32
    ensures { result ≡ (upper - lower) / increment }
{
    let between = upper.saturating_sub(lower);
    match increment {
        0 => 0,
        1 => between,
        _ => between / increment,
    }
}

// How many terms an element has behind its first one.
#[tactic(auto, unfolding(crate::specs::Terms::more_terms), using(crate::proofs::TermLaws::tested_long))]
pub fn more_terms(element: &[u8]) -> u32
    ensures { result ≡ more_terms element.now }
{
    if !is_range(element) {
        return 0;
    }
    let lower = record_walk::number_at(element, element.len() - record_walk::NUMBER);
    let upper = record_walk::number_at(element, record_walk::UPPER);
    let increment = record_walk::number_at(element, record_walk::INCREMENT);
    steps(lower, upper, increment)
}

// The argument at a position of the value that stands there: whole elements are passed over by their numbers of terms.
pub fn nth_argument(rec: &[u8], at: usize, position: u32) -> Argument
    requires { Whole rec.now at }
    ensures { IsArgument rec.now at position result }
{
    let mut start = at;
    let mut term = position;
    loop {
        let end = record_walk::element_end(rec, start);
        let more = more_terms(&rec[start..end]);
        if term <= more {
            return Argument { start, end, term };
        }
        term -= more + 1;
        start = end;
    }
}

// How many bytes an argument of the element takes: a range's is without upper end and increment.
pub fn argument_len(element: &[u8]) -> usize
    ensures { (v : ℕ) → result ≡ length (valued_bytes element.now v) }
{
    if is_range(element) {
        element.len() - record_walk::RANGE_CONTENT
    } else {
        element.len()
    }
}

// A range's term: the increment so often added to the lower end.
#[tactic(auto, using(crate::proofs::TermLaws::range_long))]
fn term_value(range: &[u8], term: u32) -> u32
    requires { (is_range range.now ≡ true) × (term ≤ more_terms range.now) }
    ensures { result ≡ term_value range.now term }
{
    let lower = record_walk::number_at(range, range.len() - record_walk::NUMBER);
    lower + term * record_walk::number_at(range, record_walk::INCREMENT)
}

// Which value an argument of the element has: a range's term; of any other element none is asked.
fn value_of(element: &[u8], term: u32) -> u32
    requires { term ≤ more_terms element.now }
    ensures { valued_bytes element.now result ≡ argument_bytes element.now term }
{
    if is_range(element) {
        term_value(element, term)
    } else {
        0
    }
}

// A range's term of that value as a single element: the leading units as they are, the last unit made new.
#[tactic(auto, using(crate::proofs::TermLaws::range_long, crate::proofs::TermLaws::range_sizes))]
fn put_term(out: &mut [u8], range: &[u8], value: u32) -> usize
    requires { (is_range range.now ≡ true) × (length (term_bytes range.now value) ≤ length out.old) }
    ensures { (result ≡ length (term_bytes range.now value))
        × (out.new ≡ over (term_bytes range.now value) out.old) }
{
    let last = range.len() - record_walk::NUMERAL_FIELD;
    let letter = range[last + record_walk::LETTER];
    let first = fields::put_field(out, Tag::Single as u8, b"");
    fields::put_bytes(&mut out[first..], &range[record_walk::RANGE_FIELD..last]);
    let unit = first + (last - record_walk::RANGE_FIELD);
    fields::put_numeral(&mut out[unit..], letter, 0, value);
    unit + record_walk::NUMERAL_FIELD
}

// The element as a single one: a range with a term's value, any other as it is.
pub fn put_valued(out: &mut [u8], element: &[u8], value: u32) -> usize
    requires { length (valued_bytes element.now value) ≤ length out.old }
    ensures { (result ≡ length (valued_bytes element.now value))
        × (out.new ≡ over (valued_bytes element.now value) out.old) }
{
    if is_range(element) {
        return put_term(out, element, value);
    }
    fields::put_bytes(out, element);
    element.len()
}

// An argument of the element as a single element.
pub fn put_argument(out: &mut [u8], element: &[u8], term: u32) -> usize
    requires { (term ≤ more_terms element.now) × (length (argument_bytes element.now term) ≤ length out.old) }
    ensures { (result ≡ length (argument_bytes element.now term))
        × (out.new ≡ over (argument_bytes element.now term) out.old) }
{
    put_valued(out, element, value_of(element, term))
}
