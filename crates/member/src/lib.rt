// Where an argument stands among the arguments of a record's place: elements are passed over by their numbers of terms, and in a range the position is a quotient. No group is unrolled.
#![tactic(auto)]

ghost use Rattle.std.specs.Prelude.{◌≡◌, true, ◌≤◌, length};
ghost use Rattle.rules.specs.Units.{base_at};
ghost use Rattle.rules.specs.Positions.{is_given};
ghost use Rattle.rules.specs.Answers.{Locates};
ghost use Rattle.record_walk.specs.Values.{end_before};
ghost use Rattle.order_argument.specs.Terms.{is_range};
ghost use Rattle.member.specs.Seeking.{alike, step_of, range_term, term_in, Sought, IsPosition, Ahead, IsBase, InRow, IsAnswer};

use record_walk::Tag;
use rules::{Answer, Reason};

// Where in its three numbers a place's value begins.
const START: usize = 1;

// Where in its three numbers a place's value ends.
const END: usize = 2;

// The most units of an argument.
const MOST_UNITS: usize = rules::MOST_LEADING + 1;

// Whether the argument has the units of a range, the value of the last one apart.
fn alike(range: &[u8], argument: &[u8]) -> bool
    requires { is_range range.now ≡ true }
    ensures { result ≡ alike range.now argument.now }
{
    if range.len() - record_walk::RANGE_FIELD != argument.len() {
        return false;
    }
    let end = range.len() - record_walk::NUMBER;
    let same = argument.len() - record_walk::NUMBER;
    range[record_walk::RANGE_FIELD..end] == argument[..same]
}

// 1 and the number of increments by which a value is above the lower end; 0 where it is outside the ends, or where that is no whole number.
#[tactic(auto, unfolding(crate::specs::Seeking::step_of))]
fn step(lower: u32, upper: u32, increment: u32, value: u32) -> usize
    ensures { result ≡ step_of lower upper increment value }
{
    if value < lower || upper < value || increment == 0 || (value - lower) % increment != 0 {
        return 0;
    }
    ((value - lower) / increment) as usize + 1
}

// The same of the argument among a range's terms; 0 where its other units are not the range's.
fn range_term(range: &[u8], argument: &[u8]) -> usize
    requires { is_range range.now ≡ true }
    ensures { result ≡ range_term range.now argument.now }
{
    if alike(range, argument) {
        let lower = record_walk::number_at(range, range.len() - record_walk::NUMBER);
        let upper = record_walk::number_at(range, record_walk::UPPER);
        let increment = record_walk::number_at(range, record_walk::INCREMENT);
        let value = record_walk::number_at(argument, argument.len() - record_walk::NUMBER);
        return step(lower, upper, increment, value);
    }
    0
}

// 1 and the position of the argument among the element's terms; 0 where it is none of them.
fn term(element: &[u8], argument: &[u8]) -> usize
    requires { 3 ≤ length element.now }
    ensures { result ≡ term_in element.now argument.now }
{
    if order_argument::is_range(element) {
        return range_term(element, argument);
    }
    if &element[record_walk::HEADER..] == argument {
        return 1;
    }
    0
}

// 1 and the first position of the argument in the value that stands from `from` to `to`; 0 where it has none.
fn position(rec: &[u8], from: u16, to: u16, argument: &[u8]) -> u32
    requires { Sought rec.now from to argument.now }
    ensures { IsPosition rec.now from to argument.now result }
{
    let mut at = from as usize;
    let mut passed = 0;
    while at < to as usize {
        let end = record_walk::element_end(rec, at);
        let element = &rec[at..end];
        let term = term(element, argument);
        if 0 < term {
            return (passed + term) as u32;
        }
        passed += order_argument::more_terms(element) as usize + 1;
        at = end;
    }
    0
}

// Whether bytes are one to four unit fields that could stand under the base.
fn stands(argument: &[u8], base: u8) -> bool
    ensures { result ≡ is_given (base_at base) argument.now }
{
    let mut at = 0;
    let mut left = MOST_UNITS;
    while at < argument.len() {
        if left == 0 {
            return false;
        }
        let Some(end) = judge_unit::unit_end(argument, at, base) else {
            return false;
        };
        at = end;
        left -= 1;
    }
    left < MOST_UNITS
}

// The base letter of the place that stands next, behind code pieces and a block's field, if any.
fn base(rec: &[u8], at: usize) -> u8
    requires { Ahead rec.now at }
    ensures { IsBase rec.now at result }
{
    let place = record_walk::run_end(rec, at, Tag::Code as u8, Tag::Block as u8);
    rec[place + record_walk::HEADER]
}

// Where the place before ends, whose numbers stand before those at i; the record's beginning where there is none.
fn end_before(row: &[u16], i: usize) -> usize
    requires { i ≤ length row.now }
    ensures { result ≡ end_before 0 row.now i }
{
    if i == 0 {
        return 0;
    }
    row[i - 1] as usize
}

// The answer of the place whose numbers stand at i: 27 if the argument could not stand there.
fn locate(rec: &[u8], row: &[u16], i: usize, argument: &[u8]) -> Answer
    requires { InRow rec.now row.now i }
    ensures { IsAnswer rec.now row.now i argument.now result }
{
    let base = base(rec, end_before(row, i));
    if stands(argument, base) {
        return Ok(position(rec, row[i + START], row[i + END], argument));
    }
    Err(Reason::WrongArgument.at(0))
}

// Where an argument stands in a record's place: 18 if the record is not well formed, 26 if it has no such place or that is omitted, 27 if the argument could not stand there.
pub fn member(rec: &[u8], place: u32, argument: &[u8]) -> Answer
    ensures { Locates rec.now place argument.now result }
{
    let mut row = [0u16; judge::ROW];
    let judged = judge::judge(rec, &mut row).ok_or(Reason::NotWellFormed.at(0))?;
    if judged.places <= place as usize {
        return Err(Reason::NoSuchPlace.at(place));
    }
    let i = judge::PER_PLACE * place as usize;
    if row[i] == 0 {
        return Err(Reason::NoSuchPlace.at(place));
    }
    let told = judge::PER_PLACE * judged.places;
    locate(&rec[record_head::HEAD..], &row[..told], i, argument)
}
