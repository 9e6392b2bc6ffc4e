// A value in a record: its elements, each followed by its units, judged under the place's base and counted.
#![tactic(auto)]

ghost use Rattle.std.specs.Prelude.{◌≡◌, true, ◌+◌, ◌≤◌, ◌<◌, length, get_or, drop};
ghost use Rattle.rules.specs.Units.{base_at};
ghost use Rattle.rules.specs.Records.{is_element, numeral_tag};
ghost use Rattle.record_walk.specs.Fronts.{head_tag};
ghost use Rattle.judge_value.specs.Elements.{joins, lower_at, more_of, terms_of};
ghost use Rattle.judge_value.specs.Judging.{IsUnits, IsElement, IsValue};

use record_walk::Tag;

// The most units of an argument.
const MOST_UNITS: usize = rules::MOST_LEADING + 1;

// The most arguments of a value.
const MOST_ARGUMENTS: u32 = rules::MOST_ARGUMENTS as u32;

// The units of an element: how many, where the last one stands, where the next field begins.
#[derive(Clone, Copy, Debug, PartialEq, Eq)]
pub struct Units {
    pub count: usize,
    pub last: usize,
    pub next: usize,
}

// An element: its number of units, its number of arguments behind the first, and where the next field begins.
#[derive(Clone, Copy, Debug, PartialEq, Eq)]
pub struct OneElement {
    pub units: usize,
    pub more: u32,
    pub next: usize,
}

// A value: its number of arguments, and where the next field begins.
#[derive(Clone, Copy, Debug, PartialEq, Eq)]
pub struct Arguments {
    pub number: u32,
    pub next: usize,
}

// The units that stand from a position on: one to four.
fn judge_units(rec: &[u8], from: usize, base: u8) -> Option<Units>
    requires { from ≤ length rec.now }
    ensures { IsUnits (base_at base) rec.now from result }
{
    let mut last = from;
    let mut at = judge_unit::unit_end(rec, from, base)?;
    let mut count = 1;
    while record_walk::is_unit(record_walk::head_tag(rec, at)) {
        if count == MOST_UNITS {
            return None;
        }
        last = at;
        at = judge_unit::unit_end(rec, at, base)?;
        count += 1;
    }
    Some(Units {
        count,
        last,
        next: at,
    })
}

// The lower end that the unit's field at a position holds: a numeral without fraction.
#[tactic(auto, unfolding(crate::specs::Elements::lower_at))]
fn lower_end(rec: &[u8], unit: usize) -> Option<u32>
    requires { (unit < length rec.now) × (get_or rec.now unit 0 ≡ numeral_tag → unit + 9 ≤ length rec.now) }
    ensures { result ≡ lower_at rec.now unit }
{
    if rec[unit] != Tag::Numeral as u8 || rec[unit + record_walk::FRACTION] != 0 {
        return None;
    }
    Some(record_walk::number_at(rec, unit + record_walk::VALUE))
}

// The terms of a range behind its lower end, its upper end and increment from a position on: upper not below lower, increment at least 1.
#[tactic(auto, unfolding(crate::specs::Elements::more_of))]
fn more_terms(rec: &[u8], ends: usize, lower: u32) -> Option<u32>
    requires { ends + 8 ≤ length rec.now }
    ensures { result ≡ more_of rec.now ends lower }
{
    let upper = record_walk::number_at(rec, ends);
    let increment = record_walk::number_at(rec, ends + record_walk::NUMBER);
    upper.checked_sub(lower)?.checked_div(increment)
}

// The terms of the range whose upper end and increment stand from `ends` on, behind its lower end, the unit at a position.
fn range_terms(rec: &[u8], ends: usize, unit: usize) -> Option<u32>
    requires { (ends + 8 ≤ length rec.now) × (unit < length rec.now) × (get_or rec.now unit 0 ≡ numeral_tag → unit + 9 ≤ length rec.now) }
    ensures { result ≡ terms_of rec.now ends (lower_at rec.now unit) }
{
    more_terms(rec, ends, lower_end(rec, unit)?)
}

// The element that stands at a position: its field, and its units from behind the field on. A field without content is a single element's.
fn judge_element(rec: &[u8], at: usize, base: u8) -> Option<OneElement>
    requires { is_element (head_tag (drop at rec.now)) ≡ true }
    ensures { IsElement (base_at base) rec.now at result }
{
    let field = record_walk::field_at(rec, at)?;
    let units = judge_units(rec, field.next, base)?;
    let more = if field.start == field.next {
        0
    } else {
        range_terms(rec, field.start, units.last)?
    };
    Some(OneElement {
        units: units.count,
        more,
        next: units.next,
    })
}

// Whether an element may stand behind those before it: with as many units, if there are any, and so many arguments in all.
#[tactic(auto, unfolding(crate::specs::Elements::joins))]
fn joins(units: usize, arguments: u32, count: usize, more: u32) -> bool
    requires { arguments ≤ 4096 }
    ensures { result ≡ joins units arguments count (more + 1) }
{
    more < MOST_ARGUMENTS - arguments && (units == 0 || units == count)
}

// The elements that stand from a position on: at most 64, with 4,096 arguments.
pub fn judge_value(rec: &[u8], from: usize, base: u8) -> Option<Arguments>
    requires { from ≤ length rec.now }
    ensures { IsValue (base_at base) rec.now from result }
{
    let mut at = from;
    let mut left = rules::MOST_ELEMENTS;
    let mut units = 0;
    let mut arguments = 0;
    while record_walk::is_element(record_walk::head_tag(rec, at)) {
        if left == 0 {
            return None;
        }
        let element = judge_element(rec, at, base)?;
        if !joins(units, arguments, element.units, element.more) {
            return None;
        }
        units = element.units;
        arguments = arguments + element.more + 1;
        at = element.next;
        left -= 1;
    }
    Some(Arguments {
        number: arguments,
        next: at,
    })
}
