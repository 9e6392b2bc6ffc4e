// The arguments of a value in a record, one behind the other, as they are written: the first, the next, and how many bytes all of them take. Nothing is counted: a range steps by its increment.
#![tactic(auto)]

ghost use Rattle.std.specs.Prelude.{◌≡◌, List, length};
ghost use Rattle.laws.specs.Lists.{concat};
ghost use Rattle.rules.specs.Commands.{Element};
ghost use Rattle.record_walk.specs.Values.{Holds, Value};
ghost use Rattle.list_argument.specs.Standings.{choices_of, Argument, IsFirst, IsNext, first_term, goes_on};

// Where an argument stands: the element that names it, and which of a range's terms it is.
#[derive(Clone, Copy, Debug, PartialEq, Eq)]
pub struct Standing {
    pub start: usize,
    pub end: usize,
    pub term: u32,
}

// An element's first term: a range's is its lower end, and others have none.
#[tactic(auto, unfolding(crate::specs::Standings::first_term), using(crate::proofs::StandingLaws::range_room))]
fn first_term(element: &[u8]) -> u32
    ensures { result ≡ first_term element.now }
{
    if order_argument::is_range(element) {
        record_walk::number_at(element, element.len() - record_walk::NUMBER)
    } else {
        0
    }
}

// The first argument of what stands from `from` to `to`.
pub fn first(rec: &[u8], from: usize, to: usize) -> Standing
    requires { Value rec.now from to }
    ensures { IsFirst rec.now from to result }
{
    if from < to {
        let end = record_walk::element_end(rec, from);
        return Standing {
            start: from,
            end,
            term: first_term(&rec[from..end]),
        };
    }
    Standing {
        start: from,
        end: from,
        term: 0,
    }
}

// Whether a range has a term behind this one: the increment leads not past its upper end.
#[tactic(auto, using(crate::proofs::StandingLaws::range_room))]
fn goes_on(element: &[u8], term: u32) -> bool
    ensures { result ≡ goes_on element.now term }
{
    if !order_argument::is_range(element) {
        return false;
    }
    let upper = record_walk::number_at(element, record_walk::UPPER) as u64;
    let increment = record_walk::number_at(element, record_walk::INCREMENT) as u64;
    term as u64 + increment <= upper
}

// The argument behind this one: the range's next term, or the first of the next element.
pub fn next(rec: &[u8], standing: Standing, to: usize) -> Standing
    requires { Argument rec.now to standing }
    ensures { IsNext rec.now to standing result }
{
    let Standing { start, end, term } = standing;
    let element = &rec[start..end];
    if goes_on(element, term) {
        return Standing {
            start,
            end,
            term: term + record_walk::number_at(element, record_walk::INCREMENT),
        };
    }
    first(rec, end, to)
}

// How many bytes the arguments of what stands from `from` to `to` take in all: those of one element are equally long.
pub fn arguments_len(rec: &[u8], from: u16, to: u16) -> usize
    requires { Value rec.now from to }
    ensures { (es : List Element) → Holds rec.now from to es → result ≡ length (concat (choices_of es)) }
{
    let mut at = from as usize;
    let mut len = 0;
    while at < to as usize {
        let end = record_walk::element_end(rec, at);
        let element = &rec[at..end];
        let more = order_argument::more_terms(element) as usize;
        len += (more + 1) * order_argument::argument_len(element);
        at = end;
    }
    len
}
