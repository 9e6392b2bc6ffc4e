// A value's elements, one after the other: 14 and 15, and how many arguments there are.
#![tactic(auto)]

ghost use Rattle.std.specs.Prelude.{◌≡◌, false, cond, ◌≤◌, ◌<◌};
ghost use Rattle.rules.specs.Groups.{elements, groups_of, collect};
ghost use Rattle.rules.specs.Tokens.{sep_code, ampamp, ampamp_, plusplus};
ghost use Rattle.read_joins.specs.Joins.{joins_in, count, sep_kind, begins_kind};
ghost use Rattle.read_elements.specs.Shapes.{Increment, Ordered, Ranged, Upper, Later, LastEnd, broken_place};
ghost use Rattle.read_elements.specs.Walk.{value_answer};
ghost use Rattle.token_table.specs.Table.{number};

use read_joins::{Ends, Shape};
use rules::{MOST_ELEMENTS, MOST_LEADING, Reason, Refusal};
use token_table::{Kind, Token};

// A value's numbers of elements and of arguments.
#[derive(Clone, Copy, Debug, PartialEq, Eq)]
pub struct Value {
    pub count: usize,
    pub args: u64,
}

// The increment, unit `at`, behind `++`.
fn stepped(
    toks: &[Token],
    contents: &[u8],
    base: u8,
    at: usize,
    ends: Ends,
) -> Result<Shape, Refusal>
    requires { (ends.lower ≤ ends.upper) × (sep_kind toks.now at ≡ sep_code plusplus) }
    ensures { Increment (joins_in base contents.now toks.now) at ends.size ends.lower ends.upper result }
{
    let step = read_joins::end_of(toks, contents, base, at);
    match read_joins::step_end(ends.size, step) {
        Some(inc) => read_joins::no_more(toks, at + 1, ends.lower, ends.upper, inc),
        None => Err(Reason::GroupBroken.at(read_joins::unit_place(toks, at))),
    }
}

// What follows the upper end before the n-th unit: perhaps an increment.
fn increment(
    toks: &[Token],
    contents: &[u8],
    base: u8,
    n: usize,
    ends: Ends,
) -> Result<Shape, Refusal>
    requires { ends.lower ≤ ends.upper }
    ensures { Increment (joins_in base contents.now toks.now) n ends.size ends.lower ends.upper result }
{
    let kind = read_joins::sep_kind(toks, n);
    if read_joins::begins(kind) {
        return Ok(Shape::Range {
            upper: ends.upper,
            inc: 1,
            more: ends.upper - ends.lower,
            next: n,
        });
    }
    if kind == Kind::PlusPlus {
        return stepped(toks, contents, base, n, ends);
    }
    Err(Reason::GroupBroken.at(read_joins::sep_place(toks, n)))
}

// A range whose upper end, unit `at`, must not be below the lower end.
fn ordered(
    toks: &[Token],
    contents: &[u8],
    base: u8,
    at: usize,
    ends: Ends,
) -> Result<Shape, Refusal>
    requires { begins_kind (sep_kind toks.now at) ≡ false }
    ensures { Ordered (joins_in base contents.now toks.now) at ends.size ends.lower ends.upper result }
{
    if ends.lower <= ends.upper {
        return increment(toks, contents, base, at + 1, ends);
    }
    Err(Reason::GroupBroken.at(read_joins::unit_place(toks, at)))
}

// A range whose upper end is the n-th unit.
fn ranged(toks: &[Token], contents: &[u8], base: u8, n: usize) -> Result<Shape, Refusal>
    requires { begins_kind (sep_kind toks.now n) ≡ false }
    ensures { Ranged (joins_in base contents.now toks.now) n result }
{
    let lower = read_joins::end_of(toks, contents, base, n - 1);
    let upper = read_joins::end_of(toks, contents, base, n);
    match read_joins::both_ends(lower, upper) {
        Some(ends) => ordered(toks, contents, base, n, ends),
        None => Err(Reason::GroupBroken.at(read_joins::sep_place(toks, n))),
    }
}

// The separator of a range: `&&` behind a simple argument, `&&-` behind a compound one.
fn range_kind(simple: bool) -> Kind
    ensures { number result ≡ cond simple (sep_code ampamp) (sep_code ampamp_) }
{
    if simple {
        Kind::AmpAmp
    } else {
        Kind::AmpAmpDash
    }
}

// What follows an argument whose last unit is before the n-th.
fn upper_end(
    toks: &[Token],
    contents: &[u8],
    base: u8,
    n: usize,
    simple: bool,
) -> Result<Shape, Refusal>
    ensures { Upper (joins_in base contents.now toks.now) n simple result }
{
    let kind = read_joins::sep_kind(toks, n);
    if read_joins::begins(kind) {
        return Ok(Shape::Single { next: n });
    }
    if kind == range_kind(simple) {
        return ranged(toks, contents, base, n);
    }
    Err(Reason::GroupBroken.at(read_joins::sep_place(toks, n)))
}

// The unit behind the argument that the element at the n-th unit begins with, if its leading units are `leads`.
fn last_end(toks: &[Token], n: usize, leads: usize) -> Option<usize>
    requires { n < count toks.now }
    ensures { LastEnd toks.now leads n result }
{
    if read_joins::sep_kind(toks, n) == Kind::AmpDash {
        return if leads == 0 { None } else { Some(n + 1) };
    }
    let k = read_joins::arg_end(toks, n + 1);
    if k - n - 1 == leads { Some(k) } else { None }
}

// The place of an element whose leading units are too many or too few: that of its `&-`, else of its first unit.
fn broken_place(toks: &[Token], n: usize) -> u32
    ensures { result ≡ broken_place toks.now n }
{
    if read_joins::sep_kind(toks, n) == Kind::AmpDash {
        read_joins::sep_place(toks, n)
    } else {
        read_joins::unit_place(toks, n)
    }
}

// The element that begins at the n-th unit, in a value whose arguments have `leads` leading units.
pub fn later(
    toks: &[Token],
    contents: &[u8],
    base: u8,
    n: usize,
    leads: usize,
) -> Result<Shape, Refusal>
    requires { n < count toks.now }
    ensures { Later (joins_in base contents.now toks.now) leads n result }
{
    match last_end(toks, n, leads) {
        Some(k) => upper_end(toks, contents, base, k, leads == 0),
        None => Err(Reason::GroupBroken.at(broken_place(toks, n))),
    }
}

// The elements of a value and their arguments, in one walk. The first element is one in full that sets the number of units.
// The next element's unit is what the last one answers, so this is a `while`.
fn all_elements(toks: &[Token], contents: &[u8], base: u8) -> Result<Value, Refusal>
    ensures { result ≡ value_answer (elements (groups_of (collect (joins_in base contents.now toks.now)))) }
{
    let leads = read_joins::arg_end(toks, 1) - 1;
    if MOST_LEADING < leads {
        return Err(Reason::GroupBroken.at(read_joins::sep_place(toks, MOST_LEADING + 1)));
    }
    let mut n: usize = 0;
    let mut count: usize = 0;
    let mut args: u64 = 0;
    while n < read_joins::count(toks) {
        if MOST_ELEMENTS <= count {
            return Err(Reason::TooMany.at(read_joins::sep_place(toks, n)));
        }
        let element = later(toks, contents, base, n, leads)?;
        n = element.next();
        count += 1;
        args += element.more() as u64 + 1;
    }
    Ok(Value { count, args })
}

// 14 and 15: the elements of a value and their arguments; a value of one unit is answered at once.
pub fn elements(toks: &[Token], contents: &[u8], base: u8) -> Result<Value, Refusal>
    ensures { result ≡ value_answer (elements (groups_of (collect (joins_in base contents.now toks.now)))) }
{
    if toks.len() == 1 {
        return Ok(Value { count: 1, args: 1 });
    }
    all_elements(toks, contents, base)
}
