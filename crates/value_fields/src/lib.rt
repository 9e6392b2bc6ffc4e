// The fields of a value without fault: how many bytes they take, and the same bytes written. Each writer is lent the buffer from its start
// position, and says all bytes of it.
#![tactic(auto)]

ghost use Rattle.std.specs.Prelude.{◌≡◌, cond, eqb, length, ◌+◌, ◌≤◌, ◌<◌, ◌++◌};
ghost use Rattle.rules.specs.Tokens.{sep_code, amp_};
ghost use Rattle.read_joins.specs.Joins.{count};
ghost use Rattle.read_value.specs.Passes.{Faultless};
ghost use Rattle.value_fields.specs.Measure.{bytes_at, bytes_from, head_bytes, element_bytes, ValueLen};
ghost use Rattle.laws.specs.Over.{over};
ghost use Rattle.rules.specs.Records.{four_bytes, field, field_bytes};
ghost use Rattle.value_fields.specs.Writes.{Fits, PutValue};
ghost use Rattle.token_table.specs.Table.{number};

use read_joins::Shape;
use record_walk::Tag;
use token_table::{Kind, Token};

// The bytes of a range's content, as its field says them.
const RANGE_CONTENT: u16 = record_walk::RANGE_CONTENT as u16;

// How many bytes the n-th unit's field takes.
fn unit_len(toks: &[Token], contents: &[u8], base: u8, n: usize) -> usize
    requires { n < count toks.now }
    ensures { (result ≡ length (bytes_at base contents.now toks.now n)) × (result ≤ 65538) }
{
    let t = toks[n + n];
    let content = t.content(contents);
    match t.kind {
        Kind::Word => fields::unit_len(content, units::read_word(content, base)),
        _ => record_walk::HEADER + content.len(),
    }
}

// How many bytes the fields of `leads` units from the n-th on take.
fn units_len(toks: &[Token], contents: &[u8], base: u8, n: usize, leads: usize) -> usize
    requires { (leads ≤ 3) × (n + leads ≤ count toks.now) }
    ensures { (result ≡ length (bytes_from base contents.now toks.now n leads)) × (result ≤ 196614) }
{
    let mut total: usize = 0;
    for i in 0..leads {
        total += unit_len(toks, contents, base, n + i);
    }
    total
}

// How many bytes an element's own field takes.
fn head_len(x: Shape) -> usize
    ensures { (result ≡ length (head_bytes x)) × (result ≤ 11) }
{
    match x {
        Shape::Single { .. } => record_walk::HEADER,
        Shape::Range { .. } => record_walk::RANGE_FIELD,
    }
}

// How many bytes an element takes: its own field, its `leads` leading units that stand from `front` on, its last unit.
fn element_len(
    toks: &[Token],
    contents: &[u8],
    base: u8,
    x: Shape,
    front: usize,
    leads: usize,
    last: usize,
) -> usize
    requires { (leads ≤ 3) × (front + leads ≤ count toks.now) × (last < count toks.now) }
    ensures { (result ≡ length (element_bytes base contents.now toks.now x front leads last)) × (result ≤ 300000) }
{
    head_len(x)
        + units_len(toks, contents, base, front, leads)
        + unit_len(toks, contents, base, last)
}

// Where the leading units of the element at the n-th unit stand: behind `&-` where those of the element before stand, else here.
fn front_of(kind: Kind, before: usize, n: usize) -> usize
    ensures { result ≡ cond (eqb (number kind) (sep_code amp_)) before n }
{
    if kind == Kind::AmpDash { before } else { n }
}

// Where the last unit of the element at the n-th unit stands, the lower end of a range.
fn last_of(kind: Kind, n: usize, leads: usize) -> usize
    requires { n + leads < 18446744073709551616 }
    ensures { result ≡ cond (eqb (number kind) (sep_code amp_)) n (n + leads) }
{
    if kind == Kind::AmpDash { n } else { n + leads }
}

// How many bytes the value takes, element by element; where the next one begins is computed, so this is a `while`. Measure and writer stay
// two functions each: the writer is lent a buffer and promises every byte, and one function over both would want a trait of sinks with laws.
fn elements_len(toks: &[Token], contents: &[u8], base: u8) -> usize
    requires { Faultless toks.now contents.now base }
    ensures { ValueLen toks.now contents.now base result }
{
    let leads = read_joins::arg_end(toks, 1) - 1;
    let mut n: usize = 0;
    let mut front: usize = 0;
    let mut total: usize = 0;
    while n < read_joins::count(toks) {
        let element = read_elements::later(toks, contents, base, n, leads).unwrap();
        let kind = read_joins::sep_kind(toks, n);
        let last = last_of(kind, n, leads);
        front = front_of(kind, front, n);
        total += element_len(toks, contents, base, element, front, leads, last);
        n = element.next();
    }
    total
}

// How many bytes the value takes; a value of one unit is measured at once.
pub fn value_len(toks: &[Token], contents: &[u8], base: u8) -> usize
    requires { Faultless toks.now contents.now base }
    ensures { ValueLen toks.now contents.now base result }
{
    if toks.len() == 1 {
        return record_walk::HEADER + unit_len(toks, contents, base, 0);
    }
    elements_len(toks, contents, base)
}

// The n-th unit's field. Returns how many bytes it wrote.
fn put_unit(out: &mut [u8], toks: &[Token], contents: &[u8], base: u8, n: usize) -> usize
    requires { (n < count toks.now) × (length (bytes_at base contents.now toks.now n) ≤ length out.old) }
    ensures { (result ≡ length (bytes_at base contents.now toks.now n))
        × (out.new ≡ over (bytes_at base contents.now toks.now n) out.old) }
{
    let t = toks[n + n];
    let content = t.content(contents);
    match t.kind {
        Kind::Word => fields::put_unit(out, content, units::read_word(content, base)),
        _ => fields::put_field(out, Tag::String as u8, content),
    }
}

// The fields of `leads` units from the n-th on. Returns how many bytes it wrote.
fn put_units(
    out: &mut [u8],
    toks: &[Token],
    contents: &[u8],
    base: u8,
    n: usize,
    leads: usize,
) -> usize
    requires { (n + leads ≤ count toks.now) × (length (bytes_from base contents.now toks.now n leads) ≤ length out.old) }
    ensures { (result ≡ length (bytes_from base contents.now toks.now n leads))
        × (out.new ≡ over (bytes_from base contents.now toks.now n leads) out.old) }
{
    let mut k: usize = 0;
    for i in 0..leads {
        k += put_unit(&mut out[k..], toks, contents, base, n + i);
    }
    k
}

// The field of a range element: its upper end and its increment, four bytes each, the high byte first.
fn put_range(out: &mut [u8], upper: u32, inc: u32)
    requires { 11 ≤ length out.old }
    ensures { out.new ≡ over (field_bytes (field 6 (four_bytes upper ++ four_bytes inc))) out.old }
{
    fields::put_header(out, Tag::Range as u8, RANGE_CONTENT);
    record_walk::put_number(&mut out[record_walk::UPPER..], upper);
    record_walk::put_number(&mut out[record_walk::INCREMENT..], inc);
}

// An element's own field. Returns how many bytes it wrote.
fn put_head(out: &mut [u8], x: Shape) -> usize
    requires { length (head_bytes x) ≤ length out.old }
    ensures { (result ≡ length (head_bytes x)) × (out.new ≡ over (head_bytes x) out.old) }
{
    match x {
        Shape::Single { .. } => fields::put_field(out, Tag::Single as u8, b""),
        Shape::Range { upper, inc, .. } => {
            put_range(out, upper, inc);
            record_walk::RANGE_FIELD
        }
    }
}

// An element: its own field, its `leads` leading units that stand from `front` on, its last unit. Returns how many bytes it wrote.
fn put_element(
    out: &mut [u8],
    toks: &[Token],
    contents: &[u8],
    base: u8,
    x: Shape,
    front: usize,
    leads: usize,
    last: usize,
) -> usize
    requires { (front + leads ≤ count toks.now) × (last < count toks.now)
        × (length (element_bytes base contents.now toks.now x front leads last) ≤ length out.old) }
    ensures { (result ≡ length (element_bytes base contents.now toks.now x front leads last))
        × (out.new ≡ over (element_bytes base contents.now toks.now x front leads last) out.old) }
{
    let p = put_head(out, x);
    let q = p + put_units(&mut out[p..], toks, contents, base, front, leads);
    q + put_unit(&mut out[q..], toks, contents, base, last)
}

// The value, element by element, by a `while` as its measure. Returns how many bytes it wrote.
fn put_elements(out: &mut [u8], toks: &[Token], contents: &[u8], base: u8) -> usize
    requires { Fits toks.now contents.now base (length out.old) }
    ensures { PutValue toks.now contents.now base result out.old out.new }
{
    let leads = read_joins::arg_end(toks, 1) - 1;
    let mut n: usize = 0;
    let mut front: usize = 0;
    let mut k: usize = 0;
    while n < read_joins::count(toks) {
        let x = read_elements::later(toks, contents, base, n, leads).unwrap();
        let kind = read_joins::sep_kind(toks, n);
        let last = last_of(kind, n, leads);
        front = front_of(kind, front, n);
        k += put_element(&mut out[k..], toks, contents, base, x, front, leads, last);
        n = x.next();
    }
    k
}

// The value; one of one unit is written at once. Returns how many bytes it wrote.
pub fn put_value(out: &mut [u8], toks: &[Token], contents: &[u8], base: u8) -> usize
    requires { Fits toks.now contents.now base (length out.old) }
    ensures { PutValue toks.now contents.now base result out.old out.new }
{
    if toks.len() == 1 {
        let p = fields::put_field(out, Tag::Single as u8, b"");
        return p + put_unit(&mut out[p..], toks, contents, base, 0);
    }
    put_elements(out, toks, contents, base)
}
