// The value of a place as text, from the fields of a record that is known to be well formed: element by element, unit by unit. Each writer is told from where
// on in the lent buffer, and says where its text ends; over `Measure` in place of `Page` it writes nothing.
#![tactic(auto)]

ghost use Rattle.std.specs.Prelude.{◌≡◌, [], ◌∷◌, ◌++◌, ◌+◌, ◌-◌, ◌^◌, ◌≤◌, ◌<◌, length, get_or};
ghost use Rattle.rules.specs.Characters.{byte};
ghost use Rattle.print_unit.specs.Ways.{Fits, Puts};
ghost use Rattle.print_value.specs.Begins.{begins, begins_at};
ghost use Rattle.print_value.specs.Joints.{joint_text, printed_from};
ghost use Rattle.print_value.specs.Values.{DashedFits, PutDashed, UnitsFit, PutUnits, short_at, joint_at, ArgumentFits, PutArgument, through_text, increment_text, range_end, EndStands, end_at, head_length, ElementFits, PutElement, ValueFits, PutValue};

use print_unit::Sink;
use record_walk::Tag;

// Where a text ends, and where the field stands behind those that it was put for.
#[derive(Clone, Copy, Debug, PartialEq, Eq)]
pub struct Put {
    pub end: usize,
    pub next: usize,
}

// The same of an argument's units, and where the last of them stands.
#[derive(Clone, Copy, Debug, PartialEq, Eq)]
pub struct Units {
    pub put: Put,
    pub last: usize,
}

// The same of an element, whose leading units stand from `lead` to `until`.
#[derive(Clone, Copy, Debug, PartialEq, Eq)]
pub struct Laid {
    pub put: Put,
    pub lead: usize,
    pub until: usize,
}

// What stands before an element: nothing at a value's start, else `&`, and `&-` in the short form.
#[derive(Clone, Copy, Debug, PartialEq, Eq)]
pub enum Joint {
    Start,
    Full,
    Short,
}

// Where the field that stands there ends: no content of a well-formed record has more than 255 bytes.
pub fn behind(rec: &[u8], at: usize) -> usize
    requires { (at + 2 < length rec.now) × (at + (3 + get_or rec.now (at + 2) 0) ≤ length rec.now) }
    ensures { result ≡ at + (3 + get_or rec.now (at + 2) 0) }
{
    at + (record_walk::HEADER + rec[at + record_walk::LENGTH] as usize)
}

// Puts a unit behind a `-`.
fn put_dashed<S: Sink>(out: &mut [u8], at: usize, part: &[u8], base: u8) -> usize
    requires { DashedFits S.way part.now base at out.old }
    ensures { PutDashed S.way part.now base at out.old result out.new }
{
    let unit = S::put_u8(out, at, b'-');
    print_unit::put_unit::<S>(out, unit, part, base)
}

// Puts the units that stand there, joined by `-`. A `while`, since a field says how far the next one is.
fn put_units<S: Sink>(out: &mut [u8], at: usize, rec: &[u8], from: usize, base: u8) -> Units
    requires { UnitsFit S.way rec.now from base at out.old }
    ensures { PutUnits S.way rec.now from base at out.old result out.new }
{
    let mut last = from;
    let mut next = behind(rec, from);
    let mut end = print_unit::put_unit::<S>(out, at, &rec[from..next], base);
    while Tag::Numeral as u8 <= record_walk::tag_at(rec, next) {
        last = next;
        next = behind(rec, last);
        end = put_dashed::<S>(out, end, &rec[last..next], base);
    }
    Units {
        put: Put { end, next },
        last,
    }
}

// Whether both are the same from a position on, as far as `lead` goes.
fn alike(part: &[u8], lead: &[u8], from: usize) -> bool
    requires { length lead.now ≤ length part.now }
    ensures { result ≡ begins_at part.now lead.now from }
{
    for i in from..lead.len() {
        if part[i] != lead[i] {
            return false;
        }
    }
    true
}

// Whether a part starts with these bytes, four compared at once on purpose (docs/DECISIONS.md); a `while`, since the rest goes on where it ends.
fn starts_with(part: &[u8], lead: &[u8]) -> bool
    ensures { result ≡ begins part.now lead.now }
{
    if part.len() < lead.len() {
        return false;
    }
    let mut i: usize = 0;
    while i + record_walk::NUMBER <= lead.len() {
        if record_walk::number_at(part, i) != record_walk::number_at(lead, i) {
            return false;
        }
        i += record_walk::NUMBER;
    }
    alike(part, lead, i)
}

// Whether the element whose units stand at `first` is printed in the short form: the leading units of the one before stand from `lead` to `until`.
fn short_form(rec: &[u8], first: usize, lead: usize, until: usize) -> bool
    requires { (first ≤ length rec.now) × (lead ≤ until) × (until ≤ length rec.now) }
    ensures { result ≡ short_at rec.now first lead until }
{
    lead != until && starts_with(&rec[first..], &rec[lead..until])
}

// What stands before an element.
fn joint_before(
    rec: &[u8],
    from: usize,
    at: usize,
    first: usize,
    lead: usize,
    until: usize,
) -> Joint
    requires { (first ≤ length rec.now) × (lead ≤ until) × (until ≤ length rec.now) }
    ensures { result ≡ joint_at rec.now from at first lead until }
{
    if at == from {
        return Joint::Start;
    }
    if short_form(rec, first, lead, until) {
        Joint::Short
    } else {
        Joint::Full
    }
}

// Puts it.
fn put_joint<S: Sink>(out: &mut [u8], at: usize, joint: Joint) -> usize
    requires { Fits S.way (joint_text joint) at out.old }
    ensures { Puts S.way (joint_text joint) at out.old result out.new }
{
    match joint {
        Joint::Start => at,
        Joint::Full => S::put_u8(out, at, b'&'),
        Joint::Short => {
            let dash = S::put_u8(out, at, b'&');
            S::put_u8(out, dash, b'-')
        }
    }
}

// Where the first unit stands that is printed: behind the leading ones in the short form.
fn printed_from(joint: Joint, first: usize, lead: usize, until: usize) -> usize
    requires { (lead ≤ until) × (first + (until - lead) < 2 ^ 64) }
    ensures { result ≡ printed_from joint first lead until }
{
    match joint {
        Joint::Short => first + (until - lead),
        Joint::Start | Joint::Full => first,
    }
}

// Puts what stands before an argument, and the units of it that are printed.
fn put_argument<S: Sink>(
    out: &mut [u8],
    at: usize,
    rec: &[u8],
    joint: Joint,
    from: usize,
    base: u8,
) -> Units
    requires { ArgumentFits S.way rec.now joint from base at out.old }
    ensures { PutArgument S.way rec.now joint from base at out.old result out.new }
{
    let units = put_joint::<S>(out, at, joint);
    put_units::<S>(out, units, rec, from, base)
}

// Puts what stands before a range's upper end.
fn put_through<S: Sink>(out: &mut [u8], at: usize, compound: bool) -> usize
    requires { Fits S.way (through_text compound) at out.old }
    ensures { Puts S.way (through_text compound) at out.old result out.new }
{
    let second = S::put_u8(out, at, b'&');
    let end = S::put_u8(out, second, b'&');
    if compound {
        return S::put_u8(out, end, b'-');
    }
    end
}

// Puts `++` and the increment, if it is not 1.
fn put_increment<S: Sink>(out: &mut [u8], at: usize, base: u8, letter: u8, increment: u32) -> usize
    requires { Fits S.way (increment_text base letter increment) at out.old }
    ensures { Puts S.way (increment_text base letter increment) at out.old result out.new }
{
    if increment == 1 {
        return at;
    }
    let second = S::put_u8(out, at, b'+');
    let number = S::put_u8(out, second, b'+');
    print_unit::put_whole_text::<S>(out, number, base, letter, increment)
}

// Puts the end of a range: upper end and increment in the base of the lower end.
fn put_range_end<S: Sink>(
    out: &mut [u8],
    at: usize,
    base: u8,
    letter: u8,
    compound: bool,
    upper: u32,
    increment: u32,
) -> usize
    requires { Fits S.way (range_end base letter compound upper increment) at out.old }
    ensures { Puts S.way (range_end base letter compound upper increment) at out.old result out.new }
{
    let p = put_through::<S>(out, at, compound);
    let q = print_unit::put_whole_text::<S>(out, p, base, letter, upper);
    put_increment::<S>(out, q, base, letter, increment)
}

// Puts the end of the element whose field stands at `own`, if it is a range: its units stand at `first`, the last of them at `last`.
fn put_end<S: Sink>(
    out: &mut [u8],
    at: usize,
    rec: &[u8],
    own: usize,
    first: usize,
    last: usize,
    base: u8,
) -> usize
    requires { EndStands rec.now own last × Fits S.way (end_at rec.now own first last base) at out.old }
    ensures { Puts S.way (end_at rec.now own first last base) at out.old result out.new }
{
    if rec[own] != Tag::Range as u8 {
        return at;
    }
    put_range_end::<S>(
        out,
        at,
        base,
        rec[last + record_walk::HEADER],
        first < last,
        record_walk::number_at(rec, own + record_walk::UPPER),
        record_walk::number_at(rec, own + record_walk::INCREMENT),
    )
}

// How many bytes an element's own field has.
fn head_len(tag: u8) -> usize
    ensures { result ≡ head_length tag }
{
    if tag == Tag::Range as u8 {
        return record_walk::RANGE_FIELD;
    }
    record_walk::HEADER
}

// Puts the element that stands behind the one that is laid, with what stands before it in the value that begins at `from`.
fn put_element<S: Sink>(out: &mut [u8], rec: &[u8], from: usize, laid: Laid, base: u8) -> Laid
    requires { ElementFits S.way rec.now from laid base out.old }
    ensures { PutElement S.way rec.now from laid base out.old result out.new }
{
    let own = laid.put.next;
    let first = own + head_len(rec[own]);
    let joint = joint_before(rec, from, own, first, laid.lead, laid.until);
    let start = printed_from(joint, first, laid.lead, laid.until);
    let units = put_argument::<S>(out, laid.put.end, rec, joint, start, base);
    let end = put_end::<S>(out, units.put.end, rec, own, first, units.last, base);
    Laid {
        put: Put {
            end,
            next: units.put.next,
        },
        lead: first,
        until: units.last,
    }
}

// Puts the value that stands there. A `loop`, since an element says where the next one stands.
pub fn put_value<S: Sink>(out: &mut [u8], at: usize, rec: &[u8], from: usize, base: u8) -> Put
    requires { ValueFits S.way rec.now from base at out.old }
    ensures { PutValue S.way rec.now from base at out.old result out.new }
{
    let mut laid = Laid {
        put: Put {
            end: at,
            next: from,
        },
        lead: from,
        until: from,
    };
    loop {
        laid = put_element::<S>(out, rec, from, laid, base);
        if record_walk::tag_at(rec, laid.put.next) < Tag::Single as u8 {
            return laid.put;
        }
    }
}
