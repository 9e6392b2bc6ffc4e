// A record's fields, one behind the other, "one-byte tag, two-byte length, content": their tags and sizes, the numbers in them, and the walker over them.
#![tactic(auto)]

ghost use Rattle.std.specs.Prelude.{◌≡◌, ◌+◌, ◌*◌, ◌≤◌, length, drop};
ghost use Rattle.rules.specs.Characters.{between};
ghost use Rattle.laws.specs.Over.{over};
ghost use Rattle.rules.specs.Records.{num4, four_bytes, is_unit, is_element};
ghost use Rattle.record_walk.specs.Fields.{word_length, fits, field_at};
ghost use Rattle.record_walk.specs.Tags.{number, tag_named};
ghost use Rattle.record_walk.specs.Fronts.{tag_of, head_tag};
ghost use Rattle.record_walk.specs.Runs.{Whole, field_size, RunsTo, ElementTo};

// The tags of fields. Those from a numeral to a string are the units.
#[derive(Clone, Copy, Debug, PartialEq, Eq)]
pub enum Tag {
    // A code piece.
    Code = 1,
    // A block.
    Block = 2,
    // A place.
    Place = 3,
    // A name piece.
    Name = 4,
    // A single element.
    Single = 5,
    // A range element.
    Range = 6,
    // A D, H, O or B numeral, the first of the units.
    Numeral = 7,
    // A keyed numeral.
    Keyed = 8,
    // An identifier.
    Identifier = 9,
    // A symbolic name.
    Symbolic = 10,
    // A string, the last of the units.
    String = 11,
    // The number of orders, with which a record begins.
    Count = 12,
    // An order's length, which stands before each order of a list.
    OrderLength = 14,
}

// The bytes before a field's content: one of the tag, two of the length.
pub const HEADER: usize = 3;

// The bytes of a block's or a place's content: a letter.
pub const LETTER_CONTENT: usize = 1;

// The bytes of a range's content: upper end and increment.
pub const RANGE_CONTENT: usize = 8;

// The bytes of a numeral's content: letter, fraction digits, value.
pub const NUMERAL_CONTENT: usize = 6;

// The bytes of a block's or a place's field.
pub const LETTER_FIELD: usize = HEADER + LETTER_CONTENT;

// The bytes of a range's own field.
pub const RANGE_FIELD: usize = HEADER + RANGE_CONTENT;

// The bytes of a numeral's field.
pub const NUMERAL_FIELD: usize = HEADER + NUMERAL_CONTENT;

// The bytes of a number.
pub const NUMBER: usize = 4;

// Where in a field the low byte of its length stands.
pub const LENGTH: usize = 2;

// Where in a numeral's field the letter stands,
pub const LETTER: usize = HEADER;

// the number of its fraction digits,
pub const FRACTION: usize = LETTER + 1;

// and its value.
pub const VALUE: usize = FRACTION + 1;

// Where in a range's own field its upper end stands,
pub const UPPER: usize = HEADER;

// and its increment.
pub const INCREMENT: usize = UPPER + NUMBER;

// What the second byte from the end of a number counts.
const SECOND: u32 = 256;

// What the third byte from the end of a number counts.
const THIRD: u32 = 65536;

// What the fourth byte from the end of a number counts.
const FOURTH: u32 = 16777216;

// A field that stands at a position: its content is from `start` to `next`, where the next field begins.
#[derive(Clone, Copy, Debug, PartialEq, Eq)]
pub struct Field {
    pub tag: Tag,
    pub start: usize,
    pub next: usize,
}

// The number of four bytes, the high one first.
pub fn number(a: u8, b: u8, c: u8, d: u8) -> u32
    ensures { result ≡ a * 16777216 + b * 65536 + c * 256 + d }
{
    a as u32 * FOURTH + b as u32 * THIRD + c as u32 * SECOND + d as u32
}

// The number of four bytes that stands there.
pub fn number_at(bytes: &[u8], at: usize) -> u32
    requires { at + 4 ≤ length bytes.now }
    ensures { result ≡ num4 bytes.now at }
{
    number(bytes[at], bytes[1 + at], bytes[2 + at], bytes[3 + at])
}

// Writes a number of four bytes, the high one first.
pub fn put_number(out: &mut [u8], n: u32)
    requires { 4 ≤ length out.old }
    ensures { out.new ≡ over (four_bytes n) out.old }
{
    out[0] = (n / FOURTH) as u8;
    out[1] = (n / THIRD % SECOND) as u8;
    out[2] = (n / SECOND % SECOND) as u8;
    out[3] = (n % SECOND) as u8;
}

// A content's length from its two bytes, the high one first.
fn content_len(a: u8, b: u8) -> usize
    ensures { result ≡ a * 256 + b }
{
    a as usize * 256 + b as usize
}

// How many bytes a field has whose length has these two bytes.
pub fn field_end(a: u8, b: u8) -> usize
    ensures { result ≡ 3 + (a * 256 + b) }
{
    HEADER + content_len(a, b)
}

// Whether the tag is a unit's.
pub fn is_unit(tag: u8) -> bool
    ensures { result ≡ is_unit tag }
{
    Tag::Numeral as u8 <= tag && tag <= Tag::String as u8
}

// Whether the tag is an element's.
pub fn is_element(tag: u8) -> bool
    ensures { result ≡ is_element tag }
{
    tag == Tag::Single as u8 || tag == Tag::Range as u8
}

// The tag of the field that stands there, 0 at the record's end. A number and no Option: 0 is below every tag, so that callers ask for a tag, or for one from another on, by one comparison.
pub fn tag_at(rec: &[u8], at: usize) -> u8
    ensures { result ≡ tag_of (drop at rec.now) }
{
    if at < rec.len() { rec[at] } else { 0 }
}

// The tag of the field that stands there, 0 where there is no room for what stands before a content. As in `tag_at`, 0 is no tag, and callers ask by one comparison.
pub fn head_tag(rec: &[u8], at: usize) -> u8
    requires { at ≤ length rec.now }
    ensures { result ≡ head_tag (drop at rec.now) }
{
    if rec.len() < at + HEADER { 0 } else { rec[at] }
}

// Whether a word may be so long.
fn is_word_length(len: usize) -> bool
    ensures { result ≡ word_length len }
{
    1 <= len && len <= rules::MOST_WORD
}

impl Tag {
    // The tag that has this number.
    pub fn of(number: u8) -> Option<Tag>
        ensures { result ≡ tag_named number }
    {
        match number {
            1 => Some(Tag::Code),
            2 => Some(Tag::Block),
            3 => Some(Tag::Place),
            4 => Some(Tag::Name),
            5 => Some(Tag::Single),
            6 => Some(Tag::Range),
            7 => Some(Tag::Numeral),
            8 => Some(Tag::Keyed),
            9 => Some(Tag::Identifier),
            10 => Some(Tag::Symbolic),
            11 => Some(Tag::String),
            12 => Some(Tag::Count),
            14 => Some(Tag::OrderLength),
            _ => None,
        }
    }

    // Whether there are fields of this tag with contents so long. Each tag has an arm of its own, so that compiled code still knows the tag behind the length.
    #[tactic(auto, unfolding(crate::specs::Fields::fits))]
    fn fits(self, len: usize) -> bool
        ensures { result ≡ fits (number self) len }
    {
        match self {
            Tag::Code => is_word_length(len),
            Tag::Block => len == LETTER_CONTENT,
            Tag::Place => len == LETTER_CONTENT,
            Tag::Name => is_word_length(len),
            Tag::Single => len == 0,
            Tag::Range => len == RANGE_CONTENT,
            Tag::Numeral => len == NUMERAL_CONTENT,
            Tag::Keyed => is_word_length(len),
            Tag::Identifier => is_word_length(len),
            Tag::Symbolic => is_word_length(len),
            Tag::String => len <= rules::MOST_STRING,
            Tag::Count => false,
            Tag::OrderLength => false,
        }
    }
}

// The field that stands there, if its tag is one that there is, with a content as long as that tag's may be.
#[inline]
pub fn field_at(rec: &[u8], at: usize) -> Option<Field>
    requires { at ≤ length rec.now }
    ensures { result ≡ field_at rec.now at }
{
    let left = rec.len() - at;
    if left < HEADER {
        return None;
    }
    let len = content_len(rec[at + 1], rec[at + 2]);
    if left - HEADER < len {
        return None;
    }
    let tag = Tag::of(rec[at])?;
    if !tag.fits(len) {
        return None;
    }
    let start = at + HEADER;
    Some(Field {
        tag,
        start,
        next: start + len,
    })
}

// Where the field that stands there ends; at the record's end there is none.
pub fn after(rec: &[u8], at: usize) -> usize
    requires { Whole rec.now at }
    ensures { result ≡ at + field_size (drop at rec.now) }
{
    if at < rec.len() {
        at + field_end(rec[at + 1], rec[at + 2])
    } else {
        at
    }
}

// Whether the tag is one of those from `low` to `high`.
fn is_between(tag: u8, low: u8, high: u8) -> bool
    ensures { result ≡ between low high tag }
{
    low <= tag && tag <= high
}

// Where the fields end that stand there one behind the other with tags from `low` to `high`, which may be any bytes.
pub fn run_end(rec: &[u8], at: usize, low: u8, high: u8) -> usize
    requires { Whole rec.now at }
    ensures { RunsTo low high rec.now at result }
{
    let mut end = at;
    while end < rec.len() && is_between(rec[end], low, high) {
        end = after(rec, end);
    }
    end
}

// Where the element that stands there ends, behind its last unit.
pub fn element_end(rec: &[u8], at: usize) -> usize
    requires { Whole rec.now at }
    ensures { ElementTo rec.now at result }
{
    let units = after(rec, at);
    run_end(rec, units, Tag::Numeral as u8, Tag::String as u8)
}
