// The judge of a whole record, in one walk from behind its head: whether it is well formed, where the values of its places stand, the number of orders.
#![tactic(auto)]

ghost use Rattle.std.specs.Prelude.{◌≡◌, List, ◌*◌, ◌%◌, ◌<◌, ◌≤◌, length, drop};
ghost use Rattle.rules.specs.Refusals.{most_places, most_arguments, most_orders};
ghost use Rattle.rules.specs.Commands.{Place};
ghost use Rattle.rules.specs.Records.{block_tag, place_tag};
ghost use Rattle.rules.specs.WellFormed.{record_of, body_of};
ghost use Rattle.rules.specs.Answers.{Counts};
ghost use Rattle.record_walk.specs.Fronts.{head_tag};
ghost use Rattle.judge.specs.Blocks.{is_kind, counted};
ghost use Rattle.judge.specs.Judged.{per_place, most_told, told_at, orders_of, Stand, IsNext, IsPlaces, IsBlock, IsBlocks, Judges};

use judge_place::OnePlace;
use marks::Marks;
use record_walk::Tag;

// The numbers that are told of a place: its number of arguments, where its value begins, where it ends.
pub const PER_PLACE: usize = 3;

// The numbers that are told of the places of a command, if any are wanted.
pub const ROW: usize = PER_PLACE * rules::MOST_PLACES;

// What stands behind the head of a well-formed record is no longer, and positions up to this one can be told.
const MOST_TOLD: usize = 65535;

// The most pieces of a code.
const MOST_PIECES: usize = rules::MORE_OF_CODE + 1;

// The key of a place that has no name.
const NO_NAME: u32 = 0;

// A well-formed record: its number of places and of orders.
#[derive(Clone, Copy, Debug, PartialEq, Eq)]
pub struct Judged {
    pub places: usize,
    pub total: u32,
}

// Places: how many with those before, the orders with those before, and where the next field begins.
#[derive(Clone, Copy, Debug, PartialEq, Eq)]
pub struct Places {
    pub number: usize,
    pub orders: u32,
    pub next: usize,
}

// The next place of a block, and the key of its name.
#[derive(Clone, Copy, Debug, PartialEq, Eq)]
struct Next {
    place: OnePlace,
    key: u32,
}

// The place that stands at a position, in a block whose places begin at `from`: in a named block its name is new, those before it being marked.
fn judge_next(rec: &[u8], from: usize, at: usize, named: bool, known: Marks) -> Option<Next>
    requires { (head_tag (drop at rec.now) ≡ place_tag) × ((ps : List Place) × Stand named rec.now from at known ps) }
    ensures { IsNext named rec.now from at known result }
{
    let place = judge_place::judge_place(rec, at, named)?;
    let key = if named {
        judge_names::tell(
            &rec[from..at],
            &rec[at + record_walk::LETTER_FIELD..place.value],
            known,
        )?
    } else {
        NO_NAME
    };
    Some(Next { place, key })
}

// A place's numbers told, if any are wanted.
fn tell_span(row: &mut [u16], place: usize, number: u32, value: usize, next: usize)
    requires { (length row.old % per_place ≡ 0) × (place < most_places) × (number ≤ most_arguments) × (value ≤ most_told) × (next ≤ most_told) }
    ensures { row.new ≡ told_at row.old place number value next }
{
    let i = PER_PLACE * place;
    if i < row.len() {
        row[i] = number as u16;
        row[i + 1] = value as u16;
        row[i + 2] = next as u16;
    }
}

// The orders with one place more, an omitted place counting one, or too many.
fn times(total: u32, number: u32) -> Option<u32>
    requires { (total ≤ most_orders) × (number ≤ most_arguments) }
    ensures { result ≡ orders_of (total * counted number) }
{
    let product = total * number.max(1);
    (product as u64 <= rules::MOST_ORDERS).then_some(product)
}

// The places of a block, from behind its field on: no name twice, at least one, at most 32 with those before, and no more than 65,535 orders.
fn judge_places(
    rec: &[u8],
    from: usize,
    named: bool,
    before: usize,
    orders: u32,
    row: &mut [u16],
) -> Option<Places>
    requires { (from ≤ length rec.now) × (length rec.now ≤ most_told) × (before ≤ most_places) × (orders ≤ most_orders) × (length row.old % per_place ≡ 0) }
    ensures { IsPlaces named rec.now from before orders row.old row.new result }
{
    if record_walk::head_tag(rec, from) != Tag::Place as u8 {
        return None;
    }
    let mut at = from;
    let mut places = before;
    let mut total = orders;
    let mut marks = Marks::none();
    while record_walk::head_tag(rec, at) == Tag::Place as u8 {
        if places == rules::MOST_PLACES {
            return None;
        }
        let Next { place, key } = judge_next(rec, from, at, named, marks)?;
        total = times(total, place.number)?;
        tell_span(row, places, place.number, place.value, place.next);
        places += 1;
        at = place.next;
        marks = marks.with_if(named, key);
    }
    Some(Places {
        number: places,
        orders: total,
        next: at,
    })
}

// Whether the byte is a kind of block.
#[tactic(auto, unfolding(crate::specs::Blocks::is_kind))]
fn is_kind(kind: u8) -> bool
    ensures { result ≡ is_kind kind }
{
    matches!(kind, b'N' | b'P')
}

// The block that stands at a position: its field, and its places from behind the field on.
fn judge_block(rec: &[u8], at: usize, before: usize, orders: u32, row: &mut [u16]) -> Option<Places>
    requires { (head_tag (drop at rec.now) ≡ block_tag) × (length rec.now ≤ most_told) × (before ≤ most_places) × (orders ≤ most_orders) × (length row.old % per_place ≡ 0) }
    ensures { IsBlock rec.now at before orders row.old row.new result }
{
    let field = record_walk::field_at(rec, at)?;
    let kind = rec[field.start];
    if is_kind(kind) {
        return judge_places(rec, field.next, kind == b'N', before, orders, row);
    }
    None
}

// The blocks that stand from a position to the record's end: at most 8.
fn judge_blocks(rec: &[u8], from: usize, row: &mut [u16]) -> Option<Judged>
    requires { (from ≤ length rec.now) × (length rec.now ≤ most_told) × (length row.old % per_place ≡ 0) }
    ensures { IsBlocks rec.now from row.old row.new result }
{
    let mut at = from;
    let mut left = rules::MOST_BLOCKS;
    let mut places = 0usize;
    let mut total = 1u32;
    while record_walk::head_tag(rec, at) == Tag::Block as u8 {
        if left == 0 {
            return None;
        }
        let block = judge_block(rec, at, places, total, row)?;
        places = block.number;
        total = block.orders;
        at = block.next;
        left -= 1;
    }
    (at >= rec.len()).then_some(Judged { places, total })
}

// Whether a well-formed record has these bytes behind its head; if so, and if the row is as long as ROW, the numbers of its places stand there, in order,
// positions counted from behind the head.
fn judge_body(rec: &[u8], row: &mut [u16]) -> Option<Judged>
    requires { length row.old % per_place ≡ 0 }
    ensures { Judges (body_of rec.now) row.old row.new result }
{
    if MOST_TOLD < rec.len() {
        return None;
    }
    let code = judge_place::judge_pieces(rec, 0, Tag::Code, MOST_PIECES, false)?;
    if code.count == 0 {
        return None;
    }
    judge_blocks(rec, code.next, row)
}

// Whether the bytes are a well-formed record: its head, what stands behind it, and whether the head's number is the product that was collected there.
pub fn judge(rec: &[u8], row: &mut [u16]) -> Option<Judged>
    requires { length row.old % per_place ≡ 0 }
    ensures { Judges (record_of rec.now) row.old row.new result }
{
    if record_head::begins(rec) {
        let judged = judge_body(&rec[record_head::HEAD..], row)?;
        return (judged.total == record_head::orders(rec)).then_some(judged);
    }
    None
}

// The number of orders of a record: that of its head, once the record is judged.
pub fn count(rec: &[u8]) -> rules::Answer
    ensures { Counts rec.now result }
{
    let mut none = [0u16; 0];
    let judged = judge(rec, &mut none).ok_or(rules::Reason::NotWellFormed.at(0))?;
    Ok(judged.total)
}
