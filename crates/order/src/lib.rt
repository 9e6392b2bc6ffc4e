// Order k of a record by the direct rule, over the judge's row and from behind the record's head: each place's position, from the last place back; the length; the bytes, and the offsets of
// its places into a lent row. Who wants no offsets has as many slots as there can be places. `put_order` has two callers, so it stays a function of its own, and its frame does not
// stand on the stack while the record is judged.
#![tactic(auto)]

ghost use Rattle.std.specs.Prelude.{◌≡◌, ◌≤◌, length, replicate};
ghost use Rattle.laws.specs.Over.{over};
ghost use Rattle.rules.specs.Answers.{Orders, OrdersRow};
ghost use Rattle.judge.specs.Judged.{row_length, Told};
ghost use Rattle.order.specs.Reduced.{reduced, order_bytes};
ghost use Rattle.order.specs.Plans.{positions_in, Planned, Plans, slot_for, goes_on, Within, changed, PutsOrder, IsOrder, PutsIndexed, IsPlan};

use record_walk::Tag;
use rules::{Answer, Reason, Refusal};

// Where in its three numbers the value's start stands.
const START: usize = 1;

// Where in its three numbers the value's end stands.
const END: usize = 2;

// The value stays as it is: a value has no more arguments than this, so that no position is as high.
const KEPT: u16 = rules::MOST_ARGUMENTS as u16;

// The number of orders that an order has: itself.
const SOLE: u32 = 1;

// What becomes of a value: its place's position; a value without a choice stays as it is, if it is no range.
fn position(rec: &[u8], value: usize, number: u16, left: u32) -> u16
    ensures { result ≡ slot_for rec.now value number left }
{
    if 1 < number {
        return (left % number as u32) as u16;
    }
    if record_walk::tag_at(rec, value) == Tag::Range as u8 {
        return 0;
    }
    KEPT
}

// What is left of k for the place before.
fn quotient(number: u16, left: u32) -> u32
    ensures { result ≡ goes_on number left }
{
    if 1 < number {
        return left / number as u32;
    }
    left
}

// Each place's position, where its number of arguments stood: from the last place back the remainder, and the quotient goes on.
fn positions(rec: &[u8], row: &mut [u16], k: u32)
    requires { Told rec.now row.old }
    ensures { Plans rec.now k row.new }
{
    let mut left = k;
    let mut i = row.len();
    while 0 < i {
        i -= judge::PER_PLACE;
        let number = row[i];
        let value = row[i + START] as usize;
        row[i] = position(rec, value, number, left);
        left = quotient(number, left);
    }
}

// Writes a changed value, and before it in one copy the bytes that are not yet written.
fn put_changed(
    out: &mut [u8],
    rec: &[u8],
    at: usize,
    value: usize,
    argument: order_argument::Argument,
) -> usize
    requires { Within rec.now at value argument × (length (changed rec.now at value argument) ≤ length out.old) }
    ensures { (result ≡ length (changed rec.now at value argument))
        × (out.new ≡ over (changed rec.now at value argument) out.old) }
{
    let start = argument.start;
    let end = argument.end;
    let kept = value - at;
    fields::put_bytes(out, &rec[at..value]);
    kept + order_argument::put_argument(&mut out[kept..], &rec[start..end], argument.term)
}

// The length of an order's record: an argument takes the place of each changed value.
fn order_len(rec: &[u8], row: &[u16]) -> usize
    requires { Planned rec.now row.now }
    ensures { result ≡ length (order_bytes rec.now (positions_in row.now)) }
{
    let mut len = record_head::HEAD + rec.len();
    let mut i = 0;
    while i < row.len() {
        let position = row[i];
        if position < KEPT {
            let value = row[i + START] as usize;
            let next = row[i + END] as usize;
            let argument = order_argument::nth_argument(rec, value, position as u32);
            let start = argument.start;
            let end = argument.end;
            len = len - (next - value) + order_argument::argument_len(&rec[start..end]);
            i += judge::PER_PLACE;
        } else {
            i += judge::PER_PLACE;
        }
    }
    len
}

// Writes what stands behind the head, with each value reduced as the row says.
fn put_reduced(out: &mut [u8], rec: &[u8], row: &[u16]) -> usize
    requires { Planned rec.now row.now × (length (reduced rec.now (positions_in row.now)) ≤ length out.old) }
    ensures { (result ≡ length (reduced rec.now (positions_in row.now)))
        × (out.new ≡ over (reduced rec.now (positions_in row.now)) out.old) }
{
    let mut at = 0;
    let mut len = 0;
    let mut i = 0;
    while i < row.len() {
        let position = row[i];
        if position < KEPT {
            let value = row[i + START] as usize;
            let argument = order_argument::nth_argument(rec, value, position as u32);
            len += put_changed(&mut out[len..], rec, at, value, argument);
            at = row[i + END] as usize;
            i += judge::PER_PLACE;
        } else {
            i += judge::PER_PLACE;
        }
    }
    fields::put_bytes(&mut out[len..], &rec[at..]);
    len + (rec.len() - at)
}

// Writes an order's record: its head, and behind it each value reduced as the row says.
fn put_whole(out: &mut [u8], rec: &[u8], row: &[u16]) -> usize
    requires { Planned rec.now row.now × (length (order_bytes rec.now (positions_in row.now)) ≤ length out.old) }
    ensures { (result ≡ length (order_bytes rec.now (positions_in row.now)))
        × (out.new ≡ over (order_bytes rec.now (positions_in row.now)) out.old) }
{
    record_head::put_head(out, SOLE);
    record_head::HEAD + put_reduced(&mut out[record_head::HEAD..], rec, row)
}

// Writes that record; 17 with the bytes needed if the buffer is too short, which only a buffer shorter than the record can be, then 17 with the places if the slots are fewer.
fn put_order(out: &mut [u8], rec: &[u8], row: &[u16], slots: usize) -> Answer
    requires { Planned rec.now row.now × (length row.now ≤ row_length) }
    ensures { PutsOrder rec.now row.now slots out.old result out.new }
{
    if out.len() < record_head::HEAD + rec.len() {
        let need = order_len(rec, row);
        if out.len() < need {
            return Err(Reason::NoRoom.at(need as u32));
        }
    }
    let places = row.len() / judge::PER_PLACE;
    if slots < places {
        return Err(Reason::NoRoom.at(places as u32));
    }
    Ok(put_whole(out, rec, row) as u32)
}

// The same, and the offsets of its places into a lent row, from the record that was written.
fn put_indexed(out: &mut [u8], rec: &[u8], row: &[u16], offsets: &mut [u32]) -> Answer
    requires { Planned rec.now row.now × (length row.now ≤ row_length) × IsOrder rec.now row.now }
    ensures { PutsIndexed rec.now row.now out.old offsets.old result out.new offsets.new }
{
    let bytes = put_order(out, rec, row, offsets.len())?;
    index::fill(&out[..bytes as usize], offsets);
    Ok(bytes)
}

// Each place's position in order k, in the row's front: 18 if the record is not well formed, 19 with the count if k is not below it.
fn plan(rec: &[u8], k: u64, row: &mut [u16]) -> Result<usize, Refusal>
    requires { row.old ≡ replicate row_length 0 }
    ensures { IsPlan rec.now k row.new result }
{
    let judged = judge::judge(rec, row).ok_or(Reason::NotWellFormed.at(0))?;
    if judged.total as u64 <= k {
        return Err(Reason::NoSuchOrder.at(judged.total));
    }
    let told = judge::PER_PLACE * judged.places;
    positions(&rec[record_head::HEAD..], &mut row[..told], k as u32);
    Ok(told)
}

// Order k of a record.
pub fn order(rec: &[u8], k: u64, out: &mut [u8]) -> Answer
    ensures { Orders rec.now k out.old result out.new }
{
    let mut row = [0u16; judge::ROW];
    let told = plan(rec, k, &mut row)?;
    put_order(
        out,
        &rec[record_head::HEAD..],
        &row[..told],
        rules::MOST_PLACES,
    )
}

// Order k of a record, and the offsets of its places into a lent row.
pub fn order_row(rec: &[u8], k: u64, out: &mut [u8], offsets: &mut [u32]) -> Answer
    ensures { OrdersRow rec.now k out.old offsets.old result out.new offsets.new }
{
    let mut row = [0u16; judge::ROW];
    let told = plan(rec, k, &mut row)?;
    put_indexed(out, &rec[record_head::HEAD..], &row[..told], offsets)
}
