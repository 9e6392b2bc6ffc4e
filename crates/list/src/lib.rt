// The whole list of a record's orders on one buffer, each behind its length: an argument of each place's value moves like an odometer, the last place fastest. The direct rule of an order is not used.
#![tactic(auto)]

ghost use Rattle.std.specs.Prelude.{◌≡◌, ◌∷◌, ◌≤◌, ◌<◌, length, take, drop};
ghost use Rattle.laws.specs.Over.{over};
ghost use Rattle.rules.specs.Refusals.{ok};
ghost use Rattle.rules.specs.Listing.{piece_of, length_bytes};
ghost use Rattle.rules.specs.Answers.{fitted, Promise, Lists};
ghost use Rattle.judge.specs.Blocks.{counted};
ghost use Rattle.record_walk.specs.Values.{Value};
ghost use Rattle.list_argument.specs.Standings.{Argument};
ghost use Rattle.list.specs.Filled.{list_of, filled, order_of, Unrolls, stays_at};
ghost use Rattle.list.specs.Odometer.{standing_in, arguments_in, Restarts, Begun, Odometer, Steps, Turns};

use list_argument::Standing;
use record_walk::Tag;
use rules::{Answer, Reason};

// Where in the three numbers of a place its value's start stands.
const START: usize = 1;

// Where in the three numbers of a place its value's end stands.
const END: usize = 2;

// Where in the three numbers of a standing its element's end stands, behind the element's start.
const ELEMENT_END: usize = 1;

// Where in the three numbers of a standing its term stands.
const TERM: usize = 2;

// The bytes of the content of an order's length.
const CONTENT: u16 = record_walk::NUMBER as u16;

// The bytes of its field: the order begins behind them.
const LENGTH_FIELD: usize = record_walk::HEADER + record_walk::NUMBER;

// The bytes before an order's code: its length and its own head.
const HEADS: usize = LENGTH_FIELD + record_head::HEAD;

// The number of orders that an order has: itself.
const SOLE: u32 = 1;

// Whether a place's value is the same in every order: no choice, and no range, which an order writes anew.
fn stays(rec: &[u8], number: u16, from: u16) -> bool
    ensures { result ≡ stays_at rec.now number from }
{
    if 1 < number {
        return false;
    }
    record_walk::tag_at(rec, from as usize) != Tag::Range as u8
}

// The places whose values are not, moved to the row's front. Returns how many numbers these are.
fn moving(rec: &[u8], row: &mut [u16]) -> usize
    requires { Unrolls rec.now row.old }
    ensures { (result ≤ length row.new) × Unrolls rec.now (take result row.new) }
{
    let mut n = 0;
    let mut i = 0;
    while i < row.len() {
        if stays(rec, row[i], row[i + START]) {
            i += judge::PER_PLACE;
        } else {
            row[n] = row[i];
            row[n + START] = row[i + START];
            row[n + END] = row[i + END];
            n += judge::PER_PLACE;
            i += judge::PER_PLACE;
        }
    }
    n
}

// Keeps where an argument stands in three numbers.
fn keep(at: &mut [u32], standing: Standing)
    requires { (3 ≤ length at.old) × (standing.start < 4294967296) × (standing.end < 4294967296) }
    ensures { at.new ≡ standing.start ∷ (standing.end ∷ (standing.term ∷ drop 3 at.old)) }
{
    at[0] = standing.start as u32;
    at[ELEMENT_END] = standing.end as u32;
    at[TERM] = standing.term;
}

// The first argument of a place's value: its three numbers are first in the row.
fn restart(rec: &[u8], from: u16, to: u16, at: &mut [u32])
    requires { Value rec.now from to × (3 ≤ length at.old) }
    ensures { Restarts rec.now from to at.old at.new }
{
    let standing = list_argument::first(rec, from as usize, to as usize);
    keep(at, standing);
}

// The first argument of each place's value.
fn begin(rec: &[u8], row: &[u16], at: &mut [u32])
    requires { Unrolls rec.now row.now × (length at.old ≡ length row.now) }
    ensures { Begun rec.now row.now at.new }
{
    let mut i = row.len();
    while 0 < i {
        i -= judge::PER_PLACE;
        restart(rec, row[i + START], row[i + END], &mut at[i..]);
    }
}

// The next argument of a place's value, whose three numbers are first in the row; behind the last one the first again, and false.
fn step(rec: &[u8], from: u16, to: u16, at: &mut [u32]) -> bool
    requires { Value rec.now from to × Argument rec.now to (standing_in at.old) × (3 ≤ length at.old) }
    ensures { Steps rec.now from to at.old result at.new }
{
    let standing = Standing {
        start: at[0] as usize,
        end: at[ELEMENT_END] as usize,
        term: at[TERM],
    };
    let after = list_argument::next(rec, standing, to as usize);
    if after.start < to as usize {
        keep(at, after);
        return true;
    }
    restart(rec, from, to, at);
    false
}

// The next combination: from the last place back, until one goes on. False where it was the last, and all begin again.
fn turn(rec: &[u8], row: &[u16], at: &mut [u32]) -> bool
    requires { Odometer rec.now row.now at.old }
    ensures { Turns rec.now row.now at.old result at.new }
{
    let mut i = row.len();
    while 0 < i {
        i -= judge::PER_PLACE;
        let from = row[i + START];
        let to = row[i + END];
        if step(rec, from, to, &mut at[i..]) {
            return true;
        }
    }
    false
}

// Writes what stands behind an order's head: the record's bytes, with the argument that stands there in place of each value.
fn put_filled(out: &mut [u8], rec: &[u8], row: &[u16], at: &[u32]) -> usize
    requires { Odometer rec.now row.now at.now × (length (filled rec.now 0 row.now (arguments_in rec.now at.now)) ≤ length out.old) }
    ensures { (result ≡ length (filled rec.now 0 row.now (arguments_in rec.now at.now)))
        × (out.new ≡ over (filled rec.now 0 row.now (arguments_in rec.now at.now)) out.old) }
{
    let mut from = 0;
    let mut len = 0;
    let mut i = 0;
    while i < row.len() {
        let value = row[i + START] as usize;
        fields::put_bytes(&mut out[len..], &rec[from..value]);
        len += value - from;
        let start = at[i] as usize;
        let end = at[i + ELEMENT_END] as usize;
        len += order_argument::put_valued(&mut out[len..], &rec[start..end], at[i + TERM]);
        from = row[i + END] as usize;
        i += judge::PER_PLACE;
    }
    fields::put_bytes(&mut out[len..], &rec[from..]);
    len + (rec.len() - from)
}

// Writes an order's length.
fn put_length(out: &mut [u8], n: u32)
    requires { 7 ≤ length out.old }
    ensures { out.new ≡ over (length_bytes n) out.old }
{
    fields::put_header(out, Tag::OrderLength as u8, CONTENT);
    record_walk::put_number(&mut out[record_walk::HEADER..], n);
}

// Writes the order of the arguments that stand there.
fn put_order(out: &mut [u8], rec: &[u8], row: &[u16], at: &[u32]) -> usize
    requires { Odometer rec.now row.now at.now × (length (order_of rec.now row.now (arguments_in rec.now at.now)) ≤ length out.old) }
    ensures { (result ≡ length (order_of rec.now row.now (arguments_in rec.now at.now)))
        × (out.new ≡ over (order_of rec.now row.now (arguments_in rec.now at.now)) out.old) }
{
    record_head::put_head(out, SOLE);
    record_head::HEAD + put_filled(&mut out[record_head::HEAD..], rec, row, at)
}

// Writes it behind its length, which is known once it is written.
fn put_piece(out: &mut [u8], rec: &[u8], row: &[u16], at: &[u32]) -> usize
    requires { Odometer rec.now row.now at.now
        × (length (piece_of (order_of rec.now row.now (arguments_in rec.now at.now))) ≤ length out.old)
        × (length (order_of rec.now row.now (arguments_in rec.now at.now)) < 4294967296) }
    ensures { (result ≡ length (piece_of (order_of rec.now row.now (arguments_in rec.now at.now))))
        × (out.new ≡ over (piece_of (order_of rec.now row.now (arguments_in rec.now at.now))) out.old) }
{
    let len = put_order(&mut out[LENGTH_FIELD..], rec, row, at);
    put_length(out, len as u32);
    LENGTH_FIELD + len
}

// Writes all pieces: after each the odometer turns.
fn put_pieces(out: &mut [u8], rec: &[u8], row: &[u16], at: &mut [u32])
    requires { Unrolls rec.now row.now × (length at.old ≡ length row.now) × (length (list_of rec.now) ≤ length out.old) }
    ensures { out.new ≡ over (list_of rec.now) out.old }
{
    begin(rec, row, at);
    let mut done = 0;
    loop {
        done += put_piece(&mut out[done..], rec, row, at);
        if !turn(rec, row, at) {
            return;
        }
    }
}

// How many combinations a place with so many arguments makes of one: "An omitted place counts one."
fn choices(number: u16) -> usize
    ensures { result ≡ counted number }
{
    if number == 0 {
        return 1;
    }
    number as usize
}

// The bytes of all pieces, without writing one: from the last place back, how many combinations there are and how many bytes their arguments take; what no order changes stands in each.
fn list_len(rec: &[u8], row: &[u16]) -> usize
    requires { Unrolls rec.now row.now }
    ensures { result ≡ length (list_of rec.now) }
{
    let mut kept = rec.len();
    let mut orders = 1;
    let mut len = 0;
    let mut i = row.len();
    while 0 < i {
        i -= judge::PER_PLACE;
        let number = choices(row[i]);
        let from = row[i + START];
        let to = row[i + END];
        len = number * len + orders * list_argument::arguments_len(rec, from, to);
        orders = number * orders;
        kept -= (to - from) as usize;
    }
    orders * (HEADS + kept) + len
}

// Writes the list; 17 with the bytes needed if the buffer is too short.
fn put_list(out: &mut [u8], rec: &[u8], row: &[u16], at: &mut [u32]) -> Answer
    requires { Unrolls rec.now row.now × (length at.old ≡ length row.now) }
    ensures { Promise (fitted out.old (ok (list_of rec.now))) out.old result out.new }
{
    let need = list_len(rec, row);
    if out.len() < need {
        return Err(Reason::NoRoom.at(need as u32));
    }
    put_pieces(out, rec, row, at);
    Ok(need as u32)
}

// The whole list of a record: 18 if the record is not well formed, 17 if the buffer is too short.
pub fn list(rec: &[u8], out: &mut [u8]) -> Answer
    ensures { Lists rec.now out.old result out.new }
{
    let mut row = [0u16; judge::ROW];
    let judged = judge::judge(rec, &mut row).ok_or(Reason::NotWellFormed.at(0))?;
    let told = judge::PER_PLACE * judged.places;
    let body = &rec[record_head::HEAD..];
    let moves = moving(body, &mut row[..told]);
    let mut standings = [0u32; judge::ROW];
    put_list(out, body, &row[..moves], &mut standings[..moves])
}
