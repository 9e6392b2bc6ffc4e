// The index of places: a row of offsets filled from a record that is well formed, and compared with it; where a place's fields end.
#![tactic(auto)]

ghost use Rattle.std.specs.Prelude.{◌≤◌, ◌≡◌, length};
ghost use Rattle.index.specs.Rows.{WellFormed, Indexable, Fills, is_right, Agrees, HasPlace, EndsAt};

use record_head::HEAD;
use record_walk::{LETTER_FIELD, Tag};

// Writes where each place of a record begins into the row's first slots, one slot for each place.
pub fn fill(rec: &[u8], row: &mut [u32])
    requires { Indexable rec.now (length row.old) }
    ensures { Fills rec.now row.old row.new }
{
    let mut start = HEAD;
    let mut i = 0;
    while start < rec.len() {
        if rec[start] == Tag::Place as u8 {
            row[i] = start as u32;
            i += 1;
        }
        start = record_walk::after(rec, start);
    }
}

// Whether the row has a slot i, and that is the offset.
#[tactic(auto, unfolding(crate::specs::Rows::is_right))]
fn is_right(row: &[u32], i: usize, at: usize) -> bool
    ensures { result ≡ is_right row.now i at }
{
    i < row.len() && row[i] as usize == at
}

// How many slots of a row, from the first on, are the offsets of a record's places.
pub fn agreeing(rec: &[u8], row: &[u32]) -> usize
    requires { WellFormed rec.now }
    ensures { Agrees rec.now row.now result }
{
    let mut at = HEAD;
    let mut right = 0;
    while at < rec.len() {
        if rec[at] == Tag::Place as u8 {
            if !is_right(row, right, at) {
                return right;
            }
            right += 1;
        }
        at = record_walk::after(rec, at);
    }
    right
}

// Where the fields of the place end that begins there: behind its name and its value.
pub fn place_end(rec: &[u8], at: usize) -> usize
    requires { HasPlace rec.now at }
    ensures { EndsAt rec.now at result }
{
    record_walk::run_end(rec, at + LETTER_FIELD, Tag::Name as u8, Tag::String as u8)
}
