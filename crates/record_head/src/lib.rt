// What stands before a record's code: a field with the number of its orders. Whoever walks over a record starts behind it.
#![tactic(auto)]

ghost use Rattle.std.specs.Prelude.{◌≡◌, ◌≤◌, length};
ghost use Rattle.laws.specs.Over.{over};
ghost use Rattle.rules.specs.Records.{head_size, head_bytes, count_in};
ghost use Rattle.record_head.specs.Heads.{Begins};

use record_walk::{HEADER, NUMBER, Tag};

// The bytes of a head: the code begins behind them.
pub const HEAD: usize = HEADER + NUMBER;

// The bytes of its content.
const CONTENT: u16 = NUMBER as u16;

// Whether bytes begin with a head.
pub fn begins(rec: &[u8]) -> bool
    ensures { Begins rec.now result }
{
    HEAD <= rec.len()
        && rec[0] == Tag::Count as u8
        && record_walk::field_end(rec[1], rec[2]) == HEAD
}

// The number of orders that a head says.
pub fn orders(rec: &[u8]) -> u32
    requires { head_size ≤ length rec.now }
    ensures { result ≡ count_in rec.now }
{
    record_walk::number_at(rec, HEADER)
}

// Writes a head with the number of orders.
pub fn put_head(out: &mut [u8], orders: u32)
    requires { head_size ≤ length out.old }
    ensures { out.new ≡ over (head_bytes orders) out.old }
{
    fields::put_header(out, Tag::Count as u8, CONTENT);
    record_walk::put_number(&mut out[HEADER..], orders);
}
