// What the programs over the library take from bytes: numbers and bytes that a text writes in digits, the first bytes of a buffer, a
// record's own base letters, the first order of a list, and an argument that is asked for.
#![tactic(auto)]

mod asked;
mod letters;
mod numbers;
mod pieces;

ghost use Rattle.std.specs.Prelude.{◌≡◌, take};

pub use asked::{BEFORE, BEHIND, argument_fields, argument_text, found, put_asked};
pub use letters::own_bases;
pub use numbers::{OutOfPlace, decimal, decode};
pub use pieces::{LENGTH_FIELD, first_order};

// The first n bytes, or all where there are fewer.
pub fn front(bytes: &[u8], n: usize) -> &[u8]
    ensures { result.now ≡ take n bytes.now }
{
    bytes.get(..n).unwrap_or(bytes)
}
