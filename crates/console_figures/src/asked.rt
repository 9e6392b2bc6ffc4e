// An argument that is asked for, as the only value of a command: written so, and taken out of such a command's text and of its record; and
// where the library found it.
ghost use Rattle.std.specs.Prelude.{◌≡◌, ◌+◌, ◌≤◌, length, drop};
ghost use Rattle.laws.specs.Over.{over};
ghost use Rattle.console_figures.specs.Asked.{asked, argument_text, argument_fields, member_of};

use record_walk::Tag;

// The bytes of the command before the argument, `A:`, and behind it, `;`.
pub const BEFORE: usize = 2;

pub const BEHIND: usize = 1;

// The bytes of the code's field in the command's record,
const CODE_FIELD: usize = record_walk::HEADER + 1;

// and where the value stands there: behind the number of orders, the code, the block and the place.
const VALUE: usize = record_walk::HEADER
    + record_walk::NUMBER
    + CODE_FIELD
    + 2 * record_walk::LETTER_FIELD;

// Puts the command of an argument to the start of `out`, and answers how many bytes it has.
pub fn put_asked(argument: &[u8], out: &mut [u8]) -> usize
    requires { length argument.now + 3 ≤ length out.old }
    ensures { (result ≡ length (asked argument.now)) × (out.new ≡ over (asked argument.now) out.old) }
{
    let end = BEFORE + argument.len();
    out[..BEFORE].copy_from_slice(b"A:");
    out[BEFORE..end].copy_from_slice(argument);
    out[end] = b';';
    end + BEHIND
}

// The argument in the text of such a command.
pub fn argument_text(text: &[u8]) -> &[u8]
    ensures { result.now ≡ argument_text text.now }
{
    text.get(BEFORE..text.len().saturating_sub(BEHIND))
        .unwrap_or_default()
}

// The unit fields of the argument in the record of such a command. Of a value that is no single argument all fields are handed back, and
// what stands behind a single one too: among them is then one that is no unit's.
pub fn argument_fields(rec: &[u8]) -> &[u8]
    ensures { result.now ≡ argument_fields rec.now }
{
    if record_walk::tag_at(rec, VALUE) == Tag::Single as u8 {
        return behind(rec, VALUE + record_walk::HEADER);
    }
    behind(rec, VALUE)
}

// The bytes from `at` on, none where there are fewer.
fn behind(bytes: &[u8], at: usize) -> &[u8]
    ensures { result.now ≡ drop at bytes.now }
{
    bytes.get(at..).unwrap_or_default()
}

// The argument's first position by the value that the library answers: 0 where there is no such argument, else one more than it.
pub fn found(value: u32) -> Option<u32>
    ensures { result ≡ member_of value }
{
    value.checked_sub(1)
}
