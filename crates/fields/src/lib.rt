// Tagged fields of records. Each writer is lent the buffer from its field's start on, and says every byte of it.
#![tactic(auto)]

ghost use Rattle.std.specs.Prelude.{◌≡◌, [], ◌∷◌, map, ◌+◌, ◌≤◌, ◌<◌, length};
ghost use Rattle.laws.specs.Over.{over};
ghost use Rattle.rules.specs.Characters.{capital};
ghost use Rattle.rules.specs.Records.{field, field_bytes};
ghost use Rattle.fields.specs.Units.{two_bytes, numeral_bytes, unit_bytes, Skips};

use record_walk::Tag;
use units::{Fault, Word};

// The bytes of a numeral's content, as its field says them.
const NUMERAL_CONTENT: u16 = record_walk::NUMERAL_CONTENT as u16;

// Writes one byte.
pub fn put_u8(out: &mut [u8], n: u8)
    requires { 1 ≤ length out.old }
    ensures { out.new ≡ over (n ∷ []) out.old }
{
    out[0] = n;
}

// Writes a number of two bytes, the high one first.
pub fn put_u16(out: &mut [u8], n: u16)
    requires { 2 ≤ length out.old }
    ensures { out.new ≡ over (two_bytes n) out.old }
{
    out[0] = (n / 256) as u8;
    out[1] = (n % 256) as u8;
}

// Writes a copy of the content. The library's `copy_from_slice` calls `memmove`, which the archive for C must not need (include/mml.h).
pub fn put_bytes(out: &mut [u8], content: &[u8])
    requires { length content.now ≤ length out.old }
    ensures { out.new ≡ over content.now out.old }
{
    for i in 0..content.len() {
        out[i] = content[i];
    }
}

// Writes the capitals of the content, each straight to its place.
fn put_capitals(out: &mut [u8], content: &[u8])
    requires { length content.now ≤ length out.old }
    ensures { out.new ≡ over (map capital content.now) out.old }
{
    for i in 0..content.len() {
        out[i] = digits::capital_of(content[i]);
    }
}

// Writes what stands before a field's content: the tag, which may be any byte, and the content's length in two bytes.
pub fn put_header(out: &mut [u8], tag: u8, n: u16)
    requires { 3 ≤ length out.old }
    ensures { out.new ≡ over (tag ∷ two_bytes n) out.old }
{
    put_u8(out, tag);
    put_u16(&mut out[1..], n);
}

// Writes a field: tag, length in two bytes, content. Returns how many bytes it wrote.
pub fn put_field(out: &mut [u8], tag: u8, content: &[u8]) -> usize
    requires { (length content.now < 65536) × (3 + length content.now ≤ length out.old) }
    ensures { (result ≡ 3 + length content.now)
        × (out.new ≡ over (field_bytes (field tag content.now)) out.old) }
{
    let n = content.len();
    put_header(out, tag, n as u16);
    put_bytes(&mut out[record_walk::HEADER..], content);
    record_walk::HEADER + n
}

// Writes the field of a keyed numeral, its letters as capitals. Returns how many bytes it wrote. Not one function with `put_field`: the contract on a closure that writes the content would be longer than these three calls.
fn put_keyed(out: &mut [u8], content: &[u8]) -> usize
    requires { (length content.now < 65536) × (3 + length content.now ≤ length out.old) }
    ensures { (result ≡ 3 + length content.now)
        × (out.new ≡ over (field_bytes (field 8 (map capital content.now))) out.old) }
{
    let n = content.len();
    put_header(out, Tag::Keyed as u8, n as u16);
    put_capitals(&mut out[record_walk::HEADER..], content);
    record_walk::HEADER + n
}

// Writes the field of a D, H, O or B numeral.
pub fn put_numeral(out: &mut [u8], letter: u8, fraction: u8, value: u32)
    requires { 9 ≤ length out.old }
    ensures { out.new ≡ over (numeral_bytes letter fraction value) out.old }
{
    put_header(out, Tag::Numeral as u8, NUMERAL_CONTENT);
    put_u8(&mut out[record_walk::LETTER..], letter);
    put_u8(&mut out[record_walk::FRACTION..], fraction);
    record_walk::put_number(&mut out[record_walk::VALUE..], value);
}

// How many bytes the field of a word's unit has: none where the word is no unit.
#[tactic(auto, unfolding(crate::specs::Units::unit_bytes, crate::specs::Units::numeral_bytes))]
pub fn unit_len(word: &[u8], unit: Result<Word, Fault>) -> usize
    requires { (length word.now < 65536) × Skips word.now unit }
    ensures { result ≡ length (unit_bytes word.now unit) }
{
    let Ok(unit) = unit else {
        return 0;
    };
    match unit {
        Word::Numeral {
            letter,
            fraction,
            value,
        } => record_walk::NUMERAL_FIELD,
        Word::Keyed { skip } => record_walk::HEADER + (word.len() - skip),
        Word::Identifier | Word::Symbolic => record_walk::HEADER + word.len(),
    }
}

// Writes the field of a word's unit: nothing where the word is no unit. Returns how many bytes it wrote.
pub fn put_unit(out: &mut [u8], word: &[u8], unit: Result<Word, Fault>) -> usize
    requires { (length word.now < 65536) × Skips word.now unit × (length (unit_bytes word.now unit) ≤ length out.old) }
    ensures { (result ≡ length (unit_bytes word.now unit))
        × (out.new ≡ over (unit_bytes word.now unit) out.old) }
{
    let Ok(unit) = unit else {
        return 0;
    };
    match unit {
        Word::Numeral {
            letter,
            fraction,
            value,
        } => {
            put_numeral(out, letter, fraction, value);
            record_walk::NUMERAL_FIELD
        }
        Word::Keyed { skip } => put_keyed(out, &word[skip..]),
        Word::Identifier => put_field(out, Tag::Identifier as u8, word),
        Word::Symbolic => put_field(out, Tag::Symbolic as u8, word),
    }
}
