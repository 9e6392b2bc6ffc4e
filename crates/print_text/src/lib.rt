// The text of a record that is known to be well formed, from behind its head: code, blocks, places. Each writer is told from where on in the lent buffer and in
// the record, and says where both go on; over `Measure` in place of `Page` it writes nothing.
#![tactic(auto)]

ghost use Rattle.std.specs.Prelude.{◌≡◌, true, ◌+◌, ◌^◌, ◌≤◌, ◌<◌, length};
ghost use Rattle.laws.specs.Over.{over};
ghost use Rattle.rules.specs.WellFormed.{well_formed_body};
ghost use Rattle.print_unit.specs.Ways.{Fits, Puts};
ghost use Rattle.print_text.specs.Texts.{text_of};
ghost use Rattle.print_text.specs.Places.{PiecesFit, PutPieces, NameFits, PutName, ContentFits, PutContent, own_field, separator_at, PlaceFits, PutPlace};

use print_unit::{Measure, Page, Sink};
use print_value::Put;
use record_walk::Tag;

// Puts the pieces that stand there in fields of the tag, joined by `-`. A `loop`, since a field says how far the next one is; the tag as its byte, since
// `tag as u8` of a `Tag` is a match of thirteen arms in the loop's proof, and the proof did not close.
fn put_pieces<S: Sink>(out: &mut [u8], rec: &[u8], from: Put, tag: u8) -> Put
    requires { PiecesFit S.way rec.now from tag out.old }
    ensures { PutPieces S.way rec.now from tag out.old result out.new }
{
    let mut end = from.end;
    let mut piece = from.next;
    loop {
        let next = print_value::behind(rec, piece);
        let behind = S::put_bytes(out, end, &rec[piece + record_walk::HEADER..next]);
        if record_walk::tag_at(rec, next) != tag {
            return Put { end: behind, next };
        }
        end = S::put_u8(out, behind, b'-');
        piece = next;
    }
}

// Puts the name that stands there and `=`, if one does.
fn put_name<S: Sink>(out: &mut [u8], rec: &[u8], from: Put) -> Put
    requires { NameFits S.way rec.now from out.old }
    ensures { PutName S.way rec.now from out.old result out.new }
{
    if record_walk::tag_at(rec, from.next) != Tag::Name as u8 {
        return from;
    }
    let name = put_pieces::<S>(out, rec, from, Tag::Name as u8);
    let end = S::put_u8(out, name.end, b'=');
    Put {
        end,
        next: name.next,
    }
}

// Puts the value that stands there, if one does.
fn put_content<S: Sink>(out: &mut [u8], rec: &[u8], from: Put, base: u8) -> Put
    requires { ContentFits S.way rec.now from base out.old }
    ensures { PutContent S.way rec.now from base out.old result out.new }
{
    if record_walk::tag_at(rec, from.next) < Tag::Single as u8 {
        return from;
    }
    print_value::put_value::<S>(out, from.end, rec, from.next, base)
}

// Where the field of the place stands that stands there, or that begins the block which does.
fn own_field(tag: u8, at: usize) -> usize
    requires { at + 4 < 2 ^ 64 }
    ensures { result ≡ own_field tag at }
{
    if tag == Tag::Block as u8 {
        return at + record_walk::LETTER_FIELD;
    }
    at
}

// The separator before a place: `:` where it begins a block.
fn separator(tag: u8) -> u8
    ensures { result ≡ separator_at tag }
{
    if tag == Tag::Block as u8 {
        return b':';
    }
    b','
}

// Puts the place that stands there, with the separator before it.
fn put_place<S: Sink>(out: &mut [u8], rec: &[u8], from: Put) -> Put
    requires { PlaceFits S.way rec.now from out.old }
    ensures { PutPlace S.way rec.now from out.old result out.new }
{
    let own = own_field(rec[from.next], from.next);
    let end = S::put_u8(out, from.end, separator(rec[from.next]));
    let base = rec[own + record_walk::HEADER];
    let name = Put {
        end,
        next: own + record_walk::LETTER_FIELD,
    };
    let value = put_name::<S>(out, rec, name);
    put_content::<S>(out, rec, value, base)
}

// Puts the text of a record that has these bytes behind its head. A `while`, since a place says where the next one stands.
fn put_all<S: Sink>(out: &mut [u8], rec: &[u8]) -> usize
    requires { (well_formed_body rec.now ≡ true) × Fits S.way (text_of rec.now) 0 out.old }
    ensures { Puts S.way (text_of rec.now) 0 out.old result out.new }
{
    let mut put = put_pieces::<S>(out, rec, Put { end: 0, next: 0 }, Tag::Code as u8);
    while put.next < rec.len() {
        put = put_place::<S>(out, rec, put);
    }
    S::put_u8(out, put.end, b';')
}

// Writes the text of a record that has these bytes behind its head. Returns how many characters.
pub fn put_text(out: &mut [u8], rec: &[u8]) -> usize
    requires { (well_formed_body rec.now ≡ true) × (length (text_of rec.now) ≤ length out.old) }
    ensures { (result ≡ length (text_of rec.now)) × (out.new ≡ over (text_of rec.now) out.old) }
{
    put_all::<Page>(out, rec)
}

// How many characters it has.
pub fn text_len(rec: &[u8]) -> usize
    requires { well_formed_body rec.now ≡ true }
    ensures { result ≡ length (text_of rec.now) }
{
    put_all::<Measure>(&mut [0u8; 0], rec)
}
