// The record of a command that is right, written from its tokens: head, code, block by block, place by place. Each writer is lent the buffer
// from its start position, and says every byte of it.
#![tactic(auto)]

ghost use Rattle.std.specs.Prelude.{◌+◌, ◌≤◌, ◌≡◌, true, cond, [], ◌∷◌, length};
ghost use Rattle.laws.specs.Over.{over};
ghost use Rattle.rules.specs.Characters.{byte};
ghost use Rattle.rules.specs.Records.{field, field_bytes};
ghost use Rattle.token_table.specs.Parts.{words_in, words_size};
ghost use Rattle.command_fields.specs.Recorder.{word_bytes, NameFits, PutName, PlaceFits, PutPlace, PlacesFit, PutPlaces, BlockFits, PutBlock, BlocksFit, PutBlocks, SegmentsFit, PutSegments, CommandFits, PutCommand};

use record_head::HEAD;
use record_walk::Tag;
use token_table::{Kind, Token};

// From one piece to the next: the piece and the `-` behind it.
const STEP: usize = 2;

// What was written: the number of bytes, and the number of places so far.
#[derive(Clone, Copy, Debug, PartialEq, Eq)]
pub struct Put {
    pub bytes: usize,
    pub places: usize,
}

// The pieces of a code or of a name: a field for every other token.
fn put_pieces(out: &mut [u8], tag: u8, toks: &[Token], contents: &[u8]) -> usize
    requires { words_size (words_in true contents.now toks.now) ≤ length out.old }
    ensures { (result ≡ words_size (words_in true contents.now toks.now))
        × (out.new ≡ over (word_bytes tag (words_in true contents.now toks.now)) out.old) }
{
    let mut k: usize = 0;
    for t in toks.iter().step_by(STEP) {
        k += fields::put_field(&mut out[k..], tag, t.content(contents));
    }
    k
}

// A field whose content is one byte.
fn put_byte(out: &mut [u8], tag: u8, b: u8) -> usize
    requires { 4 ≤ length out.old }
    ensures { (result ≡ 4) × (out.new ≡ over (field_bytes (field tag (b ∷ []))) out.old) }
{
    fields::put_field(out, tag, &[b])
}

// A named place's name and value.
fn put_name(out: &mut [u8], toks: &[Token], contents: &[u8], base: u8) -> usize
    requires { NameFits toks.now contents.now base (length out.old) }
    ensures { PutName toks.now contents.now base result out.old out.new }
{
    let k = token_table::find(toks, 0, Kind::Equals);
    let p = put_pieces(out, Tag::Name as u8, &toks[..k], contents);
    p + value_fields::put_value(&mut out[p..], &toks[k + 1..], contents, base)
}

// The n-th place of the command, named or not.
fn put_place(
    out: &mut [u8],
    toks: &[Token],
    contents: &[u8],
    bases: &[u8],
    named: bool,
    n: usize,
) -> usize
    requires { PlaceFits toks.now contents.now bases.now named n (length out.old) }
    ensures { PutPlace toks.now contents.now bases.now named n result out.old out.new }
{
    let base = read_bases::base(bases, n);
    let p = put_byte(out, Tag::Place as u8, base);
    if named {
        return p + put_name(&mut out[p..], toks, contents, base);
    }
    if 0 < toks.len() {
        return p + value_fields::put_value(&mut out[p..], toks, contents, base);
    }
    p
}

// The places of a block, the first of them the n-th of the command. From one place to the next is no fixed step: each ends where the next `,` stands.
fn put_places(
    out: &mut [u8],
    toks: &[Token],
    contents: &[u8],
    bases: &[u8],
    named: bool,
    first: usize,
) -> Put
    requires { PlacesFit toks.now contents.now bases.now named first (length out.old) }
    ensures { PutPlaces toks.now contents.now bases.now named first result.bytes result.places out.old out.new }
{
    let mut i: usize = 0;
    let mut n = first;
    let mut k: usize = 0;
    while i <= toks.len() {
        let j = token_table::find(toks, i, Kind::Comma);
        k += put_place(&mut out[k..], &toks[i..j], contents, bases, named, n);
        n += 1;
        i = j + 1;
    }
    Put {
        bytes: k,
        places: n,
    }
}

// The letter of a block's kind.
fn kind_letter(named: bool) -> u8
    ensures { result ≡ cond named (byte "N") (byte "P") }
{
    if named { b'N' } else { b'P' }
}

// A block, its first place the n-th of the command.
fn put_block(out: &mut [u8], toks: &[Token], contents: &[u8], bases: &[u8], first: usize) -> Put
    requires { BlockFits toks.now contents.now bases.now first (length out.old) }
    ensures { PutBlock toks.now contents.now bases.now first result.bytes result.places out.old out.new }
{
    let named = read_command::is_named(toks);
    let p = put_byte(out, Tag::Block as u8, kind_letter(named));
    let r = put_places(&mut out[p..], toks, contents, bases, named, first);
    Put {
        bytes: p + r.bytes,
        places: r.places,
    }
}

// The blocks from the one that begins at index `from` on; each ends where the next `:` stands.
fn put_blocks(out: &mut [u8], toks: &[Token], contents: &[u8], bases: &[u8], from: usize) -> usize
    requires { BlocksFit toks.now contents.now bases.now from (length out.old) }
    ensures { PutBlocks toks.now contents.now bases.now from result out.old out.new }
{
    let mut i = from;
    let mut n: usize = 0;
    let mut k: usize = 0;
    while i <= toks.len() {
        let j = token_table::find(toks, i, Kind::Colon);
        let r = put_block(&mut out[k..], &toks[i..j], contents, bases, n);
        k += r.bytes;
        n = r.places;
        i = j + 1;
    }
    k
}

// The code and the blocks.
fn put_segments(out: &mut [u8], toks: &[Token], contents: &[u8], bases: &[u8]) -> usize
    requires { SegmentsFit toks.now contents.now bases.now (length out.old) }
    ensures { PutSegments toks.now contents.now bases.now result out.old out.new }
{
    let k = token_table::find(toks, 0, Kind::Colon);
    let p = put_pieces(out, Tag::Code as u8, &toks[..k], contents);
    p + put_blocks(&mut out[p..], toks, contents, bases, k + 1)
}

// The record of a command with so many orders: its head, and the segments behind it, which are the tokens before the `;`, the last one. Returns how many bytes it wrote.
pub fn put_command(
    out: &mut [u8],
    toks: &[Token],
    contents: &[u8],
    bases: &[u8],
    orders: u32,
) -> usize
    requires { CommandFits toks.now contents.now bases.now orders (length out.old) }
    ensures { PutCommand toks.now contents.now bases.now result out.old out.new }
{
    let end = toks.len() - 1;
    record_head::put_head(out, orders);
    HEAD + put_segments(&mut out[HEAD..], &toks[..end], contents, bases)
}
