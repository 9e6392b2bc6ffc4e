// The reader: a command's text into its record, and the offsets of its places into a row, or a refusal with its number and place. Nothing is written
// before every refusal is excluded. Who wants no row is read for as many slots as there can be places.
#![tactic(auto)]

ghost use Rattle.std.specs.Prelude.{◌≤◌, ◌≡◌, length};
ghost use Rattle.rules.specs.Answers.{Reads, ReadsRow};
ghost use Rattle.rules.specs.Refusals.{most_text};
ghost use Rattle.reader.specs.Reader.{TokensOf, Records, RecordsText, ReadsFor};

use rules::{Answer, MOST_PLACES, MOST_TEXT, Reason};
use token_table::{Kind, Token};

// Texts of at most so many bytes are read through short tables.
const SHORT: usize = 128;
// Texts of at most so many bytes are read through middle tables.
const MIDDLE: usize = 512;

// What stands in a table before its tokens are known.
const NO_TOKEN: Token = Token {
    kind: Kind::AmpAmpDash,
    place: 0,
    start: 0,
    len: 0,
};

// The tokens of a text of `len` bytes into its record, if there are slots for its places: 6 to 17.
fn put_record(
    toks: &[Token],
    contents: &[u8],
    bases: &[u8],
    len: u32,
    slots: usize,
    out: &mut [u8],
) -> Answer
    requires { TokensOf toks.now contents.now }
    ensures { Records toks.now contents.now bases.now len slots out.old result out.new }
{
    let right = read_command::command(toks, contents, bases, len)?;
    if out.len() < right.bytes as usize {
        return Err(Reason::NoRoom.at(right.bytes));
    }
    if slots < right.places {
        return Err(Reason::NoRoom.at(right.places as u32));
    }
    Ok(command_fields::put_command(out, toks, contents, bases, right.orders) as u32)
}

// A text of at most N bytes into its record, through tables of N entries: 3 to 17. It stays a function of its own, so that the long tables stand on
// the stack only for long texts.
#[inline(never)]
fn read_within<const N: usize>(text: &[u8], bases: &[u8], slots: usize, out: &mut [u8]) -> Answer
    requires { (length text.now ≤ N) × (N ≤ most_text) }
    ensures { RecordsText text.now bases.now slots out.old result out.new }
{
    let mut toks = [NO_TOKEN; N];
    let mut contents = [0u8; N];
    let filled = scan::tokens(text, &mut toks, &mut contents)?;
    let read = &toks[..filled.tokens];
    put_record(read, &contents, bases, text.len() as u32, slots, out)
}

// A text into its record, 2 first.
fn read_text(text: &[u8], bases: &[u8], slots: usize, out: &mut [u8]) -> Answer
    ensures { RecordsText text.now bases.now slots out.old result out.new }
{
    if MOST_TEXT < text.len() {
        return Err(Reason::TooLong.at(MOST_TEXT as u32));
    }
    if text.len() <= SHORT {
        return read_within::<SHORT>(text, bases, slots, out);
    }
    if text.len() <= MIDDLE {
        return read_within::<MIDDLE>(text, bases, slots, out);
    }
    read_within::<MOST_TEXT>(text, bases, slots, out)
}

// A text under base letters into its record, if there are slots for its places: 1, then the text.
fn read_for(text: &[u8], bases: &[u8], slots: usize, out: &mut [u8]) -> Answer
    ensures { ReadsFor text.now bases.now slots out.old result out.new }
{
    read_bases::letters(bases)?;
    read_text(text, bases, slots, out)
}

// Reads one command into a record.
pub fn read(text: &[u8], bases: &[u8], out: &mut [u8]) -> Answer
    ensures { Reads text.now bases.now out.old result out.new }
{
    read_for(text, bases, MOST_PLACES, out)
}

// Reads one command into a record, and writes the offsets of its places into a row.
pub fn read_row(text: &[u8], bases: &[u8], out: &mut [u8], row: &mut [u32]) -> Answer
    ensures { ReadsRow text.now bases.now out.old row.old result out.new row.new }
{
    let bytes = read_for(text, bases, row.len(), out)?;
    index::fill(&out[..bytes as usize], row);
    Ok(bytes)
}
