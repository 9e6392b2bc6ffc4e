// One place of a command: 15, 9, its name (10, 21), its value (11 to 16), and the bytes of its fields.
#![tactic(auto)]

ghost use Rattle.std.specs.Prelude.{◌<◌, ◌≡◌, length};
ghost use Rattle.rules.specs.Groups.{read_value};
ghost use Rattle.rules.specs.Reading.{read_position};
ghost use Rattle.token_table.specs.Table.{tokens_in};
ghost use Rattle.read_value.specs.Passes.{Faultless};
ghost use Rattle.read_bases.specs.Bases.{bases_in, base_in};
ghost use Rattle.token_table.specs.Parts.{place_or};
ghost use Rattle.read_place.specs.Places.{value_read, place_read, Sized, ReadsNamed, ReadsPlace};

use marks::Marks;
use rules::{MORE_OF_NAME, MOST_PLACES, Reason, Refusal};
use token_table::{Kind, Token};

// The bytes of a place's own field: tag, length, letter.
const PLACE_FIELD: u32 = record_walk::LETTER_FIELD as u32;
// The key of a place that has no name.
const NO_NAME: u32 = 0;

// A place that is right: its number of arguments, the place of its value's first token, the bytes of its fields, the key of its name.
#[derive(Clone, Copy, Debug, PartialEq, Eq)]
pub struct PlaceRead {
    pub args: u32,
    pub at: u32,
    pub bytes: u32,
    pub key: u32,
}

// The bytes of a value without fault, behind `head` bytes.
fn with_value(toks: &[Token], contents: &[u8], base: u8, head: u32) -> u32
    requires { Faultless toks.now contents.now base }
    ensures { Sized toks.now contents.now base head result }
{
    let len = token_table::cap(value_fields::value_len(toks, contents, base) as u64);
    token_table::cap(head as u64 + len as u64)
}

// The value of the n-th place, not omitted, behind `head` bytes of its place's fields; `key` is its name's.
fn value(
    toks: &[Token],
    contents: &[u8],
    bases: &[u8],
    n: usize,
    head: u32,
    key: u32,
    end: u32,
) -> Result<PlaceRead, Refusal>
    ensures { result ≡ value_read head key (place_or toks.now end)
        (read_value (base_in bases.now n) (tokens_in contents.now toks.now) end) }
{
    let base = read_bases::base(bases, n);
    let value = read_value::read_value(toks, contents, base, end)?;
    Ok(PlaceRead {
        args: value.args as u32,
        at: toks[0].place(),
        bytes: with_value(toks, contents, base, head),
        key,
    })
}

// The n-th place, position-defined.
fn position(
    toks: &[Token],
    contents: &[u8],
    bases: &[u8],
    n: usize,
    end: u32,
) -> Result<PlaceRead, Refusal>
    ensures { result ≡ place_read (read_position (base_in bases.now n) (tokens_in contents.now toks.now) end) }
{
    if toks.is_empty() {
        return Ok(PlaceRead {
            args: 1,
            at: end,
            bytes: PLACE_FIELD,
            key: NO_NAME,
        });
    }
    value(toks, contents, bases, n, PLACE_FIELD, NO_NAME, end)
}

// The refusal of a place: it is shown by its first token, or by the separator that ends it.
fn refused(toks: &[Token], reason: Reason, end: u32) -> Refusal
    ensures { result ≡ record { reason = reason; place = place_or toks.now end } }
{
    reason.at(token_table::place_at(toks, 0, end))
}

// The n-th place, named, behind places of its block with tokens `before`: its `=` is the token at index `equals`.
fn named_place(
    before: &[Token],
    toks: &[Token],
    contents: &[u8],
    bases: &[u8],
    n: usize,
    equals: usize,
    marks: Marks,
    end: u32,
) -> Result<PlaceRead, Refusal>
    requires { equals < length toks.now }
    ensures { ReadsNamed (base_in bases.now n) contents.now before.now toks.now equals marks end result }
{
    let name = &toks[..equals];
    let stop = toks[equals].place();
    read_pieces::pieces(name, contents, true, MORE_OF_NAME, Reason::WrongName, stop)?;
    let key = read_names::key(name, contents);
    if read_names::is_twice(before, name, contents, marks, key) {
        return Err(refused(toks, Reason::NameTwice, end));
    }
    let head = token_table::cap(
        PLACE_FIELD as u64 + token_table::pieces_len(name, contents) as u64,
    );
    value(&toks[equals + 1..], contents, bases, n, head, key, end)
}

// The n-th place of a command, in a block whose places are named or not, behind places of its block with tokens `before`, whose names are among the marks.
pub fn place(
    before: &[Token],
    toks: &[Token],
    contents: &[u8],
    bases: &[u8],
    named: bool,
    n: usize,
    marks: Marks,
    end: u32,
) -> Result<PlaceRead, Refusal>
    ensures { ReadsPlace named (bases_in bases.now) n contents.now before.now toks.now marks end result }
{
    if MOST_PLACES <= n {
        return Err(refused(toks, Reason::TooMany, end));
    }
    let equals = token_table::find(toks, 0, Kind::Equals);
    let is_named = equals < toks.len();
    if is_named != named {
        return Err(refused(toks, Reason::KindDiffers, end));
    }
    if is_named {
        named_place(before, toks, contents, bases, n, equals, marks, end)
    } else {
        position(toks, contents, bases, n, end)
    }
}
