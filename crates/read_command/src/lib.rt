// The command above its places: 6, 7, 8, block by block (15), and the running product of the orders (16).
#![tactic(auto)]

ghost use Rattle.std.specs.Prelude.{◌<◌, ◌≡◌, []};
ghost use Rattle.rules.specs.Commands.{split, cut_at};
ghost use Rattle.rules.specs.Reading.{read_places, read_block, read_blocks, read_segs, read_cut};
ghost use Rattle.rules.specs.Tokens.{comma, colon, semi};
ghost use Rattle.token_table.specs.Table.{tokens_in};
ghost use Rattle.read_bases.specs.Bases.{bases_in};
ghost use Rattle.token_table.specs.Parts.{parts_from};
ghost use Rattle.read_command.specs.Blocks.{counted, opened, HasKind, places_read, block_read, blocks_read, tally_read, command_read};

use marks::Marks;
use read_place::PlaceRead;
use rules::{MORE_OF_CODE, MOST_BLOCKS, MOST_ORDERS, Reason, Refusal};
use token_table::{Kind, Token};

// The bytes of a record's head, which stands before the code.
const HEAD: u64 = record_head::HEAD as u64;
// The bytes of a block's own field: tag, length, kind.
const BLOCK_FIELD: u64 = record_walk::LETTER_FIELD as u64;

// What the places so far come to: their number, the bytes of the fields, the product of their numbers of arguments, and the place of the
// value by which it would first have passed the limit; it is not carried on then.
#[derive(Clone, Copy, Debug, PartialEq, Eq)]
pub struct Tally {
    pub places: usize,
    pub bytes: u32,
    pub product: u32,
    pub over: Option<u32>,
}

// A command that is right: the bytes of its record, the number of its orders, and that of its places.
#[derive(Clone, Copy, Debug, PartialEq, Eq)]
pub struct Checked {
    pub bytes: u32,
    pub orders: u32,
    pub places: usize,
}

impl Tally {
    // The tally with one place more.
    fn with_place(self, place: PlaceRead) -> Tally
        requires { self.places < 32 }
        ensures { result ≡ counted self place.args place.at place.bytes }
    {
        let places = self.places + 1;
        let bytes = token_table::cap(self.bytes as u64 + place.bytes as u64);
        let counted = Tally {
            places,
            bytes,
            ..self
        };
        if self.over.is_some() {
            return counted;
        }
        let product = self.product as u64 * place.args as u64;
        if product <= MOST_ORDERS {
            return Tally {
                product: product as u32,
                ..counted
            };
        }
        Tally {
            over: Some(place.at),
            ..counted
        }
    }

    // The tally with one block's field more.
    fn with_block(self) -> Tally
        ensures { result ≡ opened self }
    {
        Tally {
            bytes: token_table::cap(self.bytes as u64 + BLOCK_FIELD),
            ..self
        }
    }

    // 16: do the orders pass 65,535?
    fn finish(self) -> Result<Checked, Refusal>
        ensures { result ≡ tally_read self }
    {
        match self.over {
            Some(place) => Err(Reason::TooManyOrders.at(place)),
            None => Ok(Checked {
                bytes: self.bytes,
                orders: self.product,
                places: self.places,
            }),
        }
    }
}

// The places of a block, named or not. From one place to the next is no fixed step: each ends where the next `,` stands.
fn read_places(
    toks: &[Token],
    contents: &[u8],
    bases: &[u8],
    named: bool,
    end: u32,
    start: Tally,
) -> Result<Tally, Refusal>
    ensures { result ≡ places_read start
        (read_places named (bases_in bases.now) start.places [] (split comma end (tokens_in contents.now toks.now))) }
{
    let mut i: usize = 0;
    let mut t = start;
    let mut marks = Marks::none();
    while i <= toks.len() {
        let k = token_table::find(toks, i, Kind::Comma);
        let place = read_place::place(
            &toks[..i],
            &toks[i..k],
            contents,
            bases,
            named,
            t.places,
            marks,
            token_table::place_at(toks, k, end),
        )?;
        t = t.with_place(place);
        marks = marks.with_if(named, place.key);
        i = k + 1;
    }
    Ok(t)
}

// Does the block's first place have a `=`?
pub fn is_named(toks: &[Token]) -> bool
    ensures { HasKind toks.now result }
{
    let k = token_table::find(toks, 0, Kind::Comma);
    token_table::find(&toks[..k], 0, Kind::Equals) < k
}

// A block.
fn block(
    toks: &[Token],
    contents: &[u8],
    bases: &[u8],
    end: u32,
    t: Tally,
) -> Result<Tally, Refusal>
    ensures { result ≡ block_read t
        (read_block (bases_in bases.now) t.places (split comma end (tokens_in contents.now toks.now))) }
{
    read_places(toks, contents, bases, is_named(toks), end, t.with_block())
}

// The blocks from the one that begins at index `from` on, its `:` at the place `before`; each ends where the next `:` stands.
fn read_blocks(
    toks: &[Token],
    contents: &[u8],
    bases: &[u8],
    from: usize,
    before: u32,
    end: u32,
    start: Tally,
) -> Result<Tally, Refusal>
    ensures { result ≡ blocks_read start
        (read_blocks (bases_in bases.now) 0 start.places before (parts_from colon end contents.now toks.now from)) }
{
    let mut i = from;
    let mut m: usize = 0;
    let mut at = before;
    let mut t = start;
    while i <= toks.len() {
        if MOST_BLOCKS <= m {
            return Err(Reason::TooMany.at(at));
        }
        let k = token_table::find(toks, i, Kind::Colon);
        at = token_table::place_at(toks, k, end);
        t = block(&toks[i..k], contents, bases, at, t)?;
        m += 1;
        i = k + 1;
    }
    Ok(t)
}

// A command without its `;`, which is at the place `end`: the code (8), then the blocks.
fn segments(toks: &[Token], contents: &[u8], bases: &[u8], end: u32) -> Result<Checked, Refusal>
    ensures { result ≡ command_read (read_segs (bases_in bases.now) (split colon end (tokens_in contents.now toks.now))) }
{
    let k = token_table::find(toks, 0, Kind::Colon);
    let at = token_table::place_at(toks, k, end);
    let code = &toks[..k];
    read_pieces::pieces(code, contents, false, MORE_OF_CODE, Reason::WrongCode, at)?;
    let start = Tally {
        places: 0,
        bytes: token_table::cap(HEAD + token_table::pieces_len(code, contents) as u64),
        product: 1,
        over: None,
    };
    read_blocks(toks, contents, bases, k + 1, at, end, start)?.finish()
}

// A whole command of `len` bytes, from its tokens: all of 6 to 16, the bytes of its record, the number of its orders and that of its places.
pub fn command(toks: &[Token], contents: &[u8], bases: &[u8], len: u32) -> Result<Checked, Refusal>
    ensures { result ≡ command_read (read_cut (bases_in bases.now) len (cut_at semi (tokens_in contents.now toks.now))) }
{
    let k = token_table::find(toks, 0, Kind::Semicolon);
    if toks.len() <= k {
        return Err(Reason::NoEnd.at(len));
    }
    if k + 1 < toks.len() {
        return Err(Reason::AfterEnd.at(toks[k + 1].place()));
    }
    segments(&toks[..k], contents, bases, toks[k].place())
}
