// A value, in passes: 11, then 12 and 13, then 14 with 15, then 16.
#![tactic(auto)]

ghost use Rattle.std.specs.Prelude.{◌≡◌, ◌<◌, length};
ghost use Rattle.read_value.specs.Passes.{unit_verdict, units_verdict, grouped_answer, Reads};

use read_elements::Value;
use rules::{MOST_ARGUMENTS, Reason, Refusal};
use token_table::{Kind, Token};

// 12 and 13 for a token: only a word can be wrong.
fn unit_verdict(contents: &[u8], base: u8, t: Token) -> Result<(), Refusal>
    ensures { result ≡ unit_verdict base contents.now t }
{
    match t.kind {
        Kind::Word => match units::read_word(t.content(contents), base) {
            Ok(_) => Ok(()),
            Err(fault) => Err(fault.at(t.place())),
        },
        _ => Ok(()),
    }
}

// 12 and 13, left to right: the first unit that cannot be read.
fn readable(toks: &[Token], contents: &[u8], base: u8) -> Result<(), Refusal>
    ensures { result ≡ units_verdict base contents.now toks.now }
{
    for t in toks {
        unit_verdict(contents, base, *t)?;
    }
    Ok(())
}

// A value whose units and separators alternate: 12 to 15, and 16 at its first token.
fn grouped(toks: &[Token], contents: &[u8], base: u8) -> Result<Value, Refusal>
    requires { 0 < length toks.now }
    ensures { result ≡ grouped_answer base contents.now toks.now }
{
    readable(toks, contents, base)?;
    let value = read_elements::elements(toks, contents, base)?;
    if MOST_ARGUMENTS < value.args {
        return Err(Reason::TooManyOrders.at(toks[0].place()));
    }
    Ok(value)
}

// A value: all of 11 to 16, in this order. Its tokens end before the separator at `end`.
pub fn read_value(toks: &[Token], contents: &[u8], base: u8, end: u32) -> Result<Value, Refusal>
    ensures { Reads toks.now contents.now base end result }
{
    token_table::alternates(toks, end)?;
    grouped(toks, contents, base)
}
