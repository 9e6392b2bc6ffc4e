// Pieces joined by `-`: the code (8) and a name (10).
#![tactic(auto)]

ghost use Rattle.std.specs.Prelude.{◌≡◌, true, false};
ghost use Rattle.rules.specs.Commands.{is_index_number};
ghost use Rattle.rules.specs.Reasons.{number};
ghost use Rattle.read_pieces.specs.Pieces.{test, piece_test, dash_test, pieces_at};

use rules::{Reason, Refusal};
use token_table::{Kind, Token};

// Is the word an index number, all digits?
fn is_index(word: &[u8]) -> bool
    ensures { result ≡ is_index_number word.now }
{
    !word.is_empty() && units::all_decimal(word, 0)
}

// Is the word an identifier or, where `index` lets it, an index number?
fn fits(word: &[u8], index: bool) -> bool
    ensures { result ≡ test index word.now }
{
    units::is_identifier(word) || index && is_index(word)
}

// Is the token a piece?
fn is_piece(contents: &[u8], index: bool, t: Token) -> bool
    ensures { result ≡ piece_test index contents.now t }
{
    t.kind == Kind::Word && fits(t.content(contents), index)
}

// Is the token a `-`, and may one more piece follow?
fn is_dash(left: usize, t: Token) -> bool
    ensures { result ≡ dash_test left t }
{
    0 < left && t.kind == Kind::Dash
}

// A piece, and behind it at most `most` more, which in names may be index numbers; else a refusal for this reason at the first token that does not fit.
pub fn pieces(
    toks: &[Token],
    contents: &[u8],
    names: bool,
    most: usize,
    reason: Reason,
    end: u32,
) -> Result<(), Refusal>
    ensures { result ≡ pieces_at (number reason) false names most true contents.now toks.now end }
{
    let mut index = false;
    let mut left = most;
    let mut want = true;
    for t in toks {
        if want {
            if !is_piece(contents, index, *t) {
                return Err(reason.at(t.place()));
            }
        } else {
            if !is_dash(left, *t) {
                return Err(reason.at(t.place()));
            }
            left -= 1;
        }
        want = !want;
        index = names;
    }
    if want {
        return Err(reason.at(end));
    }
    Ok(())
}
