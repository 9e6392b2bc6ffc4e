// What can be told of one refusal, worked out from the line, its bases and the refusal alone.
ghost use Rattle.std.specs.Prelude.{◌≤◌, length};

use console_window::Screen;
use hint_around::Around;
use hint_phrases::{Argument, Base, Hint, Phrase, TooLong, plain};
use rules::{Reason, Refusal};
use std::fmt;
use std::fmt::Write;
use token_table::{Kind, Token};

// What stands in a table of tokens before one is written.
const NO_TOKEN: Token = Token {
    kind: Kind::Semicolon,
    place: 0,
    start: 0,
    len: 0,
};

// Writes what is told of a line.
pub fn write_line_hint(
    mut screen: Screen,
    line: &[u8],
    bases: &[u8],
    refusal: Refusal,
) -> fmt::Result {
    if let Some(hint) = text_hint(line, bases, refusal) {
        return write!(screen, "{hint}");
    }
    if line.len() <= rules::MOST_TEXT {
        return write_scanned(screen, line, bases, refusal, None);
    }
    let nothing = plain(Phrase::Nothing);
    write!(screen, "{nothing}")
}

// What is told of a line without its tokens; None where these tell it.
fn text_hint<'a>(line: &[u8], bases: &[u8], refusal: Refusal) -> Option<Hint<'a>> {
    let place = refusal.place as usize;
    Some(match refusal.reason {
        Reason::WrongLetter => hint_text::why_base(bases, place),
        Reason::TooLong => plain(Phrase::TooLong(TooLong::Command)),
        Reason::NotPermitted => hint_text::why_byte(scan::byte(line, place)),
        Reason::Unclosed => plain(Phrase::Open(hint_text::what_open(scan::byte(line, place)))),
        Reason::NoToken => hint_text::where_stray(line, place),
        Reason::NoRoom => plain(Phrase::List),
        Reason::NotWellFormed => plain(Phrase::Record),
        Reason::NoSuchOrder => hint_text::which_orders(place),
        Reason::NoKey => plain(Phrase::Key),
        Reason::NameTwice => plain(Phrase::NameTwice),
        Reason::WrongArgument | Reason::WrongRow => plain(Phrase::Nothing),
        _ => return None,
    })
}

// Writes what is told of an argument that is asked for of a place: what its command, which was refused so, tells of it, unless that would
// speak of what nobody has typed. The place is called by the number under which it is asked for.
pub fn write_argument_hint(
    mut screen: Screen,
    text: &[u8],
    bases: &[u8],
    refusal: Refusal,
    asked: usize,
) -> fmt::Result {
    let argument = match refusal.reason {
        Reason::TooLong => Argument::TooLong,
        Reason::AfterEnd => Argument::Semicolon,
        Reason::WrongArgument => Argument::NotAlone,
        Reason::Unreadable if text.len() <= rules::MOST_TEXT => {
            return write_scanned(screen, text, bases, refusal, Some(asked));
        }
        _ => return write_line_hint(screen, text, bases, refusal),
    };
    let hint = plain(Phrase::Argument(argument));
    write!(screen, "{hint}")
}

// Writes what is told of a record.
pub fn write_record_hint(mut screen: Screen, reason: Reason) -> fmt::Result {
    let hint = plain(match reason {
        Reason::TooLong => Phrase::TooLong(TooLong::Record),
        Reason::NotWellFormed => Phrase::Record,
        _ => Phrase::Nothing,
    });
    write!(screen, "{hint}")
}

// Writes what the tokens tell of a line that has room for a command; `asked` is the number of its place, if it is not the one in the line.
fn write_scanned(
    mut screen: Screen,
    line: &[u8],
    bases: &[u8],
    refusal: Refusal,
    asked: Option<usize>,
) -> fmt::Result
    requires { length line.now ≤ 1024 }
{
    let mut toks = [NO_TOKEN; rules::MOST_TEXT];
    let mut contents = [0u8; rules::MOST_TEXT];
    match scan::tokens(line, &mut toks, &mut contents) {
        Ok(filled) => {
            let toks = toks.get(..filled.tokens).unwrap_or(&toks);
            write_token_hint(screen, line, bases, toks, &contents, refusal, asked)
        }
        Err(found) => {
            let hint = long_hint(line, found);
            write!(screen, "{hint}")
        }
    }
}

// Writes what the token at the place tells, among the tokens of a line. The slices are parameters: a struct of them, made where some are locals,
// was tried, and the borrow checker does not cover it.
fn write_token_hint<'a>(
    mut screen: Screen,
    line: &'a [u8],
    bases: &'a [u8],
    toks: &'a [Token],
    contents: &'a [u8],
    refusal: Refusal,
    asked: Option<usize>,
) -> fmt::Result {
    let around = Around {
        toks,
        contents,
        bases,
        at: hint_around::index_at(toks, refusal.place),
    };
    let hint = token_hint(line, around, refusal, asked);
    write!(screen, "{hint}")
}

// What is told of a word or a string that is too long.
fn long_hint<'a>(line: &[u8], found: Refusal) -> Hint<'a> {
    match found.reason {
        Reason::TooMany => {
            let first = scan::byte(line, found.place as usize);
            plain(Phrase::TooMany(hint_text::what_long(first)))
        }
        _ => plain(Phrase::Nothing),
    }
}

// What is told of the token at the place.
fn token_hint<'a>(
    line: &'a [u8],
    around: Around<'a>,
    refusal: Refusal,
    asked: Option<usize>,
) -> Hint<'a> {
    match refusal.reason {
        Reason::NoEnd => plain(Phrase::End(hint_text::where_end(line, around.toks.len()))),
        Reason::AfterEnd => plain(Phrase::Behind(hint_shape::what_behind(around))),
        Reason::WrongCode => plain(Phrase::Code(hint_shape::why_code(around))),
        Reason::KindDiffers => hint_shape::why_kind(line, around),
        Reason::WrongName => plain(Phrase::Name(hint_shape::why_name(around))),
        Reason::WrongShape => hint_shape::why_value(around),
        Reason::Unreadable => misfit_hint(around, asked),
        Reason::TooBig => hint_unit::why_big(around.content(), base(around)),
        Reason::GroupBroken => hint_group::why_group(around),
        Reason::TooMany => plain(Phrase::TooMany(hint_size::which_limit(around))),
        Reason::NoSuchPlace => hint_text::which_places(refusal.place as usize, places(around)),
        _ => hint_size::which_size(around),
    }
}

// How many places the tokens of a command have.
fn places(around: Around) -> usize {
    let end = Around {
        at: around.toks.len(),
        ..around
    };
    end.place_number()
}

// The base of the place that holds a token.
fn base(around: Around) -> Base {
    Base::of(around.base()).unwrap_or(Base::Decimal)
}

// What is told of a token that is no unit under the base of its place.
fn misfit_hint<'a>(around: Around<'a>, asked: Option<usize>) -> Hint<'a> {
    let base = base(around);
    Hint {
        lead: Some(Phrase::InBase(base)),
        numbers: (asked.unwrap_or(around.place_number()), 0),
        ..hint_unit::why_unit(around.content(), base)
    }
}
