// What the console writes of a line, and what became of it.
#![tactic(auto)]

ghost use Rattle.std.specs.Prelude.{◌≡◌};
ghost use Rattle.console_replies.specs.Outcomes.{worst, status_of};

use console_lines::Hex;
use console_window::{Pointed, Screen};
use console_words::Status;
use rules::Refusal;
use std::fmt::Write;
use std::{fmt, io};

// What became of a line: it was served; or it was refused, and that was said.
#[derive(Clone, Copy, Debug, PartialEq, Eq, PartialOrd, Ord)]
pub enum Outcome {
    Served,
    Refused,
}

// Why no more is served: standard input cannot be read; what was to be said cannot be written; or the operator cannot be asked for more,
// of which nothing is said.
#[derive(Clone, Copy, Debug, PartialEq, Eq)]
pub enum Failure {
    Unread,
    Unwritten,
    Unasked,
}

// What became of a line, or of all, if nothing failed.
pub type Reply = Result<Outcome, Failure>;

impl From<io::Error> for Failure {
    fn from(_e: io::Error) -> Failure {
        Failure::Unread
    }
}

impl From<fmt::Error> for Failure {
    fn from(_e: fmt::Error) -> Failure {
        Failure::Unwritten
    }
}

// What is said of it.
impl fmt::Display for Failure {
    fn fmt<W: fmt::Write>(&self, f: &mut fmt::Formatter<W>) -> fmt::Result {
        f.write_str(match self {
            Failure::Unread => "mml: standard input cannot be read\n",
            Failure::Unwritten => "mml: an answer cannot be written\n",
            Failure::Unasked => "",
        })
    }
}

// What is told of what came of all lines.
pub fn status(reply: Reply) -> Status
    ensures { result ≡ status_of reply }
{
    match reply {
        Ok(Outcome::Served) => Status::Served,
        Ok(Outcome::Refused) => Status::Refused,
        Err(_) => Status::Failed,
    }
}

// The worse of what came of the lines so far and of one more: the one with the greater digit.
pub fn worse(past: Outcome, more: Outcome) -> Outcome
    ensures { result ≡ worst past more }
{
    past.max(more)
}

// Writes bytes as a line of standard output.
pub fn write_text(bytes: &[u8]) -> Reply {
    write_line(bytes)?;
    Ok(Outcome::Served)
}

// Writes the bytes, and a newline.
fn write_line(bytes: &[u8]) -> fmt::Result {
    Screen::OUT.write_bytes(bytes)?;
    Screen::OUT.write_bytes(b"\n")
}

// Writes a record in hexadecimal.
pub fn write_record(record: &[u8]) -> Reply {
    let mut out = Screen::OUT;
    writeln!(out, "{}", Hex(record))?;
    Ok(Outcome::Served)
}

// Writes that a command is accepted, its number of orders and its text.
pub fn write_accepted(count: u64, text: &[u8]) -> Reply {
    let mut out = Screen::OUT;
    let noun = if count == 1 { " order: " } else { " orders: " };
    write!(out, "accepted, {count}{noun}")?;
    write_text(text)
}

// Writes the text of order k behind its number.
pub fn write_order(k: u64, text: &[u8]) -> Reply {
    let mut out = Screen::OUT;
    write!(out, "{k}: ")?;
    write_text(text)
}

// Writes that an argument is among those of a place, and its position.
pub fn write_found(argument: &[u8], position: u32, place: u32) -> Reply {
    let mut out = Screen::OUT;
    out.write_bytes(b"yes: ")?;
    out.write_bytes(argument)?;
    writeln!(
        out,
        " is argument {position} of place {place}, counted from 0",
    )?;
    Ok(Outcome::Served)
}

// Writes that an argument is not among those of a place.
pub fn write_absent(argument: &[u8], place: u32) -> Reply {
    let mut out = Screen::OUT;
    out.write_bytes(b"no: ")?;
    out.write_bytes(argument)?;
    writeln!(
        out,
        " is not among the arguments of place {place}, counted from 0",
    )?;
    Ok(Outcome::Served)
}

// Writes how many bytes the fields of a place have, from which byte of the record on, and the fields in hexadecimal.
pub fn write_part(place: u32, from: u32, fields: &[u8]) -> Reply {
    let mut out = Screen::OUT;
    let n = fields.len();
    writeln!(
        out,
        "place {place} is {n} bytes from byte {from} on, counted from 0: {}",
        Hex(fields),
    )?;
    Ok(Outcome::Served)
}

// Shows the refusal of a line: of `check` it is a result, on standard output, and of any other verb an error.
pub fn refuse(screen: Screen, bases: &[u8], line: &[u8], refusal: Refusal) -> Reply {
    console_sentences::show(screen, line, bases, refusal)?;
    Ok(Outcome::Refused)
}

// Shows the refusal of a record that a line gives in hexadecimal.
pub fn refuse_record(line: &[u8], refusal: Refusal) -> Reply {
    console_sentences::show_record(Screen::ERR, line, refusal)?;
    Ok(Outcome::Refused)
}

// Shows the refusal of an argument that is asked for of a place: by the reader or by the library, in the command that holds it alone.
pub fn refuse_argument(bases: &[u8], text: &[u8], refusal: Refusal, place: u32) -> Reply {
    console_sentences::show_argument(Screen::ERR, text, bases, refusal, place)?;
    Ok(Outcome::Refused)
}

// Says which refusal an order of a record met.
pub fn refuse_order(refusal: Refusal) -> Reply {
    console_sentences::write_refusal(Screen::ERR, refusal)?;
    Ok(Outcome::Refused)
}

// Says that a line is too long for a record.
pub fn refuse_length() -> Reply {
    Screen::ERR.write_bytes(b"the line is too long: a record has at most 65,536 bytes\n")?;
    Ok(Outcome::Refused)
}

// Says where a line is no hexadecimal.
pub fn refuse_digits(line: &[u8], place: usize) -> Reply {
    let mut err = Screen::ERR;
    writeln!(
        err,
        "{}no hexadecimal at {place}: a record is pairs of the digits 0 to 9 and A to F",
        Pointed { line, place },
    )?;
    Ok(Outcome::Refused)
}
