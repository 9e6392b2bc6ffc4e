// Runs the lines of standard input through the library, and writes what came of each. A line is
// `BASES|COMMAND`, `@BASES|COMMAND` where the orders are asked for, `*BASES|COMMAND` where the whole list
// is, `#RECORD` with the record in hexadecimal, `=RECORD` where its whole list is asked for, or `!KEYS` with
// the keys in hexadecimal; `?PLACE|ARGUMENT|BASES|COMMAND` and `?PLACE|ARGUMENT|#RECORD` ask whether the
// argument, its unit fields in hexadecimal, stands in the place. With a row of offsets, numbers that have a
// blank between each two, `&ROW|ROOM|BASES|COMMAND` reads a command into a buffer of ROOM bytes,
// `+ROW|ROOM|K|BASES|COMMAND` and `+ROW|ROOM|K|#RECORD` write order K into one, and `/ROW|PLACE|BASES|COMMAND` and
// `/ROW|PLACE|#RECORD` ask for the fields of a place.
#![tactic(auto)]

mod keys;
mod output;
mod questions;
mod rows;

ghost use Rattle.std.specs.Prelude.{◌≤◌, length};

use console_figures::front;
use console_lines::Input;
use output::Out;
use rules::{Answer, MOST_PLACES, MOST_TEXT, Refusal};
use std::fmt;
use std::fmt::Write;

// The longest line of the input that is run whole.
const LONGEST_LINE: usize = 4096;

// So many orders of a record are all written.
const FEW: u64 = 8;

// What is asked for of a command.
#[derive(Clone, Copy, Debug, PartialEq, Eq)]
enum Asked {
    Record,
    Orders,
    List,
}

// Runs standard input.
fn main(rt: HostRuntime) {
    let mut input = Input::new(rt.stdin());
    let mut line = [0u8; LONGEST_LINE];
    let _ = run(&mut input, &mut line);
}

// Runs one line after the other. No input has as many lines as there are turns.
fn run(input: &mut Input, room: &mut [u8]) -> fmt::Result {
    for _ in 0..u64::MAX {
        match input.next_line(room) {
            Ok(Some(line)) => run_line(line.kept)?,
            Ok(None) => {
                return Ok(());
            }
            Err(_) => {
                return Out.write_str("the input cannot be read\n");
            }
        }
    }
    Ok(())
}

// Runs a line, and ends what is written of it.
fn run_line(line: &[u8]) -> fmt::Result {
    match line {
        [b'#', record @ ..] => run_record(record, Asked::Orders),
        [b'=', record @ ..] => run_record(record, Asked::List),
        [b'@', command @ ..] => run_command(command, Asked::Orders),
        [b'*', command @ ..] => run_command(command, Asked::List),
        [b'!', keys @ ..] => keys::run(keys),
        [b'?', question @ ..] => questions::run(question),
        [b'&', lent @ ..] => rows::read(lent),
        [b'+', lent @ ..] => rows::order(lent),
        [b'/', asked @ ..] => rows::place(asked),
        _ => run_command(line, Asked::Record),
    }?;
    Out.write_str("\n")
}

// The bytes before the first of these, and those behind it; all, and none, where it does not stand.
fn split(line: &[u8], b: u8) -> (&[u8], &[u8])
    ensures { (length result.0.now ≤ length line.now) × (length result.1.now ≤ length line.now) }
{
    match line.iter().position(|c| *c == b) {
        Some(at) => (&line[..at], &line[at + 1..]),
        None => (line, &[]),
    }
}

// The same at the first bar.
fn at_bar(line: &[u8]) -> (&[u8], &[u8]) {
    split(line, b'|')
}

// Reads a command behind its bases and the bar, and writes what is asked for; or the refusal.
fn run_command(line: &[u8], asked: Asked) -> fmt::Result {
    let (bases, text) = at_bar(line);
    let mut out = Out;
    out.write_bytes(text)?;
    out.write_str(" -> ")?;
    let mut record = io::large_buffer();
    match mml::read(text, bases, &mut record) {
        Ok(n) => write_asked(front(&record, n as usize), asked),
        Err(refusal) => write_refusal(refusal),
    }
}

// Writes what is asked for of a record.
fn write_asked(record: &[u8], asked: Asked) -> fmt::Result {
    match asked {
        Asked::Record => write_record(record),
        Asked::Orders => write_orders(record),
        Asked::List => write_list(record),
    }
}

// Writes the number and the place of a refusal.
fn write_refusal(refusal: Refusal) -> fmt::Result {
    write!(Out, "{} at {}", refusal.reason.number(), refusal.place,)
}

// Writes a record, its text, its number of orders, and whether the text is read as this record.
fn write_record(record: &[u8]) -> fmt::Result {
    Out.write_hex(record)?;
    Out.write_str(" | ")?;
    let mut text = [0u8; MOST_TEXT];
    match mml::print(record, &mut text) {
        Ok(n) => write_text(record, front(&text, n as usize)),
        Err(refusal) => write_refusal(refusal),
    }
}

// Writes a record's text and what follows it.
fn write_text(record: &[u8], text: &[u8]) -> fmt::Result {
    let mut out = Out;
    out.write_bytes(text)?;
    out.write_str(" | ")?;
    match mml::count(record) {
        Ok(n) => write!(out, "{n} orders"),
        Err(refusal) => write_refusal(refusal),
    }?;
    out.write_str(if is_read_again(record, text) {
        " | again: same"
    } else {
        " | again: different"
    })
}

// Whether the text, read with the record's own bases, gives the record.
fn is_read_again(record: &[u8], text: &[u8]) -> bool {
    let mut bases = [0u8; MOST_PLACES];
    let mut again = io::large_buffer();
    let n = console_figures::own_bases(record, &mut bases);
    mml::read(text, front(&bases, n), &mut again).is_ok_and(|k| front(&again, k as usize) == record)
}

// Takes a record in hexadecimal, and writes what is asked for.
fn run_record(digits: &[u8], asked: Asked) -> fmt::Result {
    let mut out = Out;
    out.write_bytes(digits)?;
    out.write_str(" -> ")?;
    let mut record = io::large_buffer();
    match console_figures::decode(digits, &mut record) {
        Ok(n) => write_asked(front(&record, n), asked),
        Err(_) => out.write_str("no hexadecimal"),
    }
}

// Writes the bytes of a record's whole list.
fn write_list(record: &[u8]) -> fmt::Result {
    let mut list = io::large_buffer();
    match mml::list(record, &mut list) {
        Ok(n) => Out.write_hex(front(&list, n as usize)),
        Err(refusal) => write_refusal(refusal),
    }
}

// Writes the number of a record's orders, the orders, and what is answered for the number behind the last.
fn write_orders(record: &[u8]) -> fmt::Result {
    match mml::count(record) {
        Ok(n) => {
            write!(Out, "{n} orders")?;
            write_some(record, u64::from(n))?;
            write_order(record, u64::from(n))
        }
        Err(refusal) => write_refusal(refusal),
    }
}

// Writes all orders where they are few, else the first and the last.
fn write_some(record: &[u8], count: u64) -> fmt::Result {
    if FEW < count {
        write_order(record, 0)?;
        return write_order(record, count - 1);
    }
    for k in 0..count {
        write_order(record, k)?;
    }
    Ok(())
}

// Writes the text of order k.
fn write_order(record: &[u8], k: u64) -> fmt::Result {
    let mut out = Out;
    out.write_str(" | ")?;
    let mut order = io::large_buffer();
    let mut text = [0u8; MOST_TEXT];
    match order_text(record, k, &mut order, &mut text) {
        Ok(n) => out.write_bytes(front(&text, n as usize)),
        Err(refusal) => write_refusal(refusal),
    }
}

// Puts the text of order k into `text`, by way of the order's record.
fn order_text(record: &[u8], k: u64, order: &mut [u8], text: &mut [u8]) -> Answer {
    let n = mml::order(record, k, order)?;
    mml::print(front(order, n as usize), text)
}
