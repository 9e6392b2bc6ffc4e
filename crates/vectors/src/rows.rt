// Rows of offsets: the reader and the order writer fill one, and a place is asked for by one.
use crate::output::Out;
use console_figures::front;
use rules::Answer;
use std::fmt;
use std::fmt::Write;

// The most slots of a row, and the most bytes of a buffer, that a line lends.
const MOST_SLOTS: usize = 33;

const MOST_ROOM: usize = 256;
// What each byte of a buffer is before it is lent.
const SOILED: u8 = 0xEE;

// Reads a command into a buffer and a row: of `ROW|ROOM|BASES|COMMAND`.
pub fn read(line: &[u8]) -> fmt::Result {
    lend(line, fill_command)
}

// Writes order k of a record into a buffer and a row: of `ROW|ROOM|K|BASES|COMMAND` or `ROW|ROOM|K|#RECORD`.
pub fn order(line: &[u8]) -> fmt::Result {
    lend(line, fill_order)
}

// Takes the row of the line, and as many bytes as it says, and fills both with what the rest of it asks for; more than there is, is not
// lent, and nothing is written.
fn lend<F: FnOnce(&[u8], &mut [u8], &mut [u32]) -> fmt::Result>(line: &[u8], fill: F) -> fmt::Result
    requires { F.IsAlwaysCallable fill }
{
    write_line(line)?;
    let (slots, rest) = crate::at_bar(line);
    let (room, asked) = crate::at_bar(rest);
    let mut row = [0u32; MOST_SLOTS];
    let n = take_row(slots, &mut row);
    let mut out = [SOILED; MOST_ROOM];
    match (
        out.get_mut(..narrow(number(room)) as usize),
        row.get_mut(..n),
    ) {
        (Some(out), Some(row)) => fill(asked, out, row),
        _ => Ok(()),
    }
}

// Writes the line that is asked.
fn write_line(line: &[u8]) -> fmt::Result {
    Out.write_bytes(line)?;
    Out.write_str(" -> ")
}

// Puts the numbers of a row, with a blank between each two, into `row`, as many as fit, and answers how many.
fn take_row(text: &[u8], row: &mut [u32]) -> usize {
    let mut rest = text;
    for (n, slot) in row.iter_mut().enumerate() {
        if rest.is_empty() {
            return n;
        }
        let (digits, behind) = crate::split(rest, b' ');
        *slot = narrow(number(digits));
        rest = behind;
    }
    row.len()
}

// The number that a text writes, or 0 where it is none.
fn number(text: &[u8]) -> u64 {
    console_figures::decimal(text).unwrap_or(0)
}

// A number as one of 32 bits, or 0 where it is larger.
fn narrow(n: u64) -> u32 {
    u32::try_from(n).unwrap_or(0)
}

// Reads a command into buffer and row, and writes what came of it.
fn fill_command(command: &[u8], out: &mut [u8], row: &mut [u32]) -> fmt::Result {
    let (bases, text) = crate::at_bar(command);
    let answer = mml::read_row(text, bases, out, row);
    write_filled(answer, out, row)
}

// Writes an order into buffer and row, and what came of it to standard output.
fn fill_order(asked: &[u8], out: &mut [u8], row: &mut [u32]) -> fmt::Result {
    let (k, record_of) = crate::at_bar(asked);
    let mut record = io::large_buffer();
    let n = put_record(record_of, &mut record);
    let answer = mml::order_row(front(&record, n), number(k), out, row);
    write_filled(answer, out, row)
}

// Writes the answer, every byte of the buffer and every slot of the row.
fn write_filled(answer: Answer, out: &[u8], row: &[u32]) -> fmt::Result {
    write_answer(answer)?;
    Out.write_str(" | ")?;
    Out.write_hex(out)?;
    Out.write_str(" |")?;
    for slot in row {
        write!(Out, " {slot}")?;
    }
    Ok(())
}

// Puts the record of `BASES|COMMAND`, or of `#RECORD` in hexadecimal, into `record`, and answers how many bytes it has: 0 where there is
// no record.
fn put_record(asked: &[u8], record: &mut [u8]) -> usize {
    if let [b'#', digits @ ..] = asked {
        return console_figures::decode(digits, record).unwrap_or(0);
    }
    let (bases, text) = crate::at_bar(asked);
    mml::read(text, bases, record).map_or(0, |n| n as usize)
}

// Writes how many bytes were answered, or the refusal.
fn write_answer(answer: Answer) -> fmt::Result {
    match answer {
        Ok(n) => write!(Out, "{n} bytes"),
        Err(refusal) => crate::write_refusal(refusal),
    }
}

// Asks for a place by a row: of `ROW|PLACE|BASES|COMMAND` or `ROW|PLACE|#RECORD`.
pub fn place(line: &[u8]) -> fmt::Result {
    write_line(line)?;
    let (slots, rest) = crate::at_bar(line);
    let (place, asked) = crate::at_bar(rest);
    let mut row = [0u32; MOST_SLOTS];
    let n = take_row(slots, &mut row);
    let mut record = io::large_buffer();
    let long = put_record(asked, &mut record);
    ask(
        front(&record, long),
        row.get(..n).unwrap_or(&row),
        narrow(number(place)),
    )
}

// Asks for a place, and writes the answer and the part that is handed back, if there is one.
fn ask(record: &[u8], row: &[u32], place: u32) -> fmt::Result {
    write_answer(mml::place(record, row, place))?;
    let part = mml::part(record, row, place);
    if part.is_empty() {
        return Ok(());
    }
    Out.write_str(" | ")?;
    Out.write_hex(part)
}
