// Questions whether an argument stands in a place of a record.
use crate::output::Out;
use console_figures::front;
use std::fmt;
use std::fmt::Write;

// Room for every argument that is asked for: four strings of the longest take 332 bytes.
const MOST_BYTES: usize = 512;

// Asks `PLACE|ARGUMENT|BASES|COMMAND` or `PLACE|ARGUMENT|#RECORD`, and writes the line and the answer.
pub fn run(line: &[u8]) -> fmt::Result {
    let mut out = Out;
    out.write_bytes(line)?;
    out.write_str(" -> ")?;
    let (place, rest) = crate::at_bar(line);
    let (argument, asked) = crate::at_bar(rest);
    match asked {
        [b'#', record @ ..] => ask_record(record, place, argument),
        _ => ask_command(asked, place, argument),
    }
}

// Takes a record in hexadecimal, and asks the line's question of it.
fn ask_record(digits: &[u8], place: &[u8], argument: &[u8]) -> fmt::Result {
    let mut record = io::large_buffer();
    match console_figures::decode(digits, &mut record) {
        Ok(n) => ask(front(&record, n), place, argument),
        Err(_) => Out.write_str("no hexadecimal"),
    }
}

// Reads a command behind its bases and the bar, and asks the line's question of its record.
fn ask_command(command: &[u8], place: &[u8], argument: &[u8]) -> fmt::Result {
    let (bases, text) = crate::at_bar(command);
    let mut record = io::large_buffer();
    match mml::read(text, bases, &mut record) {
        Ok(n) => ask(front(&record, n as usize), place, argument),
        Err(refusal) => crate::write_refusal(refusal),
    }
}

// Takes the argument, in hexadecimal, and the place, and asks for it there.
fn ask(record: &[u8], place: &[u8], argument: &[u8]) -> fmt::Result {
    let mut room = [0u8; MOST_BYTES];
    let Ok(n) = console_figures::decode(argument, &mut room) else {
        return Out.write_str("no hexadecimal");
    };
    match console_figures::decimal(place) {
        Some(place) => ask_in(record, place, front(&room, n)),
        None => Out.write_str("no number"),
    }
}

// Asks for the argument in the place with this number, and writes the answer.
fn ask_in(record: &[u8], place: u64, argument: &[u8]) -> fmt::Result {
    let Ok(place) = u32::try_from(place) else {
        return Out.write_str("no number of 32 bits");
    };
    match mml::member(record, place, argument) {
        Ok(value) => write_found(console_figures::found(value)),
        Err(refusal) => crate::write_refusal(refusal),
    }
}

// Writes that the argument does not stand there, or its position.
fn write_found(position: Option<u32>) -> fmt::Result {
    match position {
        None => Out.write_str("no"),
        Some(position) => write!(Out, "yes at {position}"),
    }
}
