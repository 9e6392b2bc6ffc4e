// What an operator types, key by key, and the row of the terminal that shows the line so far.
#![tactic(auto)]

ghost use Rattle.std.specs.Prelude.{◌≡◌, ◌≤◌, ◌<◌, take};
ghost use Rattle.console_typing.specs.Meant.{meant_by, meant_on_terminal};

use chars::Class;
use console_lines::Input;
use console_window::{Screen, Shown};
use console_words::Manner;
use rules::{Keeper, MOST_TEXT};
use std::fmt::Write;
use std::{fmt, io};

// Keys: BS, and what a terminal sends for it; what ends the input on a terminal.
const BACKSPACE: u8 = 8;

const DELETE: u8 = 127;

const END: u8 = 4;

// Columns of a row that are not the line's: those of the prompt, and the last one, behind which a terminal begins a new row.
const TAKEN: u64 = 6;
// Columns that the line has at least and at most, however wide the terminal is.
const FEWEST: u64 = 4;

const WIDEST: u64 = 74;
// Where something is cut off, this stands for it.
const DOTS: &str = "..";

const CUT: usize = 2;

// A keeper that holds nothing.
pub fn empty() -> Keeper {
    Keeper {
        bytes: [0; MOST_TEXT],
        count: 0,
    }
}

// The line that a keeper holds; all its bytes where its count passes them.
pub fn line(keeper: &Keeper) -> &[u8]
    ensures { result.now ≡ take keeper.now.count keeper.now.bytes }
{
    console_figures::front(&keeper.bytes, keeper.count as usize)
}

// The next key, or none at their end: from a terminal what the operator means by it, else the byte as it came.
pub fn next_key(manner: Manner, input: &mut Input) -> io::Result<Option<u8>> {
    Ok(input.next_byte()?.and_then(|byte| meant(manner, byte)))
}

// The key that is meant by a byte, or none where it ends the keys.
fn meant(manner: Manner, byte: u8) -> Option<u8>
    ensures { result ≡ meant_by manner byte }
{
    match manner {
        Manner::Typed => typed(byte),
        Manner::Alone | Manner::Told => Some(byte),
    }
}

// The same of a byte from a terminal: its Backspace sends DEL, and its end of input is a byte too.
fn typed(byte: u8) -> Option<u8>
    ensures { result ≡ meant_on_terminal byte }
{
    match byte {
        END => None,
        DELETE => Some(BACKSPACE),
        _ => Some(byte),
    }
}

// Shows the line so far to the operator who types it: in one row, of a long line the end.
pub fn show(manner: Manner, columns: u64, line: &[u8]) -> fmt::Result {
    match manner {
        Manner::Typed => {
            let (dots, end) = end_of(line, room(columns));
            write!(Screen::ERR, "\r\x1b[Kmml> {dots}{}", Shown(end))
        }
        Manner::Alone | Manner::Told => Ok(()),
    }
}

// Ends the row, so that an answer stands below it.
pub fn end_row(manner: Manner) -> fmt::Result {
    manner.prompt("\n")
}

// Lets the terminal sound.
pub fn ring(manner: Manner) -> fmt::Result {
    manner.prompt("\x07")
}

// How many columns the line has.
fn room(columns: u64) -> usize
    ensures { (4 ≤ result) × (result ≤ 74) }
{
    columns.saturating_sub(TAKEN).clamp(FEWEST, WIDEST) as usize
}

// The end of the line, as much as there is room for, behind what stands for what is cut off.
fn end_of(line: &[u8], room: usize) -> (&'static str, &[u8])
    requires { 4 ≤ room }
{
    if line.len() <= room {
        return ("", line);
    }
    (DOTS, &line[line.len() - (room - CUT)..])
}

// Are all these bytes format effectors?
pub fn is_blank(line: &[u8]) -> bool {
    line.iter().all(|b| Class::of(*b) == Class::Effector)
}
