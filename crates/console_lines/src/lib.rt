// What the programs over the library share: the lines of standard input, however they arrive (from
// a file or a pipe, typed or pasted), its bytes one by one, and bytes written in hexadecimal.
#![tactic(auto)]

mod hexadecimal;

ghost use Rattle.std.specs.Prelude.{◌≡◌, ◌≤◌, length, take};

pub use hexadecimal::Hex;
use std::io;
use std::io::{ErrorKind, Read, Stdin};

// How many bytes are read at a time.
const BLOCK: usize = 4096;

const NEWLINE: u8 = b'\n';

// What the last read brought: bytes; nothing, as at the input's end; or it failed.
#[derive(Clone, Copy)]
enum State {
    Open,
    Over,
    Failed(io::Error),
}

// Standard input, of whose block that was read last the bytes from `at` up to `end` are left.
#[derive(Clone, Copy)]
pub struct Input {
    stdin: Stdin,
    block: [u8; BLOCK],
    at: usize,
    end: usize,
    state: State,
    ghost in_block: { (at ≤ end) × (end ≤ 4096) },
}

// A line without its newline: those of its bytes for which there was room, and how many it has in all.
#[derive(Clone, Copy)]
pub struct Line<'a> {
    pub kept: &'a [u8],
    pub long: usize,
}

impl Input {
    ghost use Rattle.console_lines.specs.declared.State.TheVariants.{Open};

    // Nothing is read yet.
    pub fn new(stdin: Stdin) -> Input
        ensures { (result.at ≡ 0) × (result.end ≡ 0) × (result.state ≡ Open) }
    {
        Input {
            stdin,
            block: [0; BLOCK],
            at: 0,
            end: 0,
            state: State::Open,
        }
    }

    // The next line, put into `room` as far as that goes, or none at the end of the input. It is
    // served as soon as its newline has come, so that a typed line does not wait for the next one;
    // what stands behind the last newline is a line too, unless it is empty. A line that a failed
    // read cuts off is none. No line takes as many reads as there are turns.
    pub fn next_line<'a>(&mut self, room: &'a mut [u8]) -> io::Result<Option<Line<'a>>> {
        let mut long: usize = 0;
        for _ in 0..u64::MAX {
            let left = self.fill()?;
            let stop = left.iter().position(|b| *b == NEWLINE);
            let part = &left[..stop.unwrap_or(left.len())];
            let n = part.len();
            keep(part, room, long);
            long = long.saturating_add(n);
            if stop.is_some() {
                self.consume(n + 1);
                return Ok(Some(served(room, long)));
            }
            if n == 0 {
                return Ok(if long == 0 {
                    None
                } else {
                    Some(served(room, long))
                });
            }
            self.consume(n);
        }
        Err(io::Error::from(ErrorKind::FileTooLarge))
    }

    // The next byte, as soon as it has come, or none at the end of the input.
    pub fn next_byte(&mut self) -> io::Result<Option<u8>> {
        let byte = self.fill()?.first().copied();
        self.consume(1);
        Ok(byte)
    }

    // The bytes that are left; where none are it reads once. At the input's end there are none.
    fn fill(&mut self) -> io::Result<&[u8]> {
        if self.end <= self.at {
            self.read()?;
        }
        Ok(&self.block[self.at..self.end])
    }

    // Reads once, unless an earlier read brought nothing or failed.
    fn read(&mut self) -> io::Result<()> {
        match self.state {
            State::Open => {}
            State::Over => {
                return Ok(());
            }
            State::Failed(e) => {
                return Err(e);
            }
        }
        self.at = 0;
        self.end = 0;
        match self.stdin.read(&mut self.block) {
            Ok(0) => {
                self.state = State::Over;
            }
            Ok(n) => {
                self.end = n;
            }
            Err(e) => {
                self.state = State::Failed(e);
                return Err(e);
            }
        }
        Ok(())
    }

    // Passes over n of the bytes that are left, or all where there are fewer.
    fn consume(&mut self, n: usize) {
        self.at += n.min(self.end - self.at);
    }
}

// Copies a part of a line behind the first `long` bytes of the line, as far as there is room.
fn keep(part: &[u8], room: &mut [u8], long: usize)
    ensures { length room.new ≡ length room.old }
{
    if long < room.len() {
        let n = part.len().min(room.len() - long);
        room[long..long + n].copy_from_slice(&part[..n]);
    }
}

// A line of `long` bytes, of which `room` has kept what fits.
fn served(room: &[u8], long: usize) -> Line<'_>
    ensures { (result.kept.now ≡ take long room.now) × (result.long ≡ long) }
{
    Line {
        kept: &room[..long.min(room.len())],
        long,
    }
}
