// A line on a terminal: as much of it as fits around a place, and a caret below the place.
#![tactic(auto)]

ghost use Rattle.std.specs.Prelude.{◌+◌, ◌≤◌, length};

use std::fmt;

// How many columns a line takes at most; the caret may stand one behind them.
const WIDTH: usize = 76;
// Where something is cut off at an end, this stands for it.
const DOTS: &str = "..";

const CUT: usize = 2;
// From the middle to either end.
const HALF: usize = WIDTH / 2;

// Room for a line, and a caret behind it.
pub const ROW: usize = 80;

const BLANKS: [u8; ROW] = [b' '; ROW];

// A terminal, or whatever a descriptor leads to, to write to.
#[derive(Clone, Copy, Debug, PartialEq, Eq)]
pub struct Screen {
    pub fd: i32,
}

impl Screen {
    // Standard output, and standard error.
    pub const OUT: Screen = Screen { fd: 1 };

    pub const ERR: Screen = Screen { fd: 2 };

    // Writes bytes as they are.
    pub fn write_bytes(self, bytes: &[u8]) -> fmt::Result {
        if io::write_all(self.fd, bytes) {
            Ok(())
        } else {
            Err(fmt::Error)
        }
    }
}

impl fmt::Write for Screen {
    fn write_str(&mut self, s: &str) -> fmt::Result {
        self.write_bytes(s.as_bytes())
    }
}

// Bytes as a terminal shows them: the first, each that is no printed character as a full stop.
#[derive(Clone, Copy)]
pub struct Shown<'a>(pub &'a [u8]);

impl fmt::Display for Shown<'_> {
    fn fmt<W: fmt::Write>(&self, f: &mut fmt::Formatter<W>) -> fmt::Result {
        let mut row = [b' '; ROW];
        for (to, b) in row.iter_mut().zip(self.0) {
            *to = printed(*b);
        }
        let n = self.0.len().min(ROW);
        f.write_str(str::from_utf8(&row[..n]).map_err(|_| fmt::Error)?)
    }
}

// What is written for a byte.
pub fn printed(b: u8) -> u8
    ensures { (32 ≤ result) × (result ≤ 126) }
{
    match b {
        b' '..=b'~' => b,
        _ => b'.',
    }
}

// A line, and below it a caret under the byte at `place`, or behind the last byte. Of a long line only a part is written.
#[derive(Clone, Copy)]
pub struct Pointed<'a> {
    pub line: &'a [u8],
    pub place: usize,
}

impl fmt::Display for Pointed<'_> {
    fn fmt<W: fmt::Write>(&self, f: &mut fmt::Formatter<W>) -> fmt::Result {
        let line = without_return(self.line);
        let place = self.place.min(line.len());
        let window = Window::around(line.len(), place);
        window.write(line, f)?;
        writeln!(f, "{}^", Shown(&BLANKS[..window.column(place)]))
    }
}

// A line alone, of a long one the beginning.
#[derive(Clone, Copy)]
pub struct Line<'a>(pub &'a [u8]);

impl fmt::Display for Line<'_> {
    fn fmt<W: fmt::Write>(&self, f: &mut fmt::Formatter<W>) -> fmt::Result {
        let line = without_return(self.0);
        Window::around(line.len(), 0).write(line, f)
    }
}

// What is shown of a line: all but a carriage return at its end.
fn without_return(line: &[u8]) -> &[u8] {
    match line {
        [front @ .., b'\r'] => front,
        _ => line,
    }
}

// What of a line is shown: its bytes from `from` up to `to`.
#[derive(Clone, Copy)]
pub struct Window {
    pub from: usize,
    pub to: usize,
}

impl Window {
    // What is shown of a line of `len` bytes, so that `place` is in sight.
    fn around(len: usize, place: usize) -> Window
        requires { place ≤ len }
        ensures { (result.to ≤ len) × (result.from ≤ place) × (place ≤ result.to) × (result.to ≤ result.from + 76) }
    {
        if len <= WIDTH {
            return Window { from: 0, to: len };
        }
        if place < HALF {
            return Window {
                from: 0,
                to: WIDTH - CUT,
            };
        }
        if len - HALF <= place {
            return Window {
                from: len - (WIDTH - CUT),
                to: len,
            };
        }
        Window {
            from: place - (HALF - CUT),
            to: place + (HALF - CUT),
        }
    }

    // The column of a place in the window.
    fn column(self, place: usize) -> usize
        requires { (self.from ≤ place) × (place ≤ self.from + 76) }
        ensures { result ≤ 78 }
    {
        if self.from == 0 {
            return place;
        }
        place - self.from + CUT
    }

    // Writes the window's bytes of a line, and full stops for what is cut off.
    fn write<W: fmt::Write>(self, line: &[u8], f: &mut fmt::Formatter<W>) -> fmt::Result
        requires { (self.from ≤ self.to) × (self.to ≤ length line.now) }
    {
        let before = cut(0 < self.from);
        let behind = cut(self.to < line.len());
        writeln!(f, "{before}{}{behind}", Shown(&line[self.from..self.to]))
    }
}

// What stands for what is cut off.
fn cut(is_cut: bool) -> &'static str {
    if is_cut { DOTS } else { "" }
}
