// The words that the console is started with, MANNER VERB K BASES ARGUMENT, and how it tells who started it what came of them.
#![tactic(auto)]

ghost use Rattle.std.specs.Prelude.{◌≡◌, ◌≤◌, length, cond, leb, Some, None};
ghost use Rattle.console_words.specs.Told.{told};

use console_window::Screen;
use std::env::{Env, FillError};
use std::fmt;

// How many words there are, the program's own name among them.
const COUNT: usize = 6;
// Which of them each is.
const MANNER: usize = 1;

const VERB: usize = 2;

const K: usize = 3;

const BASES: usize = 4;

const ARGUMENT: usize = 5;
// Room for the longest word that stands for a manner or a verb, and for the largest K.
const LONGEST_WORD: usize = 6;

const LONGEST_K: usize = 20;

// Where the script reads a digit.
const SCRIPT: Screen = Screen { fd: 3 };

// What came of all that was asked, as the script is told it.
#[derive(Clone, Copy, Debug, PartialEq, Eq)]
pub enum Status {
    // Every line was served.
    Served = b'0' as isize,
    // At least one was refused.
    Refused = b'1' as isize,
    // The words are wrong.
    WrongWords = b'2' as isize,
    // Input or output failed.
    Failed = b'3' as isize,
}

impl Status {
    // The digit that tells it.
    pub fn digit(self) -> u8
        ensures { result ≡ told self }
    {
        self as u8
    }
}

// How the program was started.
#[derive(Clone, Copy, Debug, PartialEq, Eq)]
pub enum Manner {
    Alone,
    Told,
    Typed,
}

impl Manner {
    // The manner that a word says.
    fn of(word: &[u8]) -> Option<Manner> {
        match word {
            b"alone" => Some(Manner::Alone),
            b"told" => Some(Manner::Told),
            b"typed" => Some(Manner::Typed),
            _ => None,
        }
    }

    // Tells the script what came of all, if it listens.
    pub fn tell(self, status: Status) {
        match self {
            Manner::Alone => {}
            Manner::Told | Manner::Typed => {
                let _ = SCRIPT.write_bytes(&[status.digit()]);
            }
        }
    }

    // Writes a text to the operator who types; where none does it need not be written.
    pub fn prompt(self, text: &str) -> fmt::Result {
        match self {
            Manner::Typed => Screen::ERR.write_bytes(text.as_bytes()),
            Manner::Alone | Manner::Told => Ok(()),
        }
    }
}

// What is asked of each line that is a command.
#[derive(Clone, Copy, Debug, PartialEq, Eq)]
pub enum Verb {
    Check,
    Record,
    Orders,
    List,
    Order(u64),
    Has(u32),
    Place(u32),
}

// What is asked of each line that is a record.
#[derive(Clone, Copy, Debug, PartialEq, Eq)]
pub enum Form {
    Text,
    Bases,
}

// What the words ask: of lines that are commands or records; of keys, on a terminal with so many columns.
#[derive(Clone, Copy, Debug, PartialEq, Eq)]
pub enum Asked {
    Commands(Verb),
    Records(Form),
    Keys(u64),
}

impl Asked {
    // What a verb asks, with the number K.
    fn of(verb: &[u8], k: u64) -> Option<Asked> {
        match verb {
            b"check" => Some(Asked::Commands(Verb::Check)),
            b"record" => Some(Asked::Commands(Verb::Record)),
            b"orders" => Some(Asked::Commands(Verb::Orders)),
            b"list" => Some(Asked::Commands(Verb::List)),
            b"order" => Some(Asked::Commands(Verb::Order(k))),
            b"has" => Some(Asked::Commands(Verb::Has(place(k)?))),
            b"place" => Some(Asked::Commands(Verb::Place(place(k)?))),
            b"keys" => Some(Asked::Keys(k)),
            b"text" => Some(Asked::Records(Form::Text)),
            b"bases" => Some(Asked::Records(Form::Bases)),
            _ => None,
        }
    }
}

// The place that K numbers.
fn place(k: u64) -> Option<u32>
    ensures { result ≡ cond (leb k 4294967295) (Some k) None }
{
    u32::try_from(k).ok()
}

// How the program was started, by the first word.
pub fn how(rt: HostRuntime) -> Option<Manner> {
    let mut room = [0u8; LONGEST_WORD];
    Manner::of(whole(rt, MANNER, &mut room))
}

// What the other words ask.
pub fn what(rt: HostRuntime) -> Option<Asked> {
    if !is_given(rt, COUNT - 1) || is_given(rt, COUNT) {
        return None;
    }
    let mut digits = [0u8; LONGEST_K];
    let k = console_figures::decimal(whole(rt, K, &mut digits))?;
    let mut room = [0u8; LONGEST_WORD];
    Asked::of(whole(rt, VERB, &mut room), k)
}

// Is there a word with this number?
fn is_given(rt: HostRuntime, i: usize) -> bool {
    !matches!(rt.arg(i, &mut []), Err(FillError::NotPresent))
}

// A word, put into `room`; none where it has not room for the whole.
fn whole<'a>(rt: HostRuntime, i: usize, room: &'a mut [u8]) -> &'a [u8] {
    match rt.arg(i, room) {
        Ok(n) => &room[..n],
        Err(_) => &[],
    }
}

// Says that the words are wrong.
pub fn complain() {
    let _ = Screen::ERR.write_bytes(
        b"console: wrong words; start this program by `./mml`, and `./mml help` lists its verbs\n",
    );
}

// The base letters, put into `room`: of a longer list as many as fit.
pub fn bases(rt: HostRuntime, room: &mut [u8]) -> &[u8] {
    front(rt, BASES, room)
}

// The argument that `has` asks for, put into `room`: of a longer one as many bytes as fit.
pub fn argument(rt: HostRuntime, room: &mut [u8]) -> &[u8]
    ensures { length result.now ≤ length room.old }
{
    front(rt, ARGUMENT, room)
}

// A word, put into `room`, or as much of it as fits.
fn front<'a>(rt: HostRuntime, i: usize, room: &'a mut [u8]) -> &'a [u8]
    ensures { length result.now ≤ length room.old }
{
    match rt.arg(i, room) {
        Ok(n) => room.get(..n).unwrap_or_default(),
        Err(FillError::TooLong) => room,
        Err(FillError::NotPresent) => &[],
    }
}
