// The program behind `./mml`. Each line of standard input is a command or, for some verbs, a record
// in hexadecimal; module `verbs` says what is done with it. Of `keys` each byte is a key; module
// `keys` makes lines of them. It is started with five words that the script has judged, MANNER VERB
// K BASES ARGUMENT; crate `console_words` takes them:
//
//     MANNER    alone  nothing is told at the end
//               told   at the end one digit goes to descriptor 3, where the script reads it
//               typed  the same, and a prompt stands on standard error before each line; of `keys`
//                      the bytes are those of a terminal on which each key acts at once
//     VERB      check, record, orders, list, order, has, place, keys, text or bases
//     K         the order that `order` asks for; of `has` and `place` the place; of `keys` the columns
//               of the terminal; the other verbs do not use it
//     BASES     the base letters, perhaps none
//     ARGUMENT  what `has` asks for; the other verbs do not use it
//
// The digit is the script's status: 0 every line was served, 1 at least one was refused, 2 the words
// are wrong, 3 input or output failed. The program's own status is 0 whatever it tells.
#![tactic(auto)]

mod has;
mod keys;
mod place;
mod verbs;

ghost use Rattle.std.specs.Prelude.{◌≡◌, length};

use console_lines::{Input, Line};
use console_replies::{Failure, Outcome, Reply};
use console_window::Screen;
use console_words::{Asked, Form, Manner, Status, Verb};
use keys::Terminal;
use std::fmt::Write;

// Of a line that is longer than the longest command one byte more is kept, and the library refuses.
const COMMAND_LINE: usize = rules::MOST_TEXT + 1;
// Two digits for each byte of the longest record that is served, 65,536 bytes.
const RECORD_LINE: usize = 131072;
// Of a list of bases that is longer than the longest, too, one letter more is kept.
const BASES: usize = rules::MOST_LETTERS + 1;
// The longest list that is written, half of what a stack most often has. `hint_phrases` says this number to the operator.
const MOST_LIST: usize = 4194304;

// Serves what the words ask, and tells what came of it.
fn main(rt: HostRuntime) {
    match console_words::how(rt) {
        Some(manner) => manner.tell(answer(rt, manner)),
        None => console_words::complain(),
    }
}

// Serves what the other words ask, and answers what came of it; what failed is said.
fn answer(rt: HostRuntime, manner: Manner) -> Status {
    let Some(asked) = console_words::what(rt) else {
        console_words::complain();
        return Status::WrongWords;
    };
    let reply = serve(rt, manner, asked);
    if let Err(failure) = reply {
        let _ = write!(Screen::ERR, "{failure}");
    }
    console_replies::status(reply)
}

// Serves each line, or each byte as a key. One verb alone needs room for a list.
fn serve(rt: HostRuntime, manner: Manner, asked: Asked) -> Reply {
    match asked {
        Asked::Commands(Verb::List) => serve_lists(rt, manner),
        Asked::Commands(verb) => serve_commands(rt, manner, verb, &mut []),
        Asked::Records(form) => serve_records(rt, manner, form),
        Asked::Keys(columns) => serve_keys(rt, manner, columns),
    }
}

// Serves each line as a command whose orders are to be listed. All lists use the same room.
fn serve_lists(rt: HostRuntime, manner: Manner) -> Reply {
    let mut room = list_buffer();
    serve_commands(rt, manner, Verb::List, &mut room)
}

// Room for a list. The contract has its length alone, which is all that lending it needs.
fn list_buffer() -> [u8; MOST_LIST]
    ensures { 4194304 ≡ length result }
{
    [0; MOST_LIST]
}

// Serves each line as a command, with room for its list.
fn serve_commands(rt: HostRuntime, manner: Manner, verb: Verb, room: &mut [u8]) -> Reply {
    let mut letters = [0u8; BASES];
    let bases = console_words::bases(rt, &mut letters);
    let mut line = [0u8; COMMAND_LINE];
    serve_lines(rt, manner, &mut line, |line| {
        verbs::serve(rt, verb, bases, line.kept, room)
    })
}

// Serves each byte as a key.
fn serve_keys(rt: HostRuntime, manner: Manner, columns: u64) -> Reply {
    let mut letters = [0u8; BASES];
    let bases = console_words::bases(rt, &mut letters);
    let terminal = Terminal {
        rt,
        manner,
        columns,
        bases,
    };
    terminal.serve()
}

// Serves each line as a record.
fn serve_records(rt: HostRuntime, manner: Manner, form: Form) -> Reply {
    let mut line = [0u8; RECORD_LINE];
    serve_lines(rt, manner, &mut line, |line| {
        verbs::serve_record(form, line)
    })
}

// Serves one line after the other, each put into `room`, and answers the worst that came of one. No input has as many lines as there are
// turns.
fn serve_lines<F: FnMut(Line<'_>) -> Reply>(
    rt: HostRuntime,
    manner: Manner,
    room: &mut [u8],
    mut serve: F,
) -> Reply
    requires { F.IsAlwaysCallable serve }
{
    let mut input = Input::new(rt.stdin());
    let mut worst = Outcome::Served;
    for _ in 0..u64::MAX {
        let Some(line) = next_line(manner, &mut input, room)? else {
            return end(manner, worst);
        };
        worst = console_replies::worse(worst, serve(line)?);
    }
    Err(Failure::Unasked)
}

// Asks for the next line, and reads it.
fn next_line<'a>(
    manner: Manner,
    input: &mut Input,
    room: &'a mut [u8],
) -> Result<Option<Line<'a>>, Failure> {
    manner.prompt("mml> ").map_err(|_| Failure::Unread)?;
    Ok(input.next_line(room)?)
}

// What came of all lines, at the end of the input. What is typed next stands in a new line.
fn end(manner: Manner, worst: Outcome) -> Reply {
    manner.prompt("\n").map_err(|_| Failure::Unasked)?;
    Ok(worst)
}
