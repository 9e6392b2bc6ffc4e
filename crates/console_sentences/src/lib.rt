// What an operator is told of a refusal: the line, a caret under the place, a sentence for the number, and one for this line.
#![tactic(auto)]

mod hint;

use console_window::{Line, Pointed, Screen};
use hint_phrases::{Phrase, plain};
use rules::{Reason, Refusal};
use std::fmt;
use std::fmt::Write;

// Shows a refusal: the line that was refused or, where its bases are at fault, those; a caret under the place, or behind the line if
// the place is there; number, place and sentence; then what can be told from the line.
pub fn show(mut screen: Screen, line: &[u8], bases: &[u8], refusal: Refusal) -> fmt::Result {
    write_place(screen, line, bases, refusal)?;
    write_refusal(screen, refusal)?;
    hint::write_line_hint(screen, line, bases, refusal)?;
    writeln!(screen)
}

// Shows a refusal of an argument that is asked for of the place with the number `asked`: `text` is the command that holds it alone, and
// the refusal is the one with which that command, or its argument, was refused.
pub fn show_argument(
    mut screen: Screen,
    text: &[u8],
    bases: &[u8],
    refusal: Refusal,
    asked: u32,
) -> fmt::Result {
    let line = console_figures::argument_text(text);
    let place = in_argument(refusal.place as usize);
    let pointed = Pointed { line, place };
    write!(screen, "{pointed}")?;
    write_refusal(screen, Reason::WrongArgument.at(0))?;
    hint::write_argument_hint(screen, text, bases, refusal, asked as usize)?;
    writeln!(screen)
}

// Where in the argument a place of its command lies.
fn in_argument(place: usize) -> usize {
    if console_figures::BEFORE <= place {
        return place - console_figures::BEFORE;
    }
    0
}

// Shows a refusal of a record that the line gives in hexadecimal: no place in it is a byte's.
pub fn show_record(mut screen: Screen, line: &[u8], refusal: Refusal) -> fmt::Result {
    let alone = Line(line);
    write!(screen, "{alone}")?;
    write_refusal(screen, refusal)?;
    hint::write_record_hint(screen, refusal.reason)?;
    writeln!(screen)
}

// Writes what was refused, with a caret where the place is in it: of some refusals it is one in a buffer, a record, an order or a place.
fn write_place(mut screen: Screen, line: &[u8], bases: &[u8], refusal: Refusal) -> fmt::Result {
    let place = refusal.place as usize;
    let pointed = match refusal.reason {
        Reason::WrongLetter => Pointed { line: bases, place },
        Reason::NoRoom
        | Reason::NotWellFormed
        | Reason::NoSuchOrder
        | Reason::NoSuchPlace
        | Reason::WrongArgument
        | Reason::WrongRow => {
            let alone = Line(line);
            return write!(screen, "{alone}");
        }
        _ => Pointed { line, place },
    };
    write!(screen, "{pointed}")
}

// Writes number, place and general phrase of a refusal, in one line.
pub fn write_refusal(mut screen: Screen, refusal: Refusal) -> fmt::Result {
    let number = refusal.reason.number();
    let place = refusal.place;
    let general = plain(Phrase::General(refusal.reason));
    writeln!(screen, "refused {number} at {place}: {general}")
}
