// The verb `has`: whether the argument that the words ask for is among those of a place. It is read under the base of that place, as the
// only value of a command.
use console_figures::front;
use console_replies::Reply;
use rules::{MOST_LETTERS, MOST_PLACES, MOST_TEXT, Reason, Refusal};

// Of an argument that is longer than the longest one byte more is kept, so that its command is too long, and the library refuses.
const ARGUMENT: usize = MOST_TEXT - console_figures::BEFORE;

const COMMAND: usize = console_figures::BEFORE + ARGUMENT + console_figures::BEHIND;
// The base where a record has no letter.
const DECIMAL: u8 = b'D';

// Serves a command's record. The library judges the place before the argument: with none it says what there is to say of the place.
pub fn serve(rt: HostRuntime, record: &[u8], place: u32) -> Result<Reply, Refusal> {
    match mml::member(record, place, b"") {
        Err(refusal) if refusal.reason != Reason::WrongArgument => Err(refusal),
        _ => Ok(ask(rt, record, place)),
    }
}

// Asks for the argument of the words.
fn ask(rt: HostRuntime, record: &[u8], place: u32) -> Reply {
    let mut room = [0u8; ARGUMENT];
    let argument = console_words::argument(rt, &mut room);
    let mut text = [0u8; COMMAND];
    let long = console_figures::put_asked(argument, &mut text);
    let text = front(&text, long);
    let letters = [letter(record, place as usize); MOST_LETTERS];
    find(record, place, &letters, text).unwrap_or_else(|refusal| {
        console_replies::refuse_argument(&letters, text, refusal, place)
    })
}

// The base letter of a record's place, if there is one.
fn letter(record: &[u8], place: usize) -> u8 {
    let mut letters = [0u8; MOST_PLACES];
    let n = console_figures::own_bases(record, &mut letters);
    front(&letters, n).get(place).copied().unwrap_or(DECIMAL)
}

// Reads the argument's command, and asks the library for its argument. Where more places than one stand in it they all have this base, so
// that what is said of it is true.
fn find(record: &[u8], place: u32, letters: &[u8], text: &[u8]) -> Result<Reply, Refusal> {
    let mut fields = io::large_buffer();
    let n = mml::read(text, letters, &mut fields)?;
    let asked = front(&fields, n as usize);
    let value = mml::member(record, place, console_figures::argument_fields(asked))?;
    Ok(write(place, asked, value))
}

// Says what the library answered, with the argument as it was read.
fn write(place: u32, asked: &[u8], value: u32) -> Reply {
    let mut text = [0u8; MOST_TEXT];
    match mml::print(asked, &mut text) {
        Ok(n) => write_member(
            place,
            console_figures::argument_text(front(&text, n as usize)),
            value,
        ),
        Err(refusal) => console_replies::refuse_order(refusal),
    }
}

// Says whether the argument is there.
fn write_member(place: u32, argument: &[u8], value: u32) -> Reply {
    match console_figures::found(value) {
        Some(position) => console_replies::write_found(argument, position, place),
        None => console_replies::write_absent(argument, place),
    }
}
