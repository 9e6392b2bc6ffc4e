// What each verb does with one line.
use console_figures::{OutOfPlace, front};
use console_lines::Line;
use console_replies::{Outcome, Reply};
use console_window::Screen;
use console_words::{Form, Verb};
use rules::{Answer, MOST_PLACES, MOST_TEXT, Refusal};

// Serves a line as a command. A list is written into `room`.
pub fn serve(rt: HostRuntime, verb: Verb, bases: &[u8], line: &[u8], room: &mut [u8]) -> Reply {
    let reply = match verb {
        Verb::Place(place) => crate::place::serve(bases, line, place),
        _ => serve_record_of(rt, verb, bases, line, room),
    };
    reply.unwrap_or_else(|refusal| { console_replies::refuse(told_on(verb), bases, line, refusal) })
}

// Where a refusal is told: of `check` it is a result.
fn told_on(verb: Verb) -> Screen {
    match verb {
        Verb::Check => Screen::OUT,
        _ => Screen::ERR,
    }
}

// Serves a line as `check` does.
pub fn check(rt: HostRuntime, bases: &[u8], line: &[u8]) -> Reply {
    serve(rt, Verb::Check, bases, line, &mut [])
}

// Reads a command, and does with its record what the verb asks.
fn serve_record_of(
    rt: HostRuntime,
    verb: Verb,
    bases: &[u8],
    line: &[u8],
    room: &mut [u8],
) -> Result<Reply, Refusal> {
    let mut record = io::large_buffer();
    let n = mml::read(line, bases, &mut record)?;
    let record = front(&record, n as usize);
    match verb {
        Verb::Check => write_accepted(record),
        Verb::Orders => Ok(write_orders(record)),
        Verb::List => write_list(record, room),
        Verb::Order(k) => write_order(record, k),
        Verb::Has(place) => crate::has::serve(rt, record, place),
        Verb::Record | Verb::Place(_) => Ok(console_replies::write_record(record)),
    }
}

// Says that the command is accepted, how many orders it has and how the printer writes it.
fn write_accepted(record: &[u8]) -> Result<Reply, Refusal> {
    let mut text = [0u8; MOST_TEXT];
    let n = mml::print(record, &mut text)?;
    Ok(console_replies::write_accepted(order_count(record), front(&text, n as usize)))
}

// The number of orders of a record that the reader made.
fn order_count(record: &[u8]) -> u64 {
    mml::count(record).map_or(0, u64::from)
}

// Writes every order of a record with its number.
fn write_orders(record: &[u8]) -> Reply {
    let mut order = io::large_buffer();
    let mut text = [0u8; MOST_TEXT];
    for k in 0..order_count(record) {
        let answer = order_text(record, k, &mut order, &mut text);
        let outcome = write_numbered(k, &text, answer)?;
        if outcome != Outcome::Served {
            return Ok(outcome);
        }
    }
    Ok(Outcome::Served)
}

// Writes every order of a record with its number, by way of the whole list of them.
fn write_list(record: &[u8], room: &mut [u8]) -> Result<Reply, Refusal> {
    let n = mml::list(record, room)?;
    Ok(number_pieces(front(room, n as usize)))
}

// Writes the orders of a list, in turn.
fn number_pieces(list: &[u8]) -> Reply {
    let mut text = [0u8; MOST_TEXT];
    let mut k = 0;
    let mut at = 0;
    while at < list.len() {
        let order = console_figures::first_order(&list[at..]);
        let answer = mml::print(order, &mut text);
        let outcome = write_numbered(k, &text, answer)?;
        if outcome != Outcome::Served {
            return Ok(outcome);
        }
        k += 1;
        at += console_figures::LENGTH_FIELD + order.len();
    }
    Ok(Outcome::Served)
}

// Writes the text of order k, which was put into `text` with this answer, behind its number.
fn write_numbered(k: u64, text: &[u8], answer: Answer) -> Reply {
    match answer {
        Ok(n) => console_replies::write_order(k, front(text, n as usize)),
        Err(refusal) => console_replies::refuse_order(refusal),
    }
}

// Writes order k of a record.
fn write_order(record: &[u8], k: u64) -> Result<Reply, Refusal> {
    let mut order = io::large_buffer();
    let mut text = [0u8; MOST_TEXT];
    let n = order_text(record, k, &mut order, &mut text)?;
    Ok(console_replies::write_text(front(&text, n as usize)))
}

// Puts the text of order k of a record into `text`, by way of the order's record.
fn order_text(record: &[u8], k: u64, order: &mut [u8], text: &mut [u8]) -> Answer {
    let n = mml::order(record, k, order)?;
    mml::print(front(order, n as usize), text)
}

// Serves a line as a record in hexadecimal.
pub fn serve_record(form: Form, line: Line<'_>) -> Reply {
    let digits = line.kept;
    if digits.len() < line.long {
        return console_replies::refuse_length();
    }
    let mut record = io::large_buffer();
    match console_figures::decode(digits, &mut record) {
        Ok(n) => write_form(form, front(&record, n)).unwrap_or_else(
            |refusal| console_replies::refuse_record(digits, refusal),
        ),
        Err(OutOfPlace { place }) => console_replies::refuse_digits(digits, place),
    }
}

// Writes what is asked of a record.
fn write_form(form: Form, record: &[u8]) -> Result<Reply, Refusal> {
    match form {
        Form::Text => write_text(record),
        Form::Bases => write_bases(record),
    }
}

// Writes the text of a record.
fn write_text(record: &[u8]) -> Result<Reply, Refusal> {
    let mut text = [0u8; MOST_TEXT];
    let n = mml::print(record, &mut text)?;
    Ok(console_replies::write_text(front(&text, n as usize)))
}

// Writes the base letters of a record, if it is well formed.
fn write_bases(record: &[u8]) -> Result<Reply, Refusal> {
    let mut letters = [0u8; MOST_PLACES];
    let n = console_figures::own_bases(record, &mut letters);
    mml::count(record)?;
    Ok(console_replies::write_text(front(&letters, n)))
}
