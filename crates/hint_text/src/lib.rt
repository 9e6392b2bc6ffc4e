// What can be told of a base letter (1), of bytes (3, 5), of what is not closed (4), of a missing semicolon (6), of a word or string that is
// too long (15), and of an order (19) or a place (26) that is not there: from the text and the place alone.
#![tactic(auto)]

use hint_phrases::{
    Base, Byte, End, Hint, Letter, Open, Order, Phrase, Place, Stray, TooMany, plain,
};

// The first byte outside ASCII.
const BEYOND: u8 = 128;

// Why the letter at a place is no base.
pub fn why_base<'a>(bases: &[u8], place: usize) -> Hint<'a> {
    if rules::MOST_LETTERS <= place {
        return plain(Phrase::Letter(Letter::TooMany));
    }
    let Some(b) = bases.get(place) else {
        return plain(Phrase::Letter(Letter::Bases));
    };
    let letter = digits::capital_of(*b);
    match Base::of(letter) {
        Some(_) => lettered(Phrase::Letter(Letter::Capital), letter),
        None => plain(Phrase::Letter(Letter::Bases)),
    }
}

// A phrase with a letter.
fn lettered<'a>(phrase: Phrase, letter: u8) -> Hint<'a> {
    Hint {
        letters: (letter, 0),
        ..plain(phrase)
    }
}

// A phrase with numbers.
fn counted<'a>(phrase: Phrase, numbers: (usize, usize)) -> Hint<'a> {
    Hint {
        numbers,
        ..plain(phrase)
    }
}

// Why a byte is not permitted.
pub fn why_byte<'a>(b: u8) -> Hint<'a> {
    let byte = if b < BEYOND {
        Byte::Control
    } else {
        Byte::NotAscii
    };
    counted(Phrase::Byte(byte), (usize::from(b), 0))
}

// What is not closed: `first` is its first byte.
pub fn what_open(first: u8) -> Open {
    match first {
        b'"' => Open::String,
        _ => Open::Comment,
    }
}

// What is too long: `first` is its first byte.
pub fn what_long(first: u8) -> TooMany {
    match first {
        b'"' => TooMany::String,
        _ => TooMany::Word,
    }
}

// Where the byte at a place may stand, which begins no token.
pub fn where_stray<'a>(line: &[u8], place: usize) -> Hint<'a> {
    let letter = *line.get(place).unwrap_or(&0);
    let stray = match letter {
        b'_' => Stray::Underline,
        b'/' => slash(line, place),
        _ => Stray::Other,
    };
    lettered(Phrase::Stray(stray), letter)
}

// Why the slash at a place stands alone.
fn slash(line: &[u8], place: usize) -> Stray {
    if 0 < place && line.get(place - 1) == Some(&b'*') {
        Stray::NotOpened
    } else {
        Stray::Slash
    }
}

// Where the semicolon is missing, in a line of so many tokens.
pub fn where_end(line: &[u8], tokens: usize) -> End {
    if tokens == 0 {
        End::NoCommand
    } else if line.contains(&b';') {
        End::Inside
    } else {
        End::Missing
    }
}

// Which orders there are, of so many.
pub fn which_orders<'a>(count: usize) -> Hint<'a> {
    match count {
        0..=1 => plain(Phrase::Order(Order::One)),
        _ => counted(Phrase::Order(Order::Many), (count, count - 1)),
    }
}

// Which places there are, of so many; of one of them, that it is omitted.
pub fn which_places<'a>(place: usize, count: usize) -> Hint<'a> {
    if place < count {
        return counted(Phrase::Place(Place::Omitted), (place, 0));
    }
    match count {
        0 => plain(Phrase::Place(Place::None)),
        1 => plain(Phrase::Place(Place::One)),
        _ => counted(Phrase::Place(Place::Many), (count, count - 1)),
    }
}
