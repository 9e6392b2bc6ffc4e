// Which limit is passed: of blocks, places or elements (15), of arguments or orders (16).
#![tactic(auto)]

use hint_around::Around;
use hint_phrases::{Counted, Hint, Phrase, TooMany, plain};
use token_table::Kind;

// What is one too many at a token.
pub fn which_limit(around: Around) -> TooMany {
    if rules::MOST_PLACES < around.place_number() {
        return TooMany::Place;
    }
    match around.kind() {
        Some(Kind::Colon) => TooMany::Block,
        _ => TooMany::Element,
    }
}

// What is too many with the value that begins with a token.
pub fn which_size<'a>(around: Around) -> Hint<'a> {
    let own = arguments(around);
    if rules::MOST_ARGUMENTS < own {
        return counted(Counted::Arguments, own);
    }
    let orders = orders(around);
    if rules::MOST_ORDERS < orders {
        return counted(Counted::Orders, orders);
    }
    plain(Phrase::Nothing)
}

// A phrase with a number.
fn counted<'a>(phrase: Counted, n: u64) -> Hint<'a> {
    Hint {
        numbers: (n as usize, 0),
        ..plain(Phrase::Counted(phrase))
    }
}

// The product of the arguments of all values up to the one that begins with a token, or the largest number where it would be larger.
fn orders(around: Around) -> u64 {
    let mut product: u64 = 1;
    for at in 0..=around.at {
        product = product.saturating_mul(arguments(Around { at, ..around }));
    }
    product
}

// How many arguments the value has that begins with a token; 1 where none begins there, or a wrong one.
fn arguments(around: Around) -> u64 {
    if around.value_start() != around.at || around.is_named() {
        return 1;
    }
    match around.toks.get(around.at..around.next_mark()) {
        Some([]) | None => 1,
        Some(value) => match read_elements::elements(value, around.contents, around.base()) {
            Ok(elements) => elements.args,
            Err(_) => 1,
        },
    }
}
