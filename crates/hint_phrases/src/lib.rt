// What the console says of a refusal: phrases from one catalogue, into which characters, numbers and stretches of bytes come.
#![tactic(auto)]

mod catalogue;
mod inserts;

pub use catalogue::{
    Argument, Base, Behind, Big, Byte, Code, Counted, End, Group, Kind, Letter, Misfit, Name, Open,
    Order, Phrase, Place, Shape, Stray, TooLong, TooMany,
};

// What is told of a refusal: a phrase, with one before or behind it or alone, and what comes into them: two letters, two numbers, two
// stretches of bytes.
#[derive(Clone, Copy)]
pub struct Hint<'a> {
    pub lead: Option<Phrase>,
    pub phrase: Phrase,
    pub tail: Option<Phrase>,
    pub letters: (u8, u8),
    pub numbers: (usize, usize),
    pub stretches: (&'a [u8], &'a [u8]),
}

// One phrase into which nothing comes.
pub fn plain<'a>(phrase: Phrase) -> Hint<'a> {
    Hint {
        lead: None,
        phrase,
        tail: None,
        letters: (0, 0),
        numbers: (0, 0),
        stretches: (b"", b""),
    }
}
