// Documents 01 and 02 as definitions (specs/) and what is proved of them (proofs/). The types that the calls answer with, the numbers of the
// refusals and the limits are the only code.
#![tactic(auto)]

ghost use Rattle.std.specs.Prelude.{◌≡◌};
ghost use Rattle.rules.specs.Reasons.{number};

// Why a call refuses: the numbers of the tables, as `Refusals` has them.
#[derive(Clone, Copy, Debug, PartialEq, Eq)]
pub enum Reason {
    // A wrong base letter, or a 33rd.
    WrongLetter = 1,
    // A text of more bytes than MOST_TEXT.
    TooLong = 2,
    // A byte that is not permitted.
    NotPermitted = 3,
    // A string or a comment that is not closed.
    Unclosed = 4,
    // A byte that begins no token.
    NoToken = 5,
    // No `;` token.
    NoEnd = 6,
    // A token after the first `;`.
    AfterEnd = 7,
    // A code that is wrong.
    WrongCode = 8,
    // A place whose kind is not its block's.
    KindDiffers = 9,
    // A name that is wrong.
    WrongName = 10,
    // Units and joining separators that do not alternate, or a named value that is empty.
    WrongShape = 11,
    // A unit that cannot be read.
    Unreadable = 12,
    // A numeral that is too big, or has too many fraction digits.
    TooBig = 13,
    // A group rule that is broken.
    GroupBroken = 14,
    // A word or a string that is too long; a block, a place or an element too many.
    TooMany = 15,
    // More arguments of a value, or more orders, than there may be.
    TooManyOrders = 16,
    // A buffer that is too short.
    NoRoom = 17,
    // A record that is not well formed.
    NotWellFormed = 18,
    // An order that is not below the count.
    NoSuchOrder = 19,
    // A key to a keeper that cannot hold it.
    NoKey = 20,
    // A name that stands already in its block.
    NameTwice = 21,
    // A place that there is not, or that is omitted.
    NoSuchPlace = 26,
    // An argument that could not stand in its place.
    WrongArgument = 27,
    // A row that is shorter than the places, or of which a slot differs.
    WrongRow = 28,
}

// A refusal: why, and at which place.
#[derive(Clone, Copy, Debug, PartialEq, Eq)]
pub struct Refusal {
    pub reason: Reason,
    pub place: u32,
}

// What a call answers: the bytes written (for count the number of orders, for member 0 or 1 and the position, for place the length of its fields), or its refusal.
pub type Answer = Result<u32, Refusal>;

impl Reason {
    // The number that the tables give it.
    pub fn number(self) -> u8
        ensures { result ≡ number self }
    {
        self as u8
    }

    // The refusal for this reason at a place.
    pub fn at(self, place: u32) -> Refusal
        ensures { result ≡ record { reason = self; place = place } }
    {
        Refusal {
            reason: self,
            place,
        }
    }
}

// The limits, as `Refusals` has them. Base letters of a list.
pub const MOST_LETTERS: usize = 32;
// Bytes of a text.
pub const MOST_TEXT: usize = 1024;
// Bytes of a word.
pub const MOST_WORD: usize = 32;
// Bytes of a word whose second is `'`.
pub const MOST_PREFIXED: usize = 34;
// Bytes of a string's content.
pub const MOST_STRING: usize = 80;
// Identifiers of a code behind the first.
pub const MORE_OF_CODE: usize = 2;
// Pieces of a name behind the first.
pub const MORE_OF_NAME: usize = 3;
// Blocks of a command.
pub const MOST_BLOCKS: usize = 8;
// Places of a command.
pub const MOST_PLACES: usize = 32;
// Units of an argument before the last.
pub const MOST_LEADING: usize = 3;
// Elements of a value.
pub const MOST_ELEMENTS: usize = 64;
// Arguments of a value.
pub const MOST_ARGUMENTS: u64 = 4096;
// Orders of a command.
pub const MOST_ORDERS: u64 = 65535;
// The largest value of a numeral.
pub const MOST_VALUE: u64 = 4294967295;
// Fraction digits of a numeral.
pub const MOST_FRACTION: usize = 9;

// M-100: "The line keeper carries its 1,024 bytes with it." The line that it holds is the first `count` of them.
#[repr(C)]
#[derive(Clone, Copy)]
pub struct Keeper {
    pub bytes: [u8; 1024],
    pub count: u32,
}

// What a key gives: the keeper after it, and the answer, whose value is 1 if the line is ready, else 0.
#[derive(Clone, Copy)]
pub struct Pressed {
    pub keeper: Keeper,
    pub answer: Answer,
}
