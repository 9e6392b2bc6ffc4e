// All that the console says of refusals. In a phrase $c and $d stand for the hint's two letters, $n and $m for its two numbers, and $x and
// $y for its two stretches of bytes.
ghost use Rattle.std.specs.Prelude.{◌≡◌};
ghost use Rattle.hint_phrases.specs.Bases.{named};

use rules::Reason;

// What is said where nothing can be told of a line.
const NOTHING: &str = "nothing more can be told of it";

// A phrase: the one that a refusal has whatever the line is, or one on what the line tells of a refusal.
#[derive(Clone, Copy)]
pub enum Phrase {
    General(Reason),
    Letter(Letter),
    TooLong(TooLong),
    Byte(Byte),
    Open(Open),
    Stray(Stray),
    End(End),
    Behind(Behind),
    Code(Code),
    Kind(Kind),
    Name(Name),
    Shape(Shape),
    InBase(Base),
    Misfit(Misfit),
    Digits(Base),
    Big(Big),
    Group(Group),
    TooMany(TooMany),
    Counted(Counted),
    Order(Order),
    Place(Place),
    Argument(Argument),
    List,
    Record,
    Key,
    NameTwice,
    Nothing,
}

// On a base letter (1).
#[derive(Clone, Copy)]
pub enum Letter {
    TooMany,
    Capital,
    Bases,
}

// On a command or a record that is too long (2).
#[derive(Clone, Copy)]
pub enum TooLong {
    Command,
    Record,
}

// On a byte that is not permitted (3).
#[derive(Clone, Copy)]
pub enum Byte {
    Control,
    NotAscii,
}

// On what is not closed (4).
#[derive(Clone, Copy)]
pub enum Open {
    String,
    Comment,
}

// On a byte that begins no token (5).
#[derive(Clone, Copy)]
pub enum Stray {
    Underline,
    NotOpened,
    Slash,
    Other,
}

// On a missing semicolon (6).
#[derive(Clone, Copy)]
pub enum End {
    NoCommand,
    Inside,
    Missing,
}

// On what stands behind the semicolon that ends the command (7).
#[derive(Clone, Copy)]
pub enum Behind {
    Semicolon,
    Command,
}

// On a code (8). Pieces is true of every code.
#[derive(Clone, Copy)]
pub enum Code {
    Missing,
    PieceMissing,
    Quoted,
    TwoWords,
    FourPieces,
    NotJoined,
    Pieces,
}

// On how a place differs from the first of its block (9). Fraction tells the fraction that was meant, Comma does not.
#[derive(Clone, Copy)]
pub enum Kind {
    Fraction,
    Comma,
    Unnamed,
    Omitted,
    Named,
    NamedAfterOmitted,
}

// On a name (10). Pieces is true of every name.
#[derive(Clone, Copy)]
pub enum Name {
    Missing,
    PieceMissing,
    FirstPiece,
    LaterPiece,
    FivePieces,
    Pieces,
}

// On the shape of a value (11): the joining separators stand between Behind or Before and UnitMissing.
#[derive(Clone, Copy)]
pub enum Shape {
    NoValue,
    SecondEquals,
    Sign,
    Behind,
    Before,
    AmpAmpDash,
    AmpAmp,
    AmpDash,
    Amp,
    PlusPlus,
    Dash,
    UnitMissing,
    TwoWords,
    TwoStrings,
    TwoUnits,
}

// The base of a place or of a numeral.
#[derive(Clone, Copy, PartialEq, Eq)]
pub enum Base {
    Decimal,
    Hexadecimal,
    Octal,
    Binary,
    Keyed,
}

// On a word that is no unit (12).
#[derive(Clone, Copy)]
pub enum Misfit {
    MarkInside,
    UnknownPrefix,
    KeyedOnly,
    DigitsMissing,
    DigitsBehind,
    Digits,
    TwoStops,
    StopBare,
    StopInName,
    Fraction,
    ShortFraction,
    KeyedStop,
    Star,
    Keys,
}

// On the limit that a numeral passes (13).
#[derive(Clone, Copy)]
pub enum Big {
    FractionDigits,
    WithoutStop,
    InBase(Base),
}

// On a group rule that is broken (14).
#[derive(Clone, Copy)]
pub enum Group {
    UnitsDiffer,
    Below,
    IncrementBase,
    EndBases,
    GoesOn,
    WantsHyphen,
    WantsNone,
    LowerOther,
    UpperOther,
    KeyedEnd,
    EndFraction,
    IncrementZero,
    IncrementFraction,
    IncrementOther,
    BehindIncrement,
    SecondIncrement,
    NoRange,
    OnlyCompound,
    FiveUnits,
    BehindShort,
    BehindUpper,
}

// On what is too long, or one too many (15).
#[derive(Clone, Copy)]
pub enum TooMany {
    Word,
    String,
    Block,
    Place,
    Element,
}

// On arguments and orders that are too many (16).
#[derive(Clone, Copy)]
pub enum Counted {
    Arguments,
    Orders,
}

// On the orders that there are (19).
#[derive(Clone, Copy)]
pub enum Order {
    One,
    Many,
}

// On the places that there are (26).
#[derive(Clone, Copy)]
pub enum Place {
    None,
    One,
    Many,
    Omitted,
}

// On an argument that is asked for (27).
#[derive(Clone, Copy)]
pub enum Argument {
    NotAlone,
    Semicolon,
    TooLong,
}

impl Phrase {
    // Its words.
    pub(crate) fn text(self) -> &'static str {
        match self {
            Phrase::General(reason) => general(reason),
            Phrase::Letter(letter) => letter.text(),
            Phrase::TooLong(long) => long.text(),
            Phrase::Byte(byte) => byte.text(),
            Phrase::Open(open) => open.text(),
            Phrase::Stray(stray) => stray.text(),
            Phrase::End(end) => end.text(),
            Phrase::Behind(behind) => behind.text(),
            Phrase::Code(code) => code.text(),
            Phrase::Kind(kind) => kind.text(),
            Phrase::Name(name) => name.text(),
            Phrase::Shape(shape) => shape.text(),
            Phrase::InBase(base) => base.of_place(),
            Phrase::Misfit(misfit) => misfit.text(),
            Phrase::Digits(base) => base.digits(),
            Phrase::Big(big) => big.text(),
            Phrase::Group(group) => group.text(),
            Phrase::TooMany(many) => many.text(),
            Phrase::Counted(counted) => counted.text(),
            Phrase::Order(order) => order.text(),
            Phrase::Place(place) => place.text(),
            Phrase::Argument(argument) => argument.text(),
            Phrase::List =>
                "the verb list has room for 4,194,304 bytes; the verb orders writes the same orders one at a time",
            Phrase::Record =>
                "a record is what the verb record writes, whole and unchanged, from 0C0004 on",
            Phrase::Key => "BS removes the last byte, and CAN empties the line",
            Phrase::NameTwice =>
                "a block has each name once: join the arguments by &, as in LEV=3&4, or leave one out",
            Phrase::Nothing => NOTHING,
        }
    }
}

// What is said of a refusal whatever the line is.
fn general(reason: Reason) -> &'static str {
    match reason {
        Reason::WrongLetter => "no base letter D, H, O, B or K, or a 33rd letter",
        Reason::TooLong => "the command is longer than 1,024 bytes",
        Reason::NotPermitted => "this byte is not permitted",
        Reason::Unclosed => "this string or comment is not closed",
        Reason::NoToken => "this byte may stand only in strings and comments",
        Reason::NoEnd => "the semicolon that ends the command is missing",
        Reason::AfterEnd => "something stands behind the semicolon",
        Reason::WrongCode => "the code is 1 to 3 identifiers joined by hyphens",
        Reason::KindDiffers => "a named place among unnamed ones, or the other way round",
        Reason::WrongName => "a name is an identifier, then up to 3 more pieces",
        Reason::WrongShape => "a value has units, with a separator between each two",
        Reason::Unreadable => "this is no unit under the base of its place",
        Reason::TooBig => "a number over 4,294,967,295, or over 9 fraction digits",
        Reason::GroupBroken => "a group rule is broken",
        Reason::TooMany => "too long a word or string, or a block, place or element too many",
        Reason::TooManyOrders => "over 4,096 arguments in a value, or over 65,535 orders in all",
        Reason::NoRoom => "the buffer is too short for so many bytes",
        Reason::NotWellFormed => "the record is not well formed",
        Reason::NoSuchOrder => "there are only so many orders, counted from 0",
        Reason::NoKey => "this key is not taken: a line has at most 1,024 bytes",
        Reason::NameTwice => "this name already stands in its block",
        Reason::NoSuchPlace => "there is no such place, or it is omitted",
        Reason::WrongArgument => "the argument is not 1 to 4 units that could stand there",
        // No verb can answer it.
        Reason::WrongRow => NOTHING,
    }
}

impl Letter {
    fn text(self) -> &'static str {
        match self {
            Letter::TooMany => "a list has at most 32 letters, one for each place",
            Letter::Capital => "the base letters are capitals: write $c",
            Letter::Bases => "the bases are D decimal, H hexadecimal, O octal, B binary, K keyed",
        }
    }
}

impl TooLong {
    fn text(self) -> &'static str {
        match self {
            TooLong::Command =>
                "spaces and comments count too: leave some out, or send two commands",
            TooLong::Record => "the record is well formed, but its command would be longer",
        }
    }
}

impl Byte {
    fn text(self) -> &'static str {
        match self {
            Byte::Control =>
                "it is byte $n, a control character, and may not stand in strings either",
            Byte::NotAscii =>
                "it is byte $n, outside ASCII: no accented letter, curly mark or long dash, in strings neither",
        }
    }
}

impl Open {
    fn text(self) -> &'static str {
        match self {
            Open::String =>
                "the string has no closing mark; a mark inside a string is written twice",
            Open::Comment => "the comment has no closing */",
        }
    }
}

impl Stray {
    fn text(self) -> &'static str {
        match self {
            Stray::Underline => "the pieces of a code or a name are joined by - and not by _",
            Stray::NotOpened => "no comment is open here that */ could close",
            Stray::Slash =>
                "outside strings a / stands only in /* and */, which open and close a comment",
            Stray::Other => "a $c may stand only between quotation marks or in /* */",
        }
    }
}

impl End {
    fn text(self) -> &'static str {
        match self {
            End::NoCommand => "there is no command in this line",
            End::Inside => "a ; in a string or a comment does not end the command",
            End::Missing => "put a ; at the end",
        }
    }
}

impl Behind {
    fn text(self) -> &'static str {
        match self {
            Behind::Semicolon => "one ; ends the command, and this is a second",
            Behind::Command => "a line holds one command: put the next one on a line of its own",
        }
    }
}

impl Code {
    fn text(self) -> &'static str {
        match self {
            Code::Missing => "a command begins with its code, as SET-ATT in SET-ATT:LIN=7;",
            Code::PieceMissing => "behind the - a piece of the code is missing",
            Code::Quoted => "a string cannot stand in the code",
            Code::TwoWords => "a comment ends a word, so two words stand side by side",
            Code::FourPieces => "this - begins a fourth piece",
            Code::NotJoined => "behind the code comes a : and its first block, or the ;",
            Code::Pieces => "each piece of the code is a letter, then letters or digits",
        }
    }
}

impl Kind {
    fn text(self) -> &'static str {
        match self {
            Kind::Fraction =>
                "a comma parts two places; a fraction is written with a full stop: $x.$y",
            Kind::Comma => "a comma parts two places; a fraction is written with a full stop",
            Kind::Unnamed => "the first place of this block is named, this one is not: name it too",
            Kind::Omitted => "the first place of this block is named, so none may be empty",
            Kind::Named => "the first place of this block has no name, so none may have one",
            Kind::NamedAfterOmitted =>
                "the first place of this block is empty, so none may have a name",
        }
    }
}

impl Name {
    fn text(self) -> &'static str {
        match self {
            Name::Missing => "the name before the = is missing",
            Name::PieceMissing => "behind the - a piece of the name is missing",
            Name::FirstPiece => "a name begins with a letter, then letters or digits",
            Name::LaterPiece => "a - joins an identifier or an index number to a name, as in LIN-7",
            Name::FivePieces => "this - begins a fifth piece",
            Name::Pieces => "only a - joins the pieces of a name, and the = ends it",
        }
    }
}

impl Shape {
    fn text(self) -> &'static str {
        match self {
            Shape::NoValue => "behind the = a value is missing",
            Shape::SecondEquals => "this is the second = of the place; a comma parts two places",
            Shape::Sign => "a - joins two units and is no sign: no number is below zero",
            Shape::Behind => "behind",
            Shape::Before => "before",
            Shape::AmpAmpDash => "&&-",
            Shape::AmpAmp => "&&",
            Shape::AmpDash => "&-",
            Shape::Amp => "&",
            Shape::PlusPlus => "++",
            Shape::Dash => "-",
            Shape::UnitMissing => "a unit is missing",
            Shape::TwoWords => "a comment ends a word, so two units stand side by side",
            Shape::TwoStrings =>
                "two strings stand side by side; a mark in a string is two marks, nothing between",
            Shape::TwoUnits =>
                "two units stand side by side: join them by & or part them by a comma",
        }
    }
}

impl Base {
    // The base that a letter names.
    pub fn of(letter: u8) -> Option<Base>
        ensures { result ≡ named letter }
    {
        match letter {
            b'D' => Some(Base::Decimal),
            b'H' => Some(Base::Hexadecimal),
            b'O' => Some(Base::Octal),
            b'B' => Some(Base::Binary),
            b'K' => Some(Base::Keyed),
            _ => None,
        }
    }

    // On the place that a unit stands in.
    fn of_place(self) -> &'static str {
        match self {
            Base::Decimal => "place $n has base D (decimal):",
            Base::Hexadecimal => "place $n has base H (hexadecimal):",
            Base::Octal => "place $n has base O (octal):",
            Base::Binary => "place $n has base B (binary):",
            Base::Keyed => "place $n has base K (keyed):",
        }
    }

    // Its digits.
    fn digits(self) -> &'static str {
        match self {
            Base::Decimal => "0 to 9, with one full stop between them if need be",
            Base::Hexadecimal => "0 to 9 and A to F, capital or small",
            Base::Octal => "0 to 7",
            Base::Binary => "0 and 1",
            Base::Keyed => "0 to 9, *, # and A to D, capital or small",
        }
    }

    // On its largest number. No numeral of B or K has so many digits that it passes a limit.
    fn largest(self) -> &'static str {
        match self {
            Base::Decimal =>
                "the largest number is 4,294,967,295; digits to be dialled begin with K'",
            Base::Hexadecimal => "this is read as hexadecimal; the largest number is FFFFFFFF",
            Base::Octal => "this is read as octal; the largest number is 37777777777",
            Base::Binary | Base::Keyed => NOTHING,
        }
    }
}

impl Misfit {
    fn text(self) -> &'static str {
        match self {
            Misfit::MarkInside => "a ' stands only behind D, H, O, B or K at a numeral's start",
            Misfit::UnknownPrefix => "$c' is none of the prefixes D' H' O' B' K'",
            Misfit::KeyedOnly => "only the prefix K' is allowed",
            Misfit::DigitsMissing => "digits are missing behind $c'",
            Misfit::DigitsBehind => "behind $c' the digits are",
            Misfit::Digits => "the digits are",
            Misfit::TwoStops => "a numeral has one full stop at most",
            Misfit::StopBare => "a full stop needs a digit on each side",
            Misfit::StopInName => "a full stop may stand only between decimal digits",
            Misfit::Fraction => "a fraction is decimal and begins with D'",
            Misfit::ShortFraction => "a fraction is decimal and begins with D': D'$x",
            Misfit::KeyedStop => "a full stop may stand only in strings",
            Misfit::Star => "a * is a digit of keyed numerals alone, as in K'*21#",
            Misfit::Keys => "the keyed digits are 0 to 9, *, # and A to D, capital or small",
        }
    }
}

impl Big {
    fn text(self) -> &'static str {
        match self {
            Big::FractionDigits => "the fraction has $n digits; 9 are allowed",
            Big::WithoutStop => "without its full stop the numeral is above 4,294,967,295",
            Big::InBase(base) => base.largest(),
        }
    }
}

impl Group {
    fn text(self) -> &'static str {
        match self {
            Group::UnitsDiffer =>
                "the number of units differs: here it is $n, in the first argument of the value $m",
            Group::Below => "the upper end $x lies below the lower end $y",
            Group::IncrementBase =>
                "the increment has base $c, the ends have base $d; a prefix stands for its own numeral only",
            Group::EndBases =>
                "the lower end has base $c, the upper end has base $d; a prefix stands for its own numeral only",
            Group::GoesOn =>
                "a range cannot go on with another && or &&-; an & begins the next element",
            Group::WantsHyphen =>
                "the range of a compound argument is written with &&-, as in 7-1&&-3",
            Group::WantsNone => "the range of a simple argument is written with &&, as in 1&&3",
            Group::LowerOther => "the lower end is no number",
            Group::UpperOther => "the upper end is no number",
            Group::KeyedEnd => "keyed digits are not counted: list the arguments with &",
            Group::EndFraction => "the ends of a range have no fraction",
            Group::IncrementZero => "the increment is 0; it must be at least 1",
            Group::IncrementFraction => "an increment has no fraction",
            Group::IncrementOther => "the increment is no number",
            Group::BehindIncrement => "an increment is one unit",
            Group::SecondIncrement => "a range has one increment, and this ++ begins a second",
            Group::NoRange =>
                "no range stands before this ++; an increment follows one, as in 5&&9++2",
            Group::OnlyCompound =>
                "&- stands only among compound arguments, and these have one unit: write &",
            Group::FiveUnits => "an argument has at most 4 units, and this - begins a fifth",
            Group::BehindShort => "behind &- stands the last unit alone",
            Group::BehindUpper => "behind && or &&- stands one unit, the last of the upper end",
        }
    }
}

impl TooMany {
    fn text(self) -> &'static str {
        match self {
            TooMany::Word => "a word has at most 32 characters, behind a prefix such as H' too",
            TooMany::String => "a string has at most 80 characters; a doubled mark counts once",
            TooMany::Block => "this : begins a 9th block; a command has at most 8",
            TooMany::Place => "this is the 33rd place; a command has at most 32",
            TooMany::Element => "the 65th element begins here; a value has at most 64",
        }
    }
}

impl Counted {
    fn text(self) -> &'static str {
        match self {
            Counted::Arguments => "this value has $n arguments",
            Counted::Orders => "with this value there are $n orders",
        }
    }
}

impl Order {
    fn text(self) -> &'static str {
        match self {
            Order::One => "there is 1 order, number 0",
            Order::Many => "there are $n orders, 0 to $m",
        }
    }
}

impl Place {
    fn text(self) -> &'static str {
        match self {
            Place::None => "the command has no places",
            Place::One => "there is 1 place, number 0",
            Place::Many => "there are $n places, 0 to $m",
            Place::Omitted => "place $n, counted from 0, is omitted: it has no arguments",
        }
    }
}

impl Argument {
    fn text(self) -> &'static str {
        match self {
            Argument::NotAlone =>
                "one argument alone is asked for, as 7-117: no name, group, range or second place",
            Argument::Semicolon => "the argument is asked for without a ;",
            Argument::TooLong => "an argument has at most 1,021 bytes",
        }
    }
}
