// Why a token does not fit where it stands: behind the command (7), in the code (8), in a block (9), in a name (10), in a value (11). What
// is answered are phrases of the catalogue, or a hint with what comes into one.
#![tactic(auto)]

mod kinds;

use hint_around::Around;
use hint_phrases::{Behind, Code, Hint, Name, Phrase, Shape, plain};
pub use kinds::why_kind;
use token_table::Kind;

// What the token is that stands behind the `;`.
pub fn what_behind(around: Around) -> Behind {
    match around.kind() {
        Some(Kind::Semicolon) => Behind::Semicolon,
        _ => Behind::Command,
    }
}

// Why a token does not fit the code.
pub fn why_code(around: Around) -> Code {
    if around.at == 0 {
        return code_piece(around.kind(), Code::Missing);
    }
    match around.kind_before(1) {
        Some(Kind::Dash) => code_piece(around.kind(), Code::PieceMissing),
        _ => code_joint(around.kind()),
    }
}

// Why a token of this kind is no piece of a code; `missing` where it is none because a separator stands there.
fn code_piece(kind: Option<Kind>, missing: Code) -> Code {
    match kind {
        Some(Kind::String) => Code::Quoted,
        Some(Kind::Word) | None => Code::Pieces,
        Some(_) => missing,
    }
}

// Why a token of this kind cannot follow a piece of the code.
fn code_joint(kind: Option<Kind>) -> Code {
    match kind {
        Some(Kind::Word) => Code::TwoWords,
        Some(Kind::String) => Code::Quoted,
        Some(Kind::Dash) => Code::FourPieces,
        Some(_) => Code::NotJoined,
        None => Code::Pieces,
    }
}

// Why a token does not fit a name.
pub fn why_name(around: Around) -> Name {
    let kind = around.kind();
    if around.place_start() == around.at {
        return match kind {
            Some(Kind::Equals) => Name::Missing,
            _ => Name::FirstPiece,
        };
    }
    match (around.kind_before(1), kind) {
        (Some(Kind::Dash), Some(Kind::Word | Kind::String) | None) => Name::LaterPiece,
        (Some(Kind::Dash), Some(_)) => Name::PieceMissing,
        (_, Some(Kind::Dash)) => Name::FivePieces,
        _ => Name::Pieces,
    }
}

// Why a token does not fit a value.
pub fn why_value<'a>(around: Around) -> Hint<'a> {
    let before = around.kind_before(1);
    match around.kind() {
        Some(Kind::Equals) => shape(Shape::SecondEquals),
        Some(Kind::Word) => second_unit(before, Kind::Word),
        Some(Kind::String) => second_unit(before, Kind::String),
        Some(kind) => separator(before, kind),
        None => plain(Phrase::Nothing),
    }
}

// One phrase on the shape of a value.
fn shape<'a>(shape: Shape) -> Hint<'a> {
    plain(Phrase::Shape(shape))
}

// Why a separator stands where a unit should: `before` is the kind of the token before it. A `-` was meant as a sign, if no separator that
// a comment cut off can have been.
fn separator<'a>(before: Option<Kind>, kind: Kind) -> Hint<'a> {
    match (before, kind) {
        (Some(Kind::AmpAmpDash), _) => missing(Shape::Behind, Shape::AmpAmpDash),
        (Some(Kind::AmpAmp), _) => missing(Shape::Behind, Shape::AmpAmp),
        (Some(Kind::AmpDash), _) => missing(Shape::Behind, Shape::AmpDash),
        (Some(Kind::Amp), _) => missing(Shape::Behind, Shape::Amp),
        (_, Kind::Dash) => shape(Shape::Sign),
        (Some(Kind::PlusPlus), _) => missing(Shape::Behind, Shape::PlusPlus),
        (Some(Kind::Dash), _) => missing(Shape::Behind, Shape::Dash),
        (_, Kind::AmpAmpDash) => missing(Shape::Before, Shape::AmpAmpDash),
        (_, Kind::AmpAmp) => missing(Shape::Before, Shape::AmpAmp),
        (_, Kind::AmpDash) => missing(Shape::Before, Shape::AmpDash),
        (_, Kind::Amp) => missing(Shape::Before, Shape::Amp),
        (_, Kind::PlusPlus) => missing(Shape::Before, Shape::PlusPlus),
        _ => shape(Shape::NoValue),
    }
}

// A unit is missing on this side of a separator.
fn missing<'a>(side: Shape, sign: Shape) -> Hint<'a> {
    Hint {
        lead: Some(Phrase::Shape(side)),
        tail: Some(Phrase::Shape(Shape::UnitMissing)),
        ..shape(sign)
    }
}

// Which units stand side by side.
fn second_unit<'a>(before: Option<Kind>, kind: Kind) -> Hint<'a> {
    match (before, kind) {
        (Some(Kind::Word), Kind::Word) => shape(Shape::TwoWords),
        (Some(Kind::String), Kind::String) => shape(Shape::TwoStrings),
        (Some(Kind::Word | Kind::String) | None, _) => shape(Shape::TwoUnits),
        _ => plain(Phrase::Nothing),
    }
}
