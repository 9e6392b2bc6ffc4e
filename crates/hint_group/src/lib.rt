// Which group rule is broken (14), told from what stands at the place and before it.
#![tactic(auto)]

use hint_around::Around;
use hint_phrases::{Group, Hint, Phrase, plain};
use token_table::Kind;
use units::Word;

// A unit as an end of a range or an increment: why it is no whole number is told, so that an Option would say too little.
#[derive(Clone, Copy)]
enum Number {
    Whole { letter: u8, value: u32 },
    Fraction,
    Keyed,
    Other,
}

// One phrase into which nothing comes.
fn group<'a>(rule: Group) -> Hint<'a> {
    plain(Phrase::Group(rule))
}

// Two bases differ.
fn bases_differ<'a>(rule: Group, letter: u8, other: u8) -> Hint<'a> {
    Hint {
        letters: (letter, other),
        ..group(rule)
    }
}

// The rule that a token breaks.
pub fn why_group<'a>(around: Around<'a>) -> Hint<'a> {
    match around.kind() {
        Some(Kind::Word | Kind::String) => unit(around),
        Some(Kind::Dash) => hyphen(around.kind_before(2)),
        Some(Kind::PlusPlus) => increment_sign(around.kind_before(2)),
        Some(Kind::AmpDash) => group(Group::OnlyCompound),
        Some(Kind::AmpAmp) => range_sign(around, false),
        Some(Kind::AmpAmpDash) => range_sign(around, true),
        _ => plain(Phrase::Nothing),
    }
}

// The rule that a unit breaks, by the separator before it.
fn unit<'a>(around: Around<'a>) -> Hint<'a> {
    match around.kind_before(1) {
        Some(Kind::AmpAmp | Kind::AmpAmpDash) => below(around),
        Some(Kind::Amp) => units_differ(around),
        Some(Kind::PlusPlus) => increment(around),
        _ => plain(Phrase::Nothing),
    }
}

// The upper end lies below the lower, which stands two tokens before it.
fn below<'a>(around: Around<'a>) -> Hint<'a> {
    let lower = match around.at.checked_sub(2) {
        Some(at) => Around { at, ..around }.content(),
        None => b"",
    };
    Hint {
        stretches: (around.content(), lower),
        ..group(Group::Below)
    }
}

// The number of units of the argument that begins with a token differs from that of the value's first one.
fn units_differ<'a>(around: Around) -> Hint<'a> {
    let first = Around {
        at: around.value_start(),
        ..around
    };
    Hint {
        numbers: (units_from(around), units_from(first)),
        ..group(Group::UnitsDiffer)
    }
}

// How many units joined by `-` begin with a token.
fn units_from(around: Around) -> usize {
    let behind = around.toks.iter().skip(around.at).skip(1).step_by(2);
    1 + behind.take_while(|t| t.kind == Kind::Dash).count()
}

// What is wrong with the increment.
fn increment<'a>(around: Around) -> Hint<'a> {
    match as_number(around) {
        Number::Whole { value: 0, .. } => group(Group::IncrementZero),
        Number::Whole { letter, .. } => {
            let ends = letter_before(around, 2);
            if letter == ends {
                return plain(Phrase::Nothing);
            }
            bases_differ(Group::IncrementBase, letter, ends)
        }
        Number::Fraction => group(Group::IncrementFraction),
        Number::Keyed | Number::Other => group(Group::IncrementOther),
    }
}

// The base of the number `back` tokens before a token; 0 where none is there.
fn letter_before(around: Around, back: usize) -> u8 {
    let Some(at) = around.at.checked_sub(back) else {
        return 0;
    };
    match as_number(Around { at, ..around }) {
        Number::Whole { letter, .. } => letter,
        _ => 0,
    }
}

// A token as a number.
fn as_number(around: Around) -> Number {
    if around.kind() != Some(Kind::Word) {
        return Number::Other;
    }
    match units::read_word(around.content(), around.base()) {
        Ok(
            Word::Numeral {
                letter,
                fraction: 0,
                value,
            },
        ) => Number::Whole { letter, value },
        Ok(Word::Numeral { .. }) => Number::Fraction,
        Ok(Word::Keyed { .. }) => Number::Keyed,
        _ => Number::Other,
    }
}

// The rule that a `-` breaks: `before` is the separator before the unit on its left.
fn hyphen<'a>(before: Option<Kind>) -> Hint<'a> {
    match before {
        Some(Kind::AmpAmp | Kind::AmpAmpDash) => group(Group::BehindUpper),
        Some(Kind::AmpDash) => group(Group::BehindShort),
        Some(Kind::PlusPlus) => group(Group::BehindIncrement),
        Some(Kind::Dash) => group(Group::FiveUnits),
        _ => plain(Phrase::Nothing),
    }
}

// The rule that a `++` breaks.
fn increment_sign<'a>(before: Option<Kind>) -> Hint<'a> {
    match before {
        Some(Kind::PlusPlus) => group(Group::SecondIncrement),
        _ => group(Group::NoRange),
    }
}

// The rule that a `&&` breaks, or a `&&-`, which has a hyphen: the argument on its left is compound or simple, by the separator before its
// last unit.
fn range_sign<'a>(around: Around, hyphen: bool) -> Hint<'a> {
    let before = around.kind_before(2);
    let compound = matches!(before, Some(Kind::Dash | Kind::AmpDash));
    match before {
        Some(Kind::AmpAmp | Kind::AmpAmpDash | Kind::PlusPlus) => group(Group::GoesOn),
        _ if hyphen == compound => ends(around),
        _ if compound => group(Group::WantsHyphen),
        _ => group(Group::WantsNone),
    }
}

// What is wrong with the ends around a token.
fn ends<'a>(around: Around) -> Hint<'a> {
    let t = around.at;
    if t == 0 {
        return plain(Phrase::Nothing);
    }
    if around.toks.len() <= t {
        return plain(Phrase::Nothing);
    }
    let upper = as_number(Around {
        at: t + 1,
        ..around
    });
    match as_number(Around {
        at: t - 1,
        ..around
    }) {
        Number::Whole { letter, .. } => upper_end(letter, upper),
        Number::Fraction => group(Group::EndFraction),
        Number::Keyed => group(Group::KeyedEnd),
        Number::Other => group(Group::LowerOther),
    }
}

// What is wrong with the upper end behind a lower one of this base.
fn upper_end<'a>(lower: u8, upper: Number) -> Hint<'a> {
    match upper {
        Number::Whole { letter, .. } if letter == lower => plain(Phrase::Nothing),
        Number::Whole { letter, .. } => bases_differ(Group::EndBases, lower, letter),
        Number::Fraction => group(Group::EndFraction),
        Number::Keyed => group(Group::KeyedEnd),
        Number::Other => group(Group::UpperOther),
    }
}
