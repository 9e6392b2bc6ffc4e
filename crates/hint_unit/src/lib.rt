// Why a word is no unit under the base of its place (12), and which limit a numeral passes (13).
#![tactic(auto)]

use hint_phrases::{Base, Big, Hint, Misfit, Phrase, plain};

// A numeral with so many characters, its full stop among them, is within every limit.
const SHORT: usize = 10;

// Why a word is no unit under the base.
pub fn why_unit(word: &[u8], base: Base) -> Hint<'_> {
    if word.contains(&b'\'') {
        return marked(word, base);
    }
    if word.contains(&b'.') {
        return Hint {
            stretches: (word, b""),
            ..misfit(stopped(word, base))
        };
    }
    unmarked(word, base)
}

// A phrase into which nothing comes.
fn misfit<'a>(misfit: Misfit) -> Hint<'a> {
    plain(Phrase::Misfit(misfit))
}

// A phrase with a letter.
fn lettered<'a>(key: Misfit, letter: u8) -> Hint<'a> {
    Hint {
        letters: (letter, 0),
        ..misfit(key)
    }
}

// Why a word without a mark or a full stop is no unit.
fn unmarked<'a>(word: &[u8], base: Base) -> Hint<'a> {
    if word.contains(&b'*') {
        return misfit(if base == Base::Keyed {
            Misfit::Keys
        } else {
            Misfit::Star
        });
    }
    if units::all_decimal(word, 0) {
        return Hint {
            tail: Some(Phrase::Digits(base)),
            ..misfit(Misfit::Digits)
        };
    }
    plain(Phrase::Nothing)
}

// Why a word with a mark is no unit.
fn marked<'a>(word: &[u8], base: Base) -> Hint<'a> {
    match word {
        [typed, b'\'', ..] => prefixed(word.len(), base, *typed),
        _ => misfit(Misfit::MarkInside),
    }
}

// Why a word of so many characters with this prefix is no unit: under K no prefix but K may stand.
fn prefixed<'a>(len: usize, base: Base, typed: u8) -> Hint<'a> {
    let letter = digits::capital_of(typed);
    match Base::of(letter) {
        Some(own) if base != Base::Keyed || own == Base::Keyed => behind_prefix(len, own, letter),
        _ if base == Base::Keyed => lettered(Misfit::KeyedOnly, typed),
        _ => lettered(Misfit::UnknownPrefix, typed),
    }
}

// What is wrong behind a prefix that may stand.
fn behind_prefix<'a>(len: usize, own: Base, letter: u8) -> Hint<'a> {
    if len <= digits::PREFIX {
        return lettered(Misfit::DigitsMissing, letter);
    }
    Hint {
        tail: Some(Phrase::Digits(own)),
        ..lettered(Misfit::DigitsBehind, letter)
    }
}

// Why a word with a full stop is no unit.
fn stopped(word: &[u8], base: Base) -> Misfit {
    if base == Base::Keyed {
        return Misfit::KeyedStop;
    }
    if !word.iter().all(|b| *b == b'.' || digits::is_digit(*b)) {
        return Misfit::StopInName;
    }
    if 1 < word.iter().filter(|b| **b == b'.').count() {
        return Misfit::TwoStops;
    }
    one_stop(word, base)
}

// Why digits with one full stop are no unit: a digit is missing at an end, or the base is not D.
fn one_stop(word: &[u8], base: Base) -> Misfit {
    if base == Base::Decimal || behind_stop(word) == 0 {
        return Misfit::StopBare;
    }
    if word.len() == 0 || word[0] == b'.' {
        return Misfit::StopBare;
    }
    if word.len() <= SHORT {
        Misfit::ShortFraction
    } else {
        Misfit::Fraction
    }
}

// How many characters stand behind the first full stop; 0 without one.
fn behind_stop(word: &[u8]) -> usize {
    match word.iter().position(|b| *b == b'.') {
        Some(stop) => word.len() - stop - 1,
        None => 0,
    }
}

// Which limit a numeral passes under the base.
pub fn why_big<'a>(word: &[u8], base: Base) -> Hint<'a> {
    let fraction = behind_stop(word);
    let big = if rules::MOST_FRACTION < fraction {
        Big::FractionDigits
    } else if 0 < fraction {
        Big::WithoutStop
    } else {
        Big::InBase(own_base(word, base))
    };
    Hint {
        numbers: (fraction, 0),
        ..plain(Phrase::Big(big))
    }
}

// The base of a numeral: its prefix's, whose letter may be small, or that of its place.
fn own_base(word: &[u8], base: Base) -> Base {
    match word {
        [typed, b'\'', ..] => Base::of(digits::capital_of(*typed)).unwrap_or(base),
        _ => base,
    }
}
