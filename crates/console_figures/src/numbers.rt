// Numbers as text: hexadecimal, and decimal numbers.
ghost use Rattle.std.specs.Prelude.{◌≡◌, ◌<◌, length};
ghost use Rattle.laws.specs.Over.{over};
ghost use Rattle.console_figures.specs.Numbers.{digit_of, digit_at, is_blank, number_of, pairs_of, pair_at};

// The place of a text's first byte that is out of place.
#[derive(Clone, Copy, Debug, PartialEq, Eq)]
pub struct OutOfPlace {
    pub place: usize,
}

// Puts the bytes that `text` has as pairs of hexadecimal digits to the start of `out`, and answers
// how many. White space may stand between pairs. A pair that `out` has no room for is out of place,
// and so is the text's end where a second digit is missing; the bytes of the pairs before are in
// `out` then too.
pub fn decode(text: &[u8], out: &mut [u8]) -> Result<usize, OutOfPlace>
    ensures { (result ≡ (pairs_of (length out.old) text.now).answer) × (out.new ≡ over (pairs_of (length out.old) text.now).bytes out.old) }
{
    let mut at = 0;
    let mut n = 0;
    // A blank takes one byte and a pair two, so no `for` is plainer.
    while at < text.len() {
        if is_blank(text[at]) {
            at += 1;
        } else {
            if out.len() <= n {
                return Err(OutOfPlace { place: at });
            }
            out[n] = pair_at(text, at)?;
            n += 1;
            at += 2;
        }
    }
    Ok(n)
}

// The byte whose two digits stand at `at`.
#[tactic(auto, using(crate::proofs::NumbersLaws::pair_first, crate::proofs::NumbersLaws::pair_second, crate::proofs::NumbersLaws::pair_both, crate::proofs::NumbersLaws::digit_low))]
fn pair_at(text: &[u8], at: usize) -> Result<u8, OutOfPlace>
    requires { at < length text.now }
    ensures { result ≡ pair_at text.now at }
{
    let high = digit_at(text, at)?;
    let low = digit_at(text, at + 1)?;
    Ok(high * 16 + low)
}

// The value of the digit at `at`.
#[tactic(auto, using(crate::proofs::NumbersLaws::at_past, crate::proofs::NumbersLaws::at_digit, crate::proofs::NumbersLaws::at_none))]
fn digit_at(text: &[u8], at: usize) -> Result<u8, OutOfPlace>
    ensures { result ≡ digit_at text.now at }
{
    if at < text.len() {
        return hex_value(text[at]).ok_or(OutOfPlace { place: at });
    }
    Err(OutOfPlace { place: at })
}

// Whether a byte may stand between pairs.
#[tactic(auto, using(crate::proofs::NumbersLaws::blank_in, crate::proofs::NumbersLaws::blank_space, crate::proofs::NumbersLaws::blank_below, crate::proofs::NumbersLaws::blank_above))]
fn is_blank(b: u8) -> bool
    ensures { result ≡ is_blank b }
{
    matches!(b, b'\t'..=b'\r' | b' ')
}

// The value of a hexadecimal digit.
fn hex_value(b: u8) -> Option<u8>
    ensures { result ≡ digit_of b }
{
    match b {
        b'0'..=b'9' => Some(b - b'0'),
        b'A'..=b'F' => Some(b - b'A' + 10),
        b'a'..=b'f' => Some(b - b'a' + 10),
        _ => None,
    }
}

// The number that `text` writes in one or more decimal digits; zeros may lead. There is none where
// it is empty, has another byte than a digit, or is above 64 bits.
#[tactic(auto, using(crate::proofs::NumbersLaws::number_none, crate::proofs::NumbersLaws::number_start, crate::proofs::NumbersLaws::number_end, crate::proofs::NumbersLaws::number_other, crate::proofs::NumbersLaws::number_stop, crate::proofs::NumbersLaws::number_big, crate::proofs::NumbersLaws::number_more))]
pub fn decimal(text: &[u8]) -> Option<u64>
    ensures { result ≡ number_of text.now }
{
    if text.is_empty() {
        return None;
    }
    let mut value: u64 = 0;
    for b in text {
        let digit = hex_value(*b)? as u64;
        if 9 < digit {
            return None;
        }
        if (u64::MAX - digit) / 10 < value {
            return None;
        }
        value = value * 10 + digit;
    }
    Some(value)
}
