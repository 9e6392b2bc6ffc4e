// Digits in every base: the classes of bytes, a run of digits read, and digits written straight to their place.
#![tactic(auto)]

ghost use Rattle.std.specs.Prelude.{◌≡◌, ℕ, ◌+◌, ◌<◌, ◌≤◌, length};
ghost use Rattle.laws.specs.Over.{over};
ghost use Rattle.rules.specs.Characters.{capital, is_letter, is_digit, is_alnum, is_symbol_char};
ghost use Rattle.rules.specs.Units.{digit_value, is_key, is_held_key};
ghost use Rattle.rules.specs.Printing.{digit_char};
ghost use Rattle.digits.specs.Digits.{plain_letter, size_at, told, grown, digits_at, whole, fixed};

// How many characters a prefix has: the letter and the mark.
pub const PREFIX: usize = 2;

// The byte ten before A: the digit A counts ten.
const BEFORE_A: u8 = 55;

// How far a small letter stands behind its capital.
const SMALL: u8 = 32;

// The byte ten before the small a: as a digit it counts ten too.
const BEFORE_SMALL_A: u8 = BEFORE_A + SMALL;

// Where a run of digits ends, and its value.
#[derive(Clone, Copy, Debug, PartialEq, Eq)]
pub struct Run {
    pub end: usize,
    pub value: u64,
}

// The classes of bytes are the rules' own, in whose words callers prove: std's `is_ascii_digit` and the like would want a law at each call.

// A letter, A to Z or a to z: without what a small one stands behind its capital, both are capitals.
pub fn is_letter(b: u8) -> bool
    ensures { result ≡ is_letter b }
{
    let capital = b - b / SMALL % 2 * SMALL;
    matches!(capital, b'A'..=b'Z')
}

// The capital of a small letter; any other byte is its own.
pub fn capital_of(b: u8) -> u8
    ensures { result ≡ capital b }
{
    match b {
        b'a'..=b'z' => b - SMALL,
        _ => b,
    }
}

// A decimal digit.
pub fn is_digit(b: u8) -> bool
    ensures { result ≡ is_digit b }
{
    matches!(b, b'0'..=b'9')
}

// A letter or a decimal digit: a character of identifiers.
pub fn is_alnum(b: u8) -> bool
    ensures { result ≡ is_alnum b }
{
    is_letter(b) || is_digit(b)
}

// A character of symbolic names.
pub fn is_sign(b: u8) -> bool
    ensures { result ≡ is_symbol_char b }
{
    is_alnum(b) || matches!(b, b'+' | b'#' | b'%')
}

// A digit of keyed numerals as records hold it: a letter is a capital.
pub fn is_held_key(b: u8) -> bool
    ensures { result ≡ is_held_key b }
{
    is_digit(b) || matches!(b, b'*' | b'#' | b'A'..=b'D')
}

// A digit of keyed numerals as it is typed: a letter may be small.
pub fn is_key(b: u8) -> bool
    ensures { result ≡ is_key b }
{
    is_held_key(capital_of(b))
}

// The letter of a base that has values: D, H, O or B.
#[tactic(auto, unfolding(crate::specs::Digits::plain_letter))]
pub fn plain_letter(letter: u8) -> bool
    ensures { result ≡ plain_letter letter }
{
    matches!(letter, b'D' | b'H' | b'O' | b'B')
}

// How many digits the base of a letter has: those of D for a byte that is no letter of a base.
pub fn size(letter: u8) -> u8
    ensures { result ≡ size_at letter }
{
    match letter {
        b'H' => 16,
        b'O' => 8,
        b'B' => 2,
        _ => 10,
    }
}

// The value of a digit, 0 to 15, if the byte is one; a letter may be small.
fn digit(b: u8) -> Option<u8>
    ensures { told result ≡ digit_value b }
{
    match b {
        b'0'..=b'9' => Some(b - b'0'),
        b'A'..=b'F' => Some(b - BEFORE_A),
        b'a'..=b'f' => Some(b - BEFORE_SMALL_A),
        _ => None,
    }
}

// One digit more behind a value; a value above the limit stays as it is.
#[tactic(auto, unfolding(crate::specs::Digits::grown))]
fn grow(v: u64, base: u8, d: u8) -> u64
    requires { base ≤ 16 }
    ensures { result ≡ grown base v d }
{
    if v <= rules::MOST_VALUE {
        v * base as u64 + d as u64
    } else {
        v
    }
}

// The longest run of digits of a base from `from` on: where it ends, and its value behind digits of value `start`.
pub fn digits(word: &[u8], from: usize, base: u8, start: u64) -> Run
    requires { base ≤ 16 }
    ensures { result ≡ digits_at base word.now from start }
{
    let mut run = Run {
        end: from,
        value: start,
    };
    for i in from..word.len() {
        match digit(word[i]) {
            Some(d) if d < base => {
                run = Run {
                    end: i + 1,
                    value: grow(run.value, base, d),
                };
            }
            _ => return run,
        }
    }
    run
}

// The character of a digit.
fn digit_char(d: u32) -> u8
    requires { d < 16 }
    ensures { result ≡ digit_char d }
{
    if d < 10 {
        b'0' + d as u8
    } else {
        BEFORE_A + d as u8
    }
}

// How many digits n has in a base. The loop divides until one digit is left: no index is counted, so a `while` is plainest.
pub fn digit_count(n: u32, base: u32) -> usize
    requires { (2 ≤ base) × (base ≤ 16) }
    ensures { result ≡ length (whole base n) }
{
    let mut m = n;
    let mut k: usize = 1;
    while m >= base {
        m /= base;
        k += 1;
    }
    k
}

// Writes the last k digits of n, from the last back, each to its place.
pub fn put_digits(out: &mut [u8], k: usize, n: u32, base: u32)
    requires { (2 ≤ base) × (base ≤ 16) × (k ≤ length out.old) }
    ensures { out.new ≡ over (fixed k base n) out.old }
{
    let mut m = n;
    for i in (0..k).rev() {
        out[i] = digit_char(m % base);
        m /= base;
    }
}

// Writes all digits of n; returns how many. Most numbers have one, and that needs no division.
pub fn put_whole(out: &mut [u8], n: u32, base: u32) -> usize
    requires { (2 ≤ base) × (base ≤ 16) × (length (whole base n) ≤ length out.old) }
    ensures { (result ≡ length (whole base n)) × (out.new ≡ over (whole base n) out.old) }
{
    if n < base {
        out[0] = digit_char(n);
        return 1;
    }
    let k = digit_count(n, base);
    put_digits(out, k, n, base);
    k
}
