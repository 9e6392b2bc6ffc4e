// A unit as text under its place's base, a numeral's prefix, digits and full stop; a string between its marks, each mark inside doubled; other characters as
// they are. Each writer is told from where on in the lent buffer, and says where it ends; over `Measure` in place of `Page` it writes nothing.
#![tactic(auto)]

ghost use Rattle.std.specs.Prelude.{◌≡◌, [], ◌∷◌, ◌/◌, ◌^◌, ◌≤◌, ◌<◌, length};
ghost use Rattle.digits.specs.Digits.{whole, fixed};
ghost use Rattle.print_unit.specs.Ways.{Way, Fits, Puts, written, measured};
ghost use Rattle.print_unit.specs.Texts.{prefix_of, part_text, number_text, numeral_text, keyed_text};
ghost use Rattle.print_unit.specs.Strings.{character_text, doubled_at, string_text};
ghost use Rattle.print_unit.specs.Units.{word_text, field_text, Sized, UnitFits, PutUnit};

use record_walk::Tag;

// The mark at both ends of a string.
const MARK: u8 = b'"';

// A decimal numeral's field from its length's low byte on, where it has no fraction digits and a value below 2^24: 6, `D`, 0, 0 as one number.
const SMALL_DECIMAL: u32 = 105119744;

// The decimal digits.
const TEN: u32 = 10;

// Where a text goes. Each writer says where its text ends.
pub trait Sink {
    // How much room there is, and what the lent buffer holds behind a writer.
    ghost way: { Way };

    // Puts one byte.
    fn put_u8(out: &mut [u8], at: usize, b: u8) -> usize
        requires { Fits way (b ∷ []) at out.old }
        ensures { Puts way (b ∷ []) at out.old result out.new };

    // Puts a copy of the content.
    fn put_bytes(out: &mut [u8], at: usize, content: &[u8]) -> usize
        requires { Fits way content.now at out.old }
        ensures { Puts way content.now at out.old result out.new };

    // Puts all digits of n.
    fn put_whole(out: &mut [u8], at: usize, n: u32, base: u32) -> usize
        requires { (2 ≤ base) × (base ≤ 16) × Fits way (whole base n) at out.old }
        ensures { Puts way (whole base n) at out.old result out.new };

    // Puts the last k digits of n.
    fn put_digits(out: &mut [u8], at: usize, k: u8, n: u32, base: u32) -> usize
        requires { (2 ≤ base) × (base ≤ 16) × Fits way (fixed k base n) at out.old }
        ensures { Puts way (fixed k base n) at out.old result out.new };
}

// The text is written into the lent buffer.
pub struct Page;

impl Sink for Page {
    ghost way = { written };

    fn put_u8(out: &mut [u8], at: usize, b: u8) -> usize {
        out[at] = b;
        at + 1
    }

    fn put_bytes(out: &mut [u8], at: usize, content: &[u8]) -> usize {
        fields::put_bytes(&mut out[at..], content);
        at + content.len()
    }

    fn put_whole(out: &mut [u8], at: usize, n: u32, base: u32) -> usize {
        at + digits::put_whole(&mut out[at..], n, base)
    }

    fn put_digits(out: &mut [u8], at: usize, k: u8, n: u32, base: u32) -> usize {
        digits::put_digits(&mut out[at..], k as usize, n, base);
        at + k as usize
    }
}

// The text is measured, and no buffer is touched.
pub struct Measure;

impl Sink for Measure {
    ghost way = { measured };

    fn put_u8(_out: &mut [u8], at: usize, _b: u8) -> usize {
        at + 1
    }

    fn put_bytes(_out: &mut [u8], at: usize, content: &[u8]) -> usize {
        at + content.len()
    }

    fn put_whole(_out: &mut [u8], at: usize, n: u32, base: u32) -> usize {
        at + digits::digit_count(n, base)
    }

    fn put_digits(_out: &mut [u8], at: usize, k: u8, _n: u32, _base: u32) -> usize {
        at + k as usize
    }
}

// The number before the full stop, where k digits stand behind it.
fn before_stop(n: u32, base: u32, k: u8) -> u32
    requires { (2 ≤ base) × (base ≤ 16) × (k ≤ 9) }
    ensures { result ≡ n / base ^ k }
{
    (n as u64 / (base as u64).pow(k as u32)) as u32
}

// Puts digits, the full stop, and k digits.
fn put_part<S: Sink>(out: &mut [u8], at: usize, k: u8, n: u32, base: u32) -> usize
    requires { (2 ≤ base) × (base ≤ 16) × (k ≤ 9) × Fits S.way (part_text k base n) at out.old }
    ensures { Puts S.way (part_text k base n) at out.old result out.new }
{
    let stop = S::put_whole(out, at, before_stop(n, base, k), base);
    let behind = S::put_u8(out, stop, b'.');
    S::put_digits(out, behind, k, n, base)
}

// Puts a numeral's digits, with the full stop if it has fraction digits.
fn put_number<S: Sink>(out: &mut [u8], at: usize, letter: u8, fraction: u8, value: u32) -> usize
    requires { (fraction ≤ 9) × Fits S.way (number_text letter fraction value) at out.old }
    ensures { Puts S.way (number_text letter fraction value) at out.old result out.new }
{
    let base = digits::size(letter) as u32;
    if fraction == 0 {
        return S::put_whole(out, at, value, base);
    }
    put_part::<S>(out, at, fraction, value, base)
}

// Puts the prefix, where the letter is not that of the place's base.
fn put_prefix<S: Sink>(out: &mut [u8], at: usize, base: u8, letter: u8) -> usize
    requires { Fits S.way (prefix_of base letter) at out.old }
    ensures { Puts S.way (prefix_of base letter) at out.old result out.new }
{
    if base == letter {
        return at;
    }
    let mark = S::put_u8(out, at, letter);
    S::put_u8(out, mark, b'\'')
}

// Puts a D, H, O or B numeral as it stands under the place's base.
fn put_numeral_text<S: Sink>(
    out: &mut [u8],
    at: usize,
    base: u8,
    letter: u8,
    fraction: u8,
    value: u32,
) -> usize
    requires { (fraction ≤ 9) × Fits S.way (numeral_text base letter fraction value) at out.old }
    ensures { Puts S.way (numeral_text base letter fraction value) at out.old result out.new }
{
    let p = put_prefix::<S>(out, at, base, letter);
    put_number::<S>(out, p, letter, fraction, value)
}

// Puts a keyed numeral as it stands under the place's base.
fn put_keyed_text<S: Sink>(out: &mut [u8], at: usize, base: u8, content: &[u8]) -> usize
    requires { Fits S.way (keyed_text base content.now) at out.old }
    ensures { Puts S.way (keyed_text base content.now) at out.old result out.new }
{
    let p = put_prefix::<S>(out, at, base, b'K');
    S::put_bytes(out, p, content)
}

// Puts a character of a string, a mark twice.
fn put_character<S: Sink>(out: &mut [u8], at: usize, b: u8) -> usize
    requires { Fits S.way (character_text b) at out.old }
    ensures { Puts S.way (character_text b) at out.old result out.new }
{
    let end = S::put_u8(out, at, b);
    if b == MARK {
        return S::put_u8(out, end, MARK);
    }
    end
}

// Puts the content with its marks doubled.
fn put_doubled<S: Sink>(out: &mut [u8], at: usize, content: &[u8]) -> usize
    requires { Fits S.way (doubled_at content.now 0) at out.old }
    ensures { Puts S.way (doubled_at content.now 0) at out.old result out.new }
{
    let mut at = at;
    for &b in content {
        at = put_character::<S>(out, at, b);
    }
    at
}

// Puts the string between its marks.
fn put_string<S: Sink>(out: &mut [u8], at: usize, content: &[u8]) -> usize
    requires { Fits S.way (string_text content.now) at out.old }
    ensures { Puts S.way (string_text content.now) at out.old result out.new }
{
    let inside = S::put_u8(out, at, MARK);
    let end = put_doubled::<S>(out, inside, content);
    S::put_u8(out, end, MARK)
}

// Puts a numeral without fraction as it stands under the place's base.
pub fn put_whole_text<S: Sink>(out: &mut [u8], at: usize, base: u8, letter: u8, value: u32) -> usize
    requires { Fits S.way (numeral_text base letter 0 value) at out.old }
    ensures { Puts S.way (numeral_text base letter 0 value) at out.old result out.new }
{
    let size = digits::size(letter) as u32;
    let start = put_prefix::<S>(out, at, base, letter);
    S::put_whole(out, start, value, size)
}

// Puts a keyed numeral, an identifier, a symbolic name or a string.
fn put_word<S: Sink>(out: &mut [u8], at: usize, content: &[u8], tag: u8, base: u8) -> usize
    requires { Fits S.way (word_text base tag content.now) at out.old }
    ensures { Puts S.way (word_text base tag content.now) at out.old result out.new }
{
    if tag == Tag::String as u8 {
        return put_string::<S>(out, at, content);
    }
    if tag == Tag::Keyed as u8 {
        return put_keyed_text::<S>(out, at, base, content);
    }
    S::put_bytes(out, at, content)
}

// Puts any unit, its tag deciding.
fn put_any<S: Sink>(out: &mut [u8], at: usize, part: &[u8], base: u8) -> usize
    requires { Sized part.now × Fits S.way (field_text base part.now) at out.old }
    ensures { Puts S.way (field_text base part.now) at out.old result out.new }
{
    if part[0] == Tag::Numeral as u8 {
        return put_numeral_text::<S>(
            out,
            at,
            base,
            part[record_walk::LETTER],
            part[record_walk::FRACTION],
            record_walk::number_at(part, record_walk::VALUE),
        );
    }
    put_word::<S>(out, at, &part[record_walk::HEADER..], part[0], base)
}

// Puts the text of the unit whose field is lent; most are one decimal digit under D. `put_any` is called at two places, so that it stays out of the loops over units.
pub fn put_unit<S: Sink>(out: &mut [u8], at: usize, part: &[u8], base: u8) -> usize
    requires { UnitFits S.way part.now base at out.old }
    ensures { PutUnit S.way part.now base at out.old result out.new }
{
    if base != b'D' {
        return put_any::<S>(out, at, part, base);
    }
    if part[0] == Tag::Numeral as u8 {
        if record_walk::number_at(part, record_walk::LENGTH) == SMALL_DECIMAL {
            let value = record_walk::number_at(part, record_walk::VALUE);
            if value < TEN {
                return S::put_u8(out, at, b'0' + value as u8);
            }
        }
    }
    put_any::<S>(out, at, part, b'D')
}
