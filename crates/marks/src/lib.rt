// Words compared; and marks of the words that were met, so that most of those that were not need no comparison.
#![tactic(auto)]

ghost use Rattle.std.specs.Prelude.{◌≡◌};
ghost use Rattle.laws.specs.Lists.{eq_l};
ghost use Rattle.marks.specs.Marks.{mixed, key_of, no_marks, has_bit, has_both, marked, with_bit, added, added_if};

// Keys are below this.
const KEYS: u64 = 16777216;
// A key has four parts, each below this: which bit of each of four numbers.
const BITS: u32 = 64;
// Where the second half of a key's parts begins.
const HALF: u32 = 4096;
// Lengths are told apart up to this one.
const LENGTHS: usize = 64;
// What counts for how much in a key: the words before,
const SEED: u64 = 355199;
// the length,
const LENGTH: u64 = 473107;
// the first byte,
const FIRST: u64 = 533091;
// the one in the middle,
const MIDDLE: u64 = 407117;
// the last but one,
const BUT_ONE: u64 = 1045713;
// the last.
const LAST: u64 = 844793;

// Marks of the words that were met: for each key a bit in each of the numbers. By default none was met.
#[derive(Clone, Copy, Debug, PartialEq, Eq, Default)]
pub struct Marks {
    pub first: u64,
    pub second: u64,
    pub third: u64,
    pub fourth: u64,
}

// Are the words equal byte for byte?
pub fn same(a: &[u8], b: &[u8]) -> bool
    ensures { result ≡ eq_l a.now b.now }
{
    a == b
}

// The key of a word of so many bytes, four of which are these, behind others whose key is `seed`.
fn mixed(seed: u32, len: usize, first: u8, middle: u8, second: u8, last: u8) -> u32
    ensures { result ≡ mixed seed len first middle second last }
{
    let ends = first as u64 * FIRST + last as u64 * LAST;
    let inner = middle as u64 * MIDDLE + second as u64 * BUT_ONE;
    let before = seed as u64 % KEYS * SEED;
    ((before + (len % LENGTHS) as u64 * LENGTH + ends + inner) % KEYS) as u32
}

// The key of a word behind others whose key is `seed`.
#[tactic(auto, unfolding(crate::specs::Marks::key_of))]
pub fn key(seed: u32, word: &[u8]) -> u32
    ensures { result ≡ key_of seed word.now }
{
    let n = word.len();
    if n == 0 {
        return seed;
    }
    mixed(
        seed,
        n,
        word[0],
        word[(n - 1) / 2],
        word[n.saturating_sub(2)],
        word[n - 1],
    )
}

// Has the number the bit that a part of a key says?
fn has_bit(number: u64, part: u32) -> bool
    ensures { result ≡ has_bit number part }
{
    (number >> (part % BITS)) % 2 == 1
}

// Have two numbers the bits that two parts of a key say?
fn has_both(one: u64, other: u64, parts: u32) -> bool
    ensures { result ≡ has_both one other parts }
{
    has_bit(one, parts) && has_bit(other, parts / BITS)
}

// The number with the bit that a part of a key says.
fn with_bit(number: u64, part: u32) -> u64
    ensures { result ≡ with_bit number part }
{
    number | (1u64 << (part % BITS))
}

impl Marks {
    // No word was met.
    pub fn none() -> Marks
        ensures { result ≡ no_marks }
    {
        Marks::default()
    }

    // May a word of this key have been met?
    #[tactic(auto, unfolding(crate::specs::Marks::marked))]
    pub fn has(self, key: u32) -> bool
        ensures { result ≡ marked self key }
    {
        has_both(self.first, self.second, key) && has_both(self.third, self.fourth, key / HALF)
    }

    // The marks with a key more.
    #[tactic(auto, unfolding(crate::specs::Marks::added))]
    fn with(self, key: u32) -> Marks
        ensures { result ≡ added self key }
    {
        let rest = key / HALF;
        Marks {
            first: with_bit(self.first, key),
            second: with_bit(self.second, key / BITS),
            third: with_bit(self.third, rest),
            fourth: with_bit(self.fourth, rest / BITS),
        }
    }

    // The marks with a key more where it is wanted, and else as they are.
    pub fn with_if(self, wanted: bool, key: u32) -> Marks
        ensures { result ≡ added_if wanted self key }
    {
        if wanted { self.with(key) } else { self }
    }
}
