// A record's own base letters.
ghost use Rattle.std.specs.Prelude.{◌≡◌, ◌+◌, ◌*◌, ◌<◌, ◌++◌, length, get_or, take, drop};
ghost use Rattle.laws.specs.Over.{over};
ghost use Rattle.console_figures.specs.Letters.{letters_for, kept_at};

use record_walk::Tag;

// Puts the base letters of a record's places to the start of `bases`, as many as fit, and answers
// how many.
pub fn own_bases(rec: &[u8], bases: &mut [u8]) -> usize
    ensures { (result ≡ length (letters_for (length bases.old) rec.now)) × (bases.new ≡ over (letters_for (length bases.old) rec.now) bases.old) }
{
    let mut at = 0;
    let mut n = 0;
    // Each field says how many bytes it takes, so no `for` is plainer.
    while at < rec.len() {
        n = keep_base(rec, at, bases, n);
        at += record_walk::HEADER + content_length(rec, at);
    }
    n
}

// Puts the base letter of the field at `at`, if that is a place's, behind the first n, if there is
// room, and answers how many there are then.
fn keep_base(rec: &[u8], at: usize, bases: &mut [u8], n: usize) -> usize
    requires { at < length rec.now }
    ensures { (result ≡ n + length (kept_at (length bases.old) n rec.now at)) × (bases.new ≡ take n bases.old ++ over (kept_at (length bases.old) n rec.now at) (drop n bases.old)) }
{
    if rec[at] != Tag::Place as u8 {
        return n;
    }
    if bases.len() <= n {
        return n;
    }
    bases[n] = byte(rec, at + record_walk::HEADER);
    n + 1
}

// The number of content bytes of the field at `at`.
fn content_length(rec: &[u8], at: usize) -> usize
    requires { at < length rec.now }
    ensures { (result ≡ get_or rec.now (at + 1) 0 * 256 + get_or rec.now (at + 2) 0) × (result < 65536) }
{
    let high = byte(rec, at + 1) as usize;
    let low = byte(rec, at + 2) as usize;
    high * 256 + low
}

// The byte at `at`, or 0 past the end.
fn byte(bytes: &[u8], at: usize) -> u8
    ensures { result ≡ get_or bytes.now at 0 }
{
    bytes.get(at).copied().unwrap_or(0)
}
