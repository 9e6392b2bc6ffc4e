// How a hint is written: its phrases, with a blank between two, and what stands for their inserts.
use crate::{Hint, Phrase};
use console_window::Shown;
use std::fmt;

// In a phrase, what stands before the letter of an insert. Inserts are marks in a text: a `write!` for each phrase would be a call for each, and
// no plainer; the edit letter_past_the_end is on the loop that fills them.
const MARK: char = '$';
// The bytes of that letter.
const LETTER: usize = 1;

impl fmt::Display for Hint<'_> {
    fn fmt<W: fmt::Write>(&self, f: &mut fmt::Formatter<W>) -> fmt::Result {
        if let Some(lead) = self.lead {
            self.fill(f, lead)?;
            f.write_str(" ")?;
        }
        self.fill(f, self.phrase)?;
        if let Some(tail) = self.tail {
            f.write_str(" ")?;
            self.fill(f, tail)?;
        }
        Ok(())
    }
}

impl Hint<'_> {
    // Writes a phrase, with what stands for its inserts.
    fn fill<W: fmt::Write>(&self, f: &mut fmt::Formatter<W>, phrase: Phrase) -> fmt::Result {
        let mut parts = phrase.text().split(MARK);
        f.write_str(parts.next().unwrap_or_default())?;
        for part in parts {
            if part.len() < LETTER {
                return Ok(());
            }
            self.insert(f, part.as_bytes()[0])?;
            f.write_str(part.get(LETTER..).unwrap_or_default())?;
        }
        Ok(())
    }

    // Writes what stands for a letter.
    fn insert<W: fmt::Write>(&self, f: &mut fmt::Formatter<W>, letter: u8) -> fmt::Result {
        match letter {
            b'c' => write!(f, "{}", Shown(&[self.letters.0])),
            b'd' => write!(f, "{}", Shown(&[self.letters.1])),
            b'n' => write!(f, "{}", self.numbers.0),
            b'm' => write!(f, "{}", self.numbers.1),
            b'x' => write!(f, "{}", Shown(self.stretches.0)),
            _ => write!(f, "{}", Shown(self.stretches.1)),
        }
    }
}
