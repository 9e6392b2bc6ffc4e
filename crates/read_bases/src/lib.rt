// The list of base letters: 1, and the base of a place.
#![tactic(auto)]

ghost use Rattle.std.specs.Prelude.{◌≡◌};
ghost use Rattle.laws.specs.Keys.{any_of};
ghost use Rattle.rules.specs.Units.{letter};
ghost use Rattle.rules.specs.Reading.{read_letters};
ghost use Rattle.token_table.specs.Table.{verdict};
ghost use Rattle.read_bases.specs.Bases.{base_letters, base_in};

use rules::{MOST_LETTERS, Reason, Refusal};

// Is this byte the letter of a base?
fn is_letter(b: u8) -> bool
    ensures { result ≡ any_of base_letters b }
{
    matches!(b, b'B' | b'D' | b'H' | b'K' | b'O')
}

// 1: are these base letters, and at most 32?
pub fn letters(bases: &[u8]) -> Result<(), Refusal>
    ensures { result ≡ verdict (read_letters 0 bases.now) }
{
    for (i, letter) in bases.iter().enumerate() {
        if MOST_LETTERS <= i || !is_letter(*letter) {
            return Err(Reason::WrongLetter.at(i as u32));
        }
    }
    Ok(())
}

// The letter of the n-th place's base. D stands past the list's end; so it does for a byte that is no letter.
pub fn base(bases: &[u8], n: usize) -> u8
    ensures { result ≡ letter (base_in bases.now n) }
{
    match bases.get(n) {
        Some(letter) if is_letter(*letter) => *letter,
        _ => b'D',
    }
}
