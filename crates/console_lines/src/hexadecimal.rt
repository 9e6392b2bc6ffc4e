// Bytes as text in hexadecimal.
ghost use Rattle.std.specs.Prelude.{◌<◌};

use std::fmt;

// How many bytes are written at a time.
const PIECE: usize = 128;

const DIGITS: usize = 2 * PIECE;

// Bytes, written as pairs of capital hexadecimal digits.
#[derive(Clone, Copy)]
pub struct Hex<'a>(pub &'a [u8]);

impl fmt::Display for Hex<'_> {
    fn fmt<W: fmt::Write>(&self, f: &mut fmt::Formatter<W>) -> fmt::Result {
        for piece in self.0.chunks(PIECE) {
            let mut digits = [b'0'; DIGITS];
            for (pair, b) in digits.chunks_exact_mut(2).zip(piece) {
                pair[0] = glyph(*b / 16);
                pair[1] = glyph(*b % 16);
            }
            let n = 2 * piece.len().min(PIECE);
            f.write_str(str::from_utf8(&digits[..n]).map_err(|_| fmt::Error)?)?;
        }
        Ok(())
    }
}

// The capital hexadecimal digit of a value.
fn glyph(digit: u8) -> u8
    requires { digit < 16 }
{
    if digit < 10 {
        b'0' + digit
    } else {
        b'A' - 10 + digit
    }
}
