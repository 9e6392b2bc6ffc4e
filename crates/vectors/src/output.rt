// How all of it is written.
ghost use Rattle.std.specs.Prelude.{IsOk};

use console_lines::Hex;
use console_window::Screen;
use std::fmt;
use std::fmt::Write;

// Standard output. A write that fails is passed over: every line of the input is a question of its own, so whatever came of one write the
// next is tried, and the input is read to its end.
#[derive(Clone, Copy)]
pub struct Out;

impl Out {
    // Writes bytes as they are.
    pub fn write_bytes(self, bytes: &[u8]) -> fmt::Result
        ensures { IsOk result }
    {
        let _ = Screen::OUT.write_bytes(bytes);
        Ok(())
    }

    // Writes bytes in hexadecimal, up to the first piece that fails.
    pub fn write_hex(self, bytes: &[u8]) -> fmt::Result
        ensures { IsOk result }
    {
        let _ = write!(Screen::OUT, "{}", Hex(bytes));
        Ok(())
    }
}

impl fmt::Write for Out {
    fn write_str(&mut self, s: &str) -> fmt::Result
        ensures { IsOk result }
    {
        self.write_bytes(s.as_bytes())
    }
}
