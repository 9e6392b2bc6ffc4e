// The verb `keys`: each key goes to the library's line keeper, and a line that is ready is answered as by `check`.
use console_lines::Input;
use console_replies::{Failure, Outcome, Reply};
use console_window::Screen;
use console_words::Manner;
use rules::{Answer, Refusal};
use std::fmt;

// The value of the answer to a key that leaves the line not ready.
const NOT_READY: u32 = 0;

// Who presses the keys, and where and how: on a terminal with so many columns, under these bases.
#[derive(Clone, Copy)]
pub struct Terminal<'a> {
    pub rt: HostRuntime,
    pub manner: Manner,
    pub columns: u64,
    pub bases: &'a [u8],
}

impl Terminal<'_> {
    // Takes one key after the other, and answers the worst that came of a key or a line. No input has as many keys as there are turns.
    pub fn serve(self) -> Reply {
        let mut input = Input::new(self.rt.stdin());
        let mut keeper = console_typing::empty();
        let mut last: Answer = Ok(NOT_READY);
        let mut worst = Outcome::Served;
        self.show(b"")?;
        for _ in 0..u64::MAX {
            let Some(key) = console_typing::next_key(self.manner, &mut input)? else {
                let left = self.serve_left(console_typing::line(&keeper), last)?;
                return Ok(console_replies::worse(worst, left));
            };
            let pressed = mml::key(keeper, key);
            keeper = pressed.keeper;
            let outcome = self.tell(console_typing::line(&keeper), last, pressed.answer)?;
            worst = console_replies::worse(worst, outcome);
            last = pressed.answer;
        }
        Err(Failure::Unasked)
    }

    // Tells what became of a key: the line so far, the answer to a line that is ready, or the key's refusal. Of keys that are refused one
    // after the other the first is told of; the answer to the key before was `last`.
    fn tell(self, line: &[u8], last: Answer, answer: Answer) -> Reply {
        match answer {
            Ok(NOT_READY) => {
                self.show(line)?;
                Ok(Outcome::Served)
            }
            Ok(_) => self.serve_ready(line),
            Err(_) if last.is_err() => {
                console_typing::ring(self.manner)?;
                Ok(Outcome::Refused)
            }
            Err(refusal) => self.refuse(line, refusal),
        }
    }

    // Answers a line that is ready, below its row, and asks for the next.
    fn serve_ready(self, line: &[u8]) -> Reply {
        self.show(line)?;
        console_typing::end_row(self.manner)?;
        let reply = crate::verbs::check(self.rt, self.bases, line);
        self.show(b"")?;
        reply
    }

    // Tells of a key that is not taken, below the line's row, and shows the line again.
    fn refuse(self, line: &[u8], refusal: Refusal) -> Reply {
        console_typing::ring(self.manner)?;
        console_typing::end_row(self.manner)?;
        let reply = console_replies::refuse(Screen::OUT, self.bases, line, refusal);
        self.show(line)?;
        reply
    }

    // Shows a line to type on.
    fn show(self, line: &[u8]) -> fmt::Result {
        console_typing::show(self.manner, self.columns, line)
    }

    // What is left when the keys end: a line that is neither ready nor blank is answered as it is.
    fn serve_left(self, line: &[u8], last: Answer) -> Reply {
        console_typing::end_row(self.manner)?;
        let ready = last.is_ok_and(|value| value != NOT_READY);
        if ready || console_typing::is_blank(line) {
            return Ok(Outcome::Served);
        }
        crate::verbs::check(self.rt, self.bases, line)
    }
}
