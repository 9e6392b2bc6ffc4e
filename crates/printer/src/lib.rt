// The printer: a record to its command's text. Refuses with 18, 2 and 17, in this order, before anything is written.
#![tactic(auto)]

ghost use Rattle.std.specs.Prelude.{◌≡◌, true, ◌≤◌, length};
ghost use Rattle.rules.specs.WellFormed.{well_formed_body};
ghost use Rattle.rules.specs.Answers.{Prints};
ghost use Rattle.print_text.specs.Texts.{text_of};
ghost use Rattle.printer.specs.Given.{Gives};

use rules::{Answer, Reason};

// Behind its head a record of at most so many bytes has a text of at most 1,024: a text has at most seven bytes for each byte there.
const SHORT: usize = 146;

// At most so many bytes the text of a record has that has these bytes behind its head.
fn most_of(rec: &[u8]) -> usize
    requires { well_formed_body rec.now ≡ true }
    ensures { length (text_of rec.now) ≤ result }
{
    if SHORT < rec.len() {
        return print_bound::bound(rec);
    }
    rules::MOST_TEXT
}

// Prints what stands behind the head of a record that is known to be well formed: its text measured, then written.
fn print_measured(rec: &[u8], out: &mut [u8]) -> Answer
    requires { well_formed_body rec.now ≡ true }
    ensures { Gives (text_of rec.now) out.old result out.new }
{
    let needed = print_text::text_len(rec);
    if rules::MOST_TEXT < needed {
        return Err(Reason::TooLong.at(rules::MOST_TEXT as u32));
    }
    if out.len() < needed {
        return Err(Reason::NoRoom.at(needed as u32));
    }
    Ok(print_text::put_text(out, rec) as u32)
}

// Prints what stands behind the head of a record that is known to be well formed: it is written at once where the bound says that it fits, else it is measured first.
fn print_known(rec: &[u8], out: &mut [u8]) -> Answer
    requires { well_formed_body rec.now ≡ true }
    ensures { Gives (text_of rec.now) out.old result out.new }
{
    let most = most_of(rec);
    if most <= rules::MOST_TEXT && most <= out.len() {
        return Ok(print_text::put_text(out, rec) as u32);
    }
    print_measured(rec, out)
}

// Prints a record as a command: judged first, then written from behind its head where its text fits.
pub fn print(rec: &[u8], out: &mut [u8]) -> Answer
    ensures { Prints rec.now out.old result out.new }
{
    let mut none = [0u16; 0];
    judge::judge(rec, &mut none).ok_or(Reason::NotWellFormed.at(0))?;
    print_known(&rec[record_head::HEAD..], out)
}
