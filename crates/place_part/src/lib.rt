// The call for a place by its row: 18, 28, 26, and that place's fields as part of the record itself.
#![tactic(auto)]

ghost use Rattle.std.specs.Prelude.{◌<◌, ◌≡◌, length, get_or};
ghost use Rattle.rules.specs.Answers.{Places, HandsBack};

use rules::{Answer, Reason};

// Where the place of that number begins, by the row.
fn start(row: &[u32], number: u32) -> usize
    requires { number < length row.now }
    ensures { result ≡ get_or row.now number 0 }
{
    row[number as usize] as usize
}

// How many bytes the fields of a record's place have, which begin where the row says: 18 if the record is not well formed, 28 with the first slot that is missing or differs, 26 with the
// asked number if there is no such place.
pub fn place(rec: &[u8], row: &[u32], number: u32) -> Answer
    ensures { Places rec.now row.now number result }
{
    let mut none = [0u16; 0];
    let judged = judge::judge(rec, &mut none).ok_or(Reason::NotWellFormed.at(0))?;
    let right = index::agreeing(rec, row);
    if right < judged.places {
        return Err(Reason::WrongRow.at(right as u32));
    }
    if judged.places <= number as usize {
        return Err(Reason::NoSuchPlace.at(number));
    }
    let from = start(row, number);
    Ok((index::place_end(rec, from) - from) as u32)
}

// The fields of a record's place as part of the record; an empty part where the call above refuses.
pub fn part<'a, 'b>(rec: &'a [u8], row: &'b [u32], number: u32) -> &'a [u8]
    ensures { HandsBack rec.entry row.now number result }
{
    let Ok(len) = place(rec, row, number) else {
        return &rec[0..0];
    };
    let from = start(row, number);
    let to = from + len as usize;
    &rec[from..to]
}
