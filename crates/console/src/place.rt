// The verb `place`: the fields of one place of a command's record. Where they begin is told by the row of offsets that the reader fills.
use console_figures::front;
use console_replies::Reply;
use rules::{MOST_PLACES, Refusal};

// Reads a command and its row, which has a slot for each place that a command can have, and asks for the place by the row.
pub fn serve(bases: &[u8], line: &[u8], place: u32) -> Result<Reply, Refusal> {
    let mut record = io::large_buffer();
    let mut row = [0u32; MOST_PLACES];
    let n = mml::read_row(line, bases, &mut record, &mut row)?;
    let record = front(&record, n as usize);
    mml::place(record, &row, place)?;
    Ok(console_replies::write_part(
        place,
        slot(&row, place as usize),
        mml::part(record, &row, place),
    ))
}

// A slot of the row, or 0 past its end.
fn slot(row: &[u32], i: usize) -> u32 {
    row.get(i).copied().unwrap_or(0)
}
