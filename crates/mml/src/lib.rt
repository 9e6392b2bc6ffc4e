// The public face: read, print, order, count, list, member, key, and the index of places: read_row, order_row and place, for Rattle and for C.
#![tactic(auto)]

ghost use Rattle.std.specs.Prelude.{◌≡◌, length};
ghost use Rattle.rules.specs.Refusals.{map_r};
ghost use Rattle.rules.specs.Answers.{reading, printing, ordering, counting, listing, locating, reading_row, ordering_row, placing, Reads, Prints, Orders, Counts, Lists, Locates, ReadsRow, OrdersRow, Places, HandsBack};
ghost use Rattle.rules.specs.Keeping.{after_key};
ghost use Rattle.mml.specs.Interface.{packed, Packs, PacksRow, PacksNumber, PacksKey, numbered};

use rules::{Answer, Keeper, Pressed, Refusal};

// The answer's number is multiplied by this; the value or the place stands below it.
const NUMBER: u64 = 4294967296;

// Reads one MML command into a record.
pub fn read(text: &[u8], bases: &[u8], out: &mut [u8]) -> Answer
    ensures { Reads text.now bases.now out.old result out.new }
{
    reader::read(text, bases, out)
}

// Prints a record as a command.
pub fn print(rec: &[u8], out: &mut [u8]) -> Answer
    ensures { Prints rec.now out.old result out.new }
{
    printer::print(rec, out)
}

// Writes order number k of a record.
pub fn order(rec: &[u8], k: u64, out: &mut [u8]) -> Answer
    ensures { Orders rec.now k out.old result out.new }
{
    order::order(rec, k, out)
}

// Counts the orders of a record.
pub fn count(rec: &[u8]) -> Answer
    ensures { Counts rec.now result }
{
    judge::count(rec)
}

// Writes every order of a record, each behind its length.
pub fn list(rec: &[u8], out: &mut [u8]) -> Answer
    ensures { Lists rec.now out.old result out.new }
{
    list::list(rec, out)
}

// Where an argument stands among the arguments of a record's place, if it does.
pub fn member(rec: &[u8], place: u32, argument: &[u8]) -> Answer
    ensures { Locates rec.now place argument.now result }
{
    member::member(rec, place, argument)
}

// Reads one MML command into a record, and the offsets of its places into a row.
pub fn read_row(text: &[u8], bases: &[u8], out: &mut [u8], row: &mut [u32]) -> Answer
    ensures { ReadsRow text.now bases.now out.old row.old result out.new row.new }
{
    reader::read_row(text, bases, out, row)
}

// Writes order number k of a record, and the offsets of its places into a row.
pub fn order_row(rec: &[u8], k: u64, out: &mut [u8], row: &mut [u32]) -> Answer
    ensures { OrdersRow rec.now k out.old row.old result out.new row.new }
{
    order::order_row(rec, k, out, row)
}

// How many bytes the fields of a record's place have, which begin where its row says.
pub fn place(rec: &[u8], row: &[u32], number: u32) -> Answer
    ensures { Places rec.now row.now number result }
{
    place_part::place(rec, row, number)
}

// The fields of a record's place as part of the record itself; an empty part where `place` refuses.
pub fn part<'a, 'b>(rec: &'a [u8], row: &'b [u32], number: u32) -> &'a [u8]
    ensures { HandsBack rec.entry row.now number result }
{
    place_part::part(rec, row, number)
}

// One key to a line keeper.
pub fn key(keeper: Keeper, key: u8) -> Pressed
    ensures { result ≡ after_key keeper key }
{
    keeper::key(keeper, key)
}

// An answer as one number.
fn pack(answer: Answer) -> u64
    ensures { result ≡ packed answer }
{
    match answer {
        Ok(value) => u64::from(value),
        Err(Refusal { reason, place }) => u64::from(reason.number()) * NUMBER + u64::from(place),
    }
}

// `mml_read` of include/mml.h, which `mml_c` exports.
pub fn mml_read(text: &[u8], bases: &[u8], out: &mut [u8]) -> u64
    ensures { Packs (reading text.now bases.now out.old) out.old result out.new }
{
    let reading = read(text, bases, out);
    pack(reading)
}

// `mml_print` of include/mml.h, which `mml_c` exports.
pub fn mml_print(rec: &[u8], out: &mut [u8]) -> u64
    ensures { Packs (printing rec.now out.old) out.old result out.new }
{
    let printing = print(rec, out);
    pack(printing)
}

// `mml_order` of include/mml.h, which `mml_c` exports.
pub fn mml_order(rec: &[u8], k: u64, out: &mut [u8]) -> u64
    ensures { Packs (ordering rec.now k out.old) out.old result out.new }
{
    let ordering = order(rec, k, out);
    pack(ordering)
}

// `mml_count` of include/mml.h, which `mml_c` exports.
pub fn mml_count(rec: &[u8]) -> u64
    ensures { PacksNumber (counting rec.now) result }
{
    let counting = count(rec);
    pack(counting)
}

// `mml_list` of include/mml.h, which `mml_c` exports.
pub fn mml_list(rec: &[u8], out: &mut [u8]) -> u64
    ensures { Packs (listing rec.now out.old) out.old result out.new }
{
    let listing = list(rec, out);
    pack(listing)
}

// `mml_member` of include/mml.h, which `mml_c` exports.
pub fn mml_member(rec: &[u8], place: u32, argument: &[u8]) -> u64
    ensures { PacksNumber (locating rec.now place argument.now) result }
{
    let locating = member(rec, place, argument);
    pack(locating)
}

// `mml_read_row` of include/mml.h, which `mml_c` exports.
pub fn mml_read_row(text: &[u8], bases: &[u8], out: &mut [u8], row: &mut [u32]) -> u64
    ensures { PacksRow (reading_row text.now bases.now out.old row.old) out.old row.old result out.new row.new }
{
    let reading_row = read_row(text, bases, out, row);
    pack(reading_row)
}

// `mml_order_row` of include/mml.h, which `mml_c` exports.
pub fn mml_order_row(rec: &[u8], k: u64, out: &mut [u8], row: &mut [u32]) -> u64
    ensures { PacksRow (ordering_row rec.now k out.old row.old) out.old row.old result out.new row.new }
{
    let ordering_row = order_row(rec, k, out, row);
    pack(ordering_row)
}

// `mml_place` of include/mml.h, which `mml_c` exports.
pub fn mml_place(rec: &[u8], row: &[u32], number: u32) -> u64
    ensures { PacksNumber (map_r length (placing rec.now row.now number)) result }
{
    let placing = place(rec, row, number);
    pack(placing)
}

// A keeper after a key, and the answer as one number.
#[derive(Clone, Copy)]
pub struct Numbered {
    pub keeper: Keeper,
    pub answer: u64,
}

// One key, with the answer as one number.
fn number_key(keeper: Keeper, key: u8) -> Numbered
    ensures { result ≡ numbered keeper key }
{
    let pressed = keeper::key(keeper, key);
    let answer = pressed.answer;
    let number = pack(answer);
    Numbered {
        keeper: pressed.keeper,
        answer: number,
    }
}

// `mml_key` of include/mml.h, which `mml_c` exports.
pub fn mml_key(keeper: &mut Keeper, key: u8) -> u64
    ensures { PacksKey keeper.old key result keeper.new }
{
    let was = *keeper;
    let done = number_key(was, key);
    *keeper = done.keeper;
    done.answer
}
