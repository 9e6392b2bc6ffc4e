// The exports for C: the calls of the public face under their C names, each with the same clauses. include/mml.h declares them.
#![tactic(auto)]

ghost use Rattle.std.specs.Prelude.{length};
ghost use Rattle.rules.specs.Refusals.{map_r};
ghost use Rattle.rules.specs.Answers.{reading, printing, ordering, counting, listing, locating, reading_row, ordering_row, placing};
ghost use Rattle.mml.specs.Interface.{Packs, PacksRow, PacksNumber, PacksKey};

use rules::Keeper;

// `mml_read` of include/mml.h.
#[unsafe(no_mangle)]
pub extern "C" fn mml_read(text: &[u8], bases: &[u8], out: &mut [u8]) -> u64
    ensures { Packs (reading text.now bases.now out.old) out.old result out.new }
{
    mml::mml_read(text, bases, out)
}

// `mml_print` of include/mml.h.
#[unsafe(no_mangle)]
pub extern "C" fn mml_print(rec: &[u8], out: &mut [u8]) -> u64
    ensures { Packs (printing rec.now out.old) out.old result out.new }
{
    mml::mml_print(rec, out)
}

// `mml_order` of include/mml.h.
#[unsafe(no_mangle)]
pub extern "C" fn mml_order(rec: &[u8], k: u64, out: &mut [u8]) -> u64
    ensures { Packs (ordering rec.now k out.old) out.old result out.new }
{
    mml::mml_order(rec, k, out)
}

// `mml_count` of include/mml.h.
#[unsafe(no_mangle)]
pub extern "C" fn mml_count(rec: &[u8]) -> u64
    ensures { PacksNumber (counting rec.now) result }
{
    mml::mml_count(rec)
}

// `mml_list` of include/mml.h.
#[unsafe(no_mangle)]
pub extern "C" fn mml_list(rec: &[u8], out: &mut [u8]) -> u64
    ensures { Packs (listing rec.now out.old) out.old result out.new }
{
    mml::mml_list(rec, out)
}

// `mml_member` of include/mml.h.
#[unsafe(no_mangle)]
pub extern "C" fn mml_member(rec: &[u8], place: u32, argument: &[u8]) -> u64
    ensures { PacksNumber (locating rec.now place argument.now) result }
{
    mml::mml_member(rec, place, argument)
}

// `mml_read_row` of include/mml.h.
#[unsafe(no_mangle)]
pub extern "C" fn mml_read_row(text: &[u8], bases: &[u8], out: &mut [u8], row: &mut [u32]) -> u64
    ensures { PacksRow (reading_row text.now bases.now out.old row.old) out.old row.old result out.new row.new }
{
    mml::mml_read_row(text, bases, out, row)
}

// `mml_order_row` of include/mml.h.
#[unsafe(no_mangle)]
pub extern "C" fn mml_order_row(rec: &[u8], k: u64, out: &mut [u8], row: &mut [u32]) -> u64
    ensures { PacksRow (ordering_row rec.now k out.old row.old) out.old row.old result out.new row.new }
{
    mml::mml_order_row(rec, k, out, row)
}

// `mml_place` of include/mml.h.
#[unsafe(no_mangle)]
pub extern "C" fn mml_place(rec: &[u8], row: &[u32], number: u32) -> u64
    ensures { PacksNumber (map_r length (placing rec.now row.now number)) result }
{
    mml::mml_place(rec, row, number)
}

// `mml_key` of include/mml.h.
#[unsafe(no_mangle)]
pub extern "C" fn mml_key(keeper: &mut Keeper, key: u8) -> u64
    ensures { PacksKey keeper.old key result keeper.new }
{
    mml::mml_key(keeper, key)
}
