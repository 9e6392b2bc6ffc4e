// A place in a record: its base, the pieces of its name, its value; and pieces of the code, which are judged alike.
#![tactic(auto)]

ghost use Rattle.std.specs.Prelude.{◌≡◌, true, false, ◌≤◌, length, drop};
ghost use Rattle.rules.specs.Commands.{is_index_number};
ghost use Rattle.rules.specs.Records.{place_tag};
ghost use Rattle.record_walk.specs.Tags.{number};
ghost use Rattle.record_walk.specs.Fronts.{head_tag};
ghost use Rattle.judge_place.specs.Places.{may_be_piece, is_tag, is_base, kind_agrees};
ghost use Rattle.judge_place.specs.Judging.{IsPieces, IsName, IsParts, IsPlace};

use record_walk::Tag;

// The most pieces of a name.
const MOST_PIECES: usize = rules::MORE_OF_NAME + 1;

// Pieces: how many, and where the next field begins.
#[derive(Clone, Copy, Debug, PartialEq, Eq)]
pub struct Pieces {
    pub count: usize,
    pub next: usize,
}

// A place: its number of arguments (0: it is omitted), where its value begins, and where the next field begins.
#[derive(Clone, Copy, Debug, PartialEq, Eq)]
pub struct OnePlace {
    pub number: u32,
    pub value: usize,
    pub next: usize,
}

// Whether the word is an index number: decimal digits, and at least one.
fn is_index_number(word: &[u8]) -> bool
    ensures { result ≡ is_index_number word.now }
{
    word.len() != 0 && units::all_decimal(word, 0)
}

// Whether the word may be a piece: an identifier or, where one may stand, an index number.
#[tactic(auto, unfolding(crate::specs::Places::may_be_piece))]
fn is_piece(word: &[u8], index: bool) -> bool
    ensures { result ≡ may_be_piece index word.now }
{
    units::is_identifier(word) || index && is_index_number(word)
}

// Whether the byte is this tag.
fn is_tag(byte: u8, tag: Tag) -> bool
    ensures { result ≡ is_tag (number tag) byte }
{
    byte == tag as u8
}

// The pieces that stand from a position on, fields of one tag: the first an identifier, in a name the later ones also index numbers.
pub fn judge_pieces(rec: &[u8], from: usize, tag: Tag, most: usize, names: bool) -> Option<Pieces>
    requires { from ≤ length rec.now }
    ensures { IsPieces (number tag) names most rec.now from result }
{
    let mut at = from;
    let mut left = most;
    let mut index = false;
    while is_tag(record_walk::head_tag(rec, at), tag) {
        if left == 0 {
            return None;
        }
        let field = record_walk::field_at(rec, at)?;
        if !is_piece(&rec[field.start..field.next], index) {
            return None;
        }
        at = field.next;
        left -= 1;
        index = names;
    }
    Some(Pieces {
        count: most - left,
        next: at,
    })
}

// Whether the byte is a base's letter.
#[tactic(auto, unfolding(crate::specs::Places::is_base))]
fn is_base(letter: u8) -> bool
    ensures { result ≡ is_base letter }
{
    matches!(letter, b'D' | b'H' | b'O' | b'B' | b'K')
}

// The pieces of a place's name: in a block that is not named none is looked for.
fn behind_name(rec: &[u8], from: usize, named: bool) -> Option<Pieces>
    requires { from ≤ length rec.now }
    ensures { IsName named rec.now from result }
{
    if named {
        return judge_pieces(rec, from, Tag::Name, MOST_PIECES, true);
    }
    Some(Pieces {
        count: 0,
        next: from,
    })
}

// Whether a place with so many bytes of a name and so many arguments may stand in its block: a named one has a name and a value.
#[tactic(auto, unfolding(crate::specs::Places::kind_agrees))]
fn kind_agrees(named: bool, name: usize, arguments: u32) -> bool
    ensures { result ≡ kind_agrees named name arguments }
{
    !named || name != 0 && arguments != 0
}

// The name and the value of a place, from behind its field on.
fn judge_parts(rec: &[u8], from: usize, base: u8, named: bool) -> Option<OnePlace>
    requires { from ≤ length rec.now }
    ensures { IsParts named base rec.now from result }
{
    let name = behind_name(rec, from, named)?;
    let value = judge_value::judge_value(rec, name.next, base)?;
    kind_agrees(named, name.next - from, value.number).then_some(OnePlace {
        number: value.number,
        value: name.next,
        next: value.next,
    })
}

// The place that stands at a position.
pub fn judge_place(rec: &[u8], at: usize, named: bool) -> Option<OnePlace>
    requires { head_tag (drop at rec.now) ≡ place_tag }
    ensures { IsPlace named rec.now at result }
{
    let field = record_walk::field_at(rec, at)?;
    let base = rec[field.start];
    if is_base(base) {
        return judge_parts(rec, field.next, base, named);
    }
    None
}
