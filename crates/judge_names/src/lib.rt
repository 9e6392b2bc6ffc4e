// Whether a place's name stands already among the places of its block that were judged before it.
#![tactic(auto)]

ghost use Rattle.std.specs.Prelude.{◌≡◌, ◌≤◌, length};
ghost use Rattle.rules.specs.Records.{name_tag};
ghost use Rattle.record_walk.specs.Runs.{Whole, RunsTo};
ghost use Rattle.judge_names.specs.Names.{bytes_key, NameAt, StandsIn, Meets, Tells};

use marks::Marks;
use record_walk::Tag;

// The key that no word stands before.
const NO_KEY: u32 = 0;

// Where a place's name begins and ends.
#[derive(Clone, Copy, Debug, PartialEq, Eq)]
struct Spot {
    start: usize,
    end: usize,
}

// Where the name ends that begins there: behind its last piece.
fn name_end(places: &[u8], start: usize) -> usize
    requires { Whole places.now start }
    ensures { RunsTo name_tag name_tag places.now start result }
{
    record_walk::run_end(places, start, Tag::Name as u8, Tag::Name as u8)
}

// Where the name of the place that stands there is: behind the place's field, up to its value.
fn name_at(places: &[u8], at: usize) -> Spot
    requires { Whole places.now at }
    ensures { NameAt places.now at result }
{
    let start = record_walk::after(places, at);
    let end = name_end(places, start);
    Spot { start, end }
}

// Whether one of the places has this name: each of them is walked over.
fn stands(places: &[u8], name: &[u8]) -> bool
    requires { Whole places.now 0 }
    ensures { StandsIn places.now 0 name.now result }
{
    let mut at = 0;
    while at < places.len() {
        let spot = name_at(places, at);
        if name == &places[spot.start..spot.end] {
            return true;
        }
        at = record_walk::run_end(places, spot.end, Tag::Single as u8, Tag::String as u8);
    }
    false
}

// Whether one of the places has the name of this key: where the key isn't marked, none of them is walked over.
fn meets(places: &[u8], name: &[u8], known: Marks, key: u32) -> bool
    requires { Whole places.now 0 × (key ≡ bytes_key name.now) }
    ensures { Meets places.now name.now known result }
{
    known.has(key) && stands(places, name)
}

// The key of the name of these bytes, the fields of its pieces, if it is none of those of the places, which are marked.
pub fn tell(places: &[u8], name: &[u8], known: Marks) -> Option<u32>
    requires { Whole places.now 0 × (3 ≤ length name.now) }
    ensures { Tells places.now name.now known result }
{
    let key = marks::key(NO_KEY, &name[record_walk::HEADER..]);
    (!meets(places, name, known, key)).then_some(key)
}
