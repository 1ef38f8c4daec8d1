// What a guess counts as, the six counts, and the records of world views. Here the records, which stand in words, four each: guess, known,
// possible, number of sets.
#![tactic(auto)]

pub mod atoms;
pub mod outcome;

ghost use Rattle.std.specs.Prelude.{◌≡◌, ◌+◌, ◌*◌, ◌≤◌, length};
ghost use Rattle.sets.specs.Lists.{some};
ghost use Rattle.sets.specs.Sets.{◌⊂?◌};
ghost use Rattle.semantics.specs.Definitions.Returned.{written};
ghost use Rattle.semantics.specs.Definitions.Listing.{record_of, words};
ghost use Rattle.records.specs.Records.{view_from, view_in, views_in, LargerFirst};

use sets::{size, subset};

// A world view: its guess, what is known and possible in it, and its number of belief sets.
#[derive(Clone, Copy, Debug, PartialEq, Eq)]
pub struct View {
    pub guess: u16,
    pub known: u16,
    pub possible: u16,
    pub sets: u16,
}

// Writes a record to the front of its own part of a buffer.
pub fn write_record(v: View, part: &mut [u16])
    requires { 4 ≤ length part.old }
    ensures { part.new ≡ written (record_of (view_from v)) part.old }
{
    part[0] = v.guess;
    part[1] = v.known;
    part[2] = v.possible;
    part[3] = v.sets;
}

// The view of record i.
fn view_at(records: &[u16], i: usize) -> View
    requires { 4 * i + 4 ≤ length records.now }
    ensures { view_from result ≡ view_in records.now i }
{
    let at = 4 * i;
    View {
        guess: records[at],
        known: records[at + 1],
        possible: records[at + 2],
        sets: records[at + 3],
    }
}

// Writes the first n records to the front of a buffer, each into its own part; the rest of the buffer keeps its contents.
pub fn write_records(records: &[u16], n: usize, out: &mut [u16])
    requires { (4 * n ≤ length records.now) × (4 * n ≤ length out.old) }
    ensures { out.new ≡ written (words (views_in records.now n)) out.old }
{
    for i in 0..n {
        let v = view_at(records, i);
        write_record(v, &mut out[4 * i..]);
    }
}

// Is the guess a proper subset of the guess of one of the first n records? These stand level by level, the larger guesses first, and only a
// larger one can cover it: its own level ends the search.
pub fn covered_by(records: &[u16], n: usize, guess: u16) -> bool
    requires { (4 * n ≤ length records.now) × LargerFirst records.now n }
    ensures { result ≡ some (λ v. guess ⊂? v.guess) (views_in records.now n) }
{
    let level = size(guess);
    for j in 0..n {
        let other = records[4 * j];
        if subset(guess, other) {
            return level < size(other);
        }
        if size(other) <= level {
            return false;
        }
    }
    false
}
