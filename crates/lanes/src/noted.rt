// A table with an entry for each number, of the sets that it took in.
ghost use Rattle.std.specs.Prelude.{◌≡◌, ℕ, ◌+◌, ◌*◌, ◌≤◌, ◌<◌, length, get_or};
ghost use Rattle.sets.specs.Sets.{◌∈◌};
ghost use Rattle.lanes.specs.Noted.{entry_at, with_set, Noted, InWord};
ghost use Rattle.lanes.specs.Step.{WordNoted};

use super::cube::Patterns;
use sets::Set;

// The atoms in every set that was taken in, the atoms in some of them, and how many there were.
#[derive(Clone, Copy, PartialEq, Eq, Debug, Default)]
pub struct Entry {
    pub known: u16,
    pub possible: u16,
    pub sets: u16,
}

impl Entry {
    // It takes the set i in.
    fn take_in(&mut self, i: u16)
        requires { self.old.sets < 65535 }
        ensures { self.new ≡ with_set i self.old }
    {
        self.known &= i;
        self.possible |= i;
        self.sets += 1;
    }
}

// The entries of these lanes of word w take the set i in.
pub fn note_lanes(table: &mut [Entry], w: usize, lanes: u64, i: u16)
    requires { (64 * w + 64 ≤ length table.old)
        × ((b : ℕ) → b < 64 → b ∈ lanes → (entry_at table.old (64 * w + b)).sets < 65535) }
    ensures { Noted (InWord w lanes) i table.old table.new }
{
    for b in lanes.members() {
        table[64 * w + b].take_in(i);
    }
}

// i is stable for these lanes of word w: the active ones of them that lack something it needs leave, and the others take it in.
pub fn note_word(
    patterns: &Patterns,
    w: usize,
    stable: u64,
    i: u16,
    needed: u16,
    active: &mut [u64],
    table: &mut [Entry],
)
    requires { (w < length active.old) × (length active.old ≤ 1024) × (64 * length active.old ≤ length table.old)
        × ((b : ℕ) → b < 64 → b ∈ get_or active.old w 0 → (entry_at table.old (64 * w + b)).sets < 65535) }
    ensures { WordNoted w stable i needed active.old table.old active.new table.new }
{
    let old = active[w];
    let these = stable & old;
    if these == 0 {
        return;
    }
    let having = patterns.cube(0, needed, w as u16);
    active[w] = old.minus(these.minus(having));
    note_lanes(table, w, these & having, i);
}
