// A set of atoms is taken into the entries of all numbers for which it is stable, where one number is served by another.
ghost use Rattle.std.specs.Prelude.{◌≡◌, ℕ, ◌+◌, ◌*◌, ◌≤◌, ◌<◌, length};
ghost use Rattle.lanes.specs.Noted.{entry_at};
ghost use Rattle.lanes.specs.Planes.{◌in_plane◌};
ghost use Rattle.search.specs.Shared.{server};
ghost use Rattle.search.specs.Tried.{Tried};

use lanes::cube::Patterns;
use lanes::noted::{Entry, note_word};

// i is stable for the numbers that are served by those of a plane: the active ones of them that lack something it needs leave, and the others
// take it in.
pub fn note_words(
    patterns: &Patterns,
    stable: &[u64],
    parting: usize,
    i: u16,
    needed: u16,
    active: &mut [u64],
    table: &mut [Entry],
)
    requires { (length stable.now ≡ length active.old) × (length active.old ≤ 1024)
        × (64 * length active.old ≤ length table.old) × ((g : ℕ) → g in_plane active.old → (entry_at table.old g).sets < 65535) }
    ensures { Tried (λ g. server parting g in_plane stable.now) i needed active.old table.old active.new table.new }
{
    for w in 0..active.len() {
        note_word(patterns, w, stable[w & parting], i, needed, active, table);
    }
}
