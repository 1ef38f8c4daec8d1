// The numbers for which a set of atoms is stable, by a search: `supported` finds where each atom of the set has a rule for it, `smaller` where there is a
// smaller model, and `stable` both; `shared` computes once for several words of numbers. `noted` takes the set into the entries of a table.
#![tactic(auto)]

pub mod noted;
pub mod shared;
pub mod smaller;
pub mod stable;
pub mod supported;

ghost use Rattle.std.specs.Prelude.{◌≡◌, ℕ, ◌+◌, ◌*◌, ◌≤◌, ◌<◌, length};
ghost use Rattle.lanes.specs.Noted.{entry_at};
ghost use Rattle.lanes.specs.Planes.{◌in_plane◌};
ghost use Rattle.lanes.specs.Stable.{StableFor};
ghost use Rattle.search.specs.Tried.{Tried};

use lanes::cube::Patterns;
use lanes::noted::Entry;
use lanes::rule::Rule;
use noted::note_words;
use shared::{relevant, share};
use stable::find_stable;

// Of the active numbers for which i is stable, those that lack something it needs leave, and the others take it in. Words that agree on what
// decides which rules are on share one computation. What `on` and `stable` hold then is left open.
pub fn note_rules(
    patterns: &Patterns,
    rules: &[Rule],
    i: u16,
    needed: u16,
    on: &mut [u64],
    stable: &mut [u64],
    active: &mut [u64],
    table: &mut [Entry],
)
    requires { (length rules.now ≤ length on.old) × (length stable.old ≡ length active.old)
        × (length active.old ≤ 1024) × (64 * length active.old ≤ length table.old)
        × ((g : ℕ) → g in_plane active.old → (entry_at table.old g).sets < 65535) }
    ensures on_len_unchanged { length on.new ≡ length on.old }
    ensures stable_len_unchanged { length stable.new ≡ length stable.old }
    ensures tried { Tried (StableFor rules.now (length rules.now) i) i needed active.old table.old active.new table.new }
{
    let parting = (relevant(rules) / 64) as usize;
    share(active, parting, stable);
    find_stable(patterns, rules, i, on, stable);
    note_words(patterns, stable, parting, i, needed, active, table);
}
