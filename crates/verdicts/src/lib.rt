// The verdicts on all guesses of a sheet, 64 guesses a word: set after set, for every guess at once.
#![tactic(auto)]

pub mod fill;
pub mod free;

ghost use Rattle.std.specs.Prelude.{◌≡◌, ◌*◌, ◌^◌, ◌≤◌, length};
ghost use Rattle.guess.specs.Programs.{Outlines};
ghost use Rattle.verdicts.specs.Tables.{Tabled};

use fill::fill;
use free::free_guesses;
use guess::outline::Outline;
use lanes::noted::Entry;

// Which guesses are not contradicted; which of these have what each of their belief sets needs; and of such a guess what is known and possible in its belief
// sets and how many they are. `stable` is room to work in.
pub fn judge_all(
    words: &[u16],
    x: Outline,
    free: &mut [u64],
    stable: &mut [u64],
    active: &mut [u64],
    table: &mut [Entry],
)
    requires outlines { Outlines x words.now }
    requires free_len_bound { (length free.old ≤ 64) × (length stable.old ≡ length free.old) × (length active.old ≡ length free.old) × (2 ^ x.negations ≤ 64 * length free.old) × (64 * length free.old ≤ length table.old) }
    ensures { Tabled x words.now free.new active.new table.new }
{
    free_guesses(words, x, free, active);
    fill(words, x, stable, active, table);
}
