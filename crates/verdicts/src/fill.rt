// The table: an entry for each guess of a plane. Each set of atoms that some guess may make stable is tried once, for all of them.
ghost use Rattle.std.specs.Prelude.{◌≡◌, ℕ, ◌+◌, ◌*◌, ◌^◌, ◌<◌, ◌≤◌, length};
ghost use Rattle.semantics.specs.Definitions.Sheet.{most_atoms};
ghost use Rattle.semantics.specs.AtSet.{need, StableBy};
ghost use Rattle.guess.specs.Programs.{unmasked_in, Outlines};
ghost use Rattle.lanes.specs.Noted.{entry_at};
ghost use Rattle.lanes.specs.Planes.{◌in_plane◌};
ghost use Rattle.search.specs.Tried.{Tried};
ghost use Rattle.gather.specs.Digests.{Digested};
ghost use Rattle.gather.specs.Gathers.{at_set};
ghost use Rattle.verdicts.specs.Tables.{Blank, Filled};

use candidates::candidates;
use gather::digest::{Digest, digest_all};
use gather::gather;
use guess::negations::found;
use guess::outline::Outline;
use lanes::cube::Patterns;
use lanes::noted::Entry;
use lanes::rule::Rule;
use search::note_rules;
use sets::{Set, full, power};

// The entries of the first guesses before any set: every atom known, none possible, no set.
fn clear(table: &mut [Entry], guesses: usize, atoms: usize)
    requires { (guesses ≤ length table.old) × (atoms ≤ most_atoms) }
    ensures table_len_unchanged { length table.new ≡ length table.old }
    ensures blank { Blank guesses atoms table.new }
{
    table[..guesses].fill(Entry {
        known: full(atoms as u16),
        possible: 0,
        sets: 0,
    });
}

// One set more: the active guesses for which it is stable, the day's masks aside, take it in, or leave where they lack something it needs. `room`, `on`
// and `stable` are room to work in.
fn note_set(
    patterns: &Patterns,
    words: &[u16],
    x: Outline,
    digests: &[Digest],
    i: u16,
    room: &mut [Rule],
    on: &mut [u64],
    stable: &mut [u64],
    active: &mut [u64],
    table: &mut [Entry],
)
    requires table { Outlines x words.now × Digested x words.now digests.now × (i < 2 ^ x.atoms) }
    requires rules_in_bounds { (x.rules ≤ length room.old) × (x.rules ≤ length on.old) × (length stable.old ≡ length active.old) × (length active.old ≤ 1024) }
    requires active_in_bounds { (64 * length active.old ≤ length table.old) × ((g : ℕ) → g in_plane active.old → (entry_at table.old g).sets < 65535) }
    ensures room_len_unchanged { (length room.new ≡ length room.old) × (length on.new ≡ length on.old) × (length stable.new ≡ length stable.old) }
    ensures tried { Tried (StableBy (at_set x words.now i) i) i (need (unmasked_in x words.now) i) active.old table.old active.new table.new }
{
    let needed = found(x, i, i);
    let Some(n) = gather(words, x, digests, i, needed, &mut room[..]) else {
        return;
    };
    note_rules(patterns, &room[..n], i, needed, on, stable, active, table);
}

// All candidates, for the guesses of the plane `active`: no guess makes another set stable. `stable` is room to work in.
pub fn fill(words: &[u16], x: Outline, stable: &mut [u64], active: &mut [u64], table: &mut [Entry])
    requires { Outlines x words.now × (length active.old ≤ 64) × (length stable.old ≡ length active.old) × (64 * length active.old ≤ length table.old) }
    ensures stable_len_unchanged { length stable.new ≡ length stable.old }
    ensures active_len_unchanged { (length active.new ≡ length active.old) × (length table.new ≡ length table.old) }
    ensures filled { Filled x words.now active.old active.new table.new }
{
    let patterns = Patterns::new();
    let all = digest_all(words, x);
    let digests = &all[..x.rules];
    clear(&mut table[..], 64 * active.len(), x.atoms);
    // Counted as usize: as u16 the end would be tested by a shift at each set.
    let end = power(x.atoms as u16) as usize;
    let mut room = [Rule::default(); 71];
    let mut on = [0u64; 71];
    let mut sets = 0;
    for i in 0..end {
        if i % 64 == 0 {
            sets = candidates(&patterns, words, x, digests, (i / 64) as u16);
        }
        if sets.has((i % 64) as u64) {
            note_set(
                &patterns,
                words,
                x,
                digests,
                i as u16,
                &mut room[..],
                &mut on[..],
                &mut stable[..],
                &mut active[..],
                &mut table[..],
            );
        }
    }
}
