// What a guess counts as, by the verdicts on all guesses.
ghost use Rattle.std.specs.Prelude.{◌≡◌, ◌^◌, ◌<◌};
ghost use Rattle.semantics.specs.Definitions.Pass.{having, verdict_from};
ghost use Rattle.semantics.specs.Walk.{judged_as};
ghost use Rattle.guess.specs.Programs.{setting_in, Outlines};
ghost use Rattle.guess.specs.Negations.{Few, negations_by};
ghost use Rattle.verdicts.specs.Tables.{Tabled};
ghost use Rattle.records.specs.Outcomes.{outcome_from, ExaminedAs};

use guess::negations::found;
use guess::outline::Outline;
use lanes::noted::Entry;
use lanes::plane::holds;
use records::View;
use records::outcome::Outcome;

// The verdicts on all guesses: the plane of those that are not contradicted, the plane of those of them that have what each of their belief sets
// needs, and the entries of these.
#[derive(Clone, Copy)]
pub struct Verdicts<'a> {
    pub free: &'a [u64],
    pub active: &'a [u64],
    pub table: &'a [Entry],
}

// By what is known and possible in its belief sets, and how many they are.
fn by_entry(x: Outline, guess: u16, entry: Entry) -> Outcome
    requires { Few x }
    ensures { outcome_from result ≡ judged_as guess (verdict_from (negations_by x) (having entry.known entry.possible entry.sets 0) guess) }
{
    if entry.sets == 0 {
        return Outcome::Empty;
    }
    if found(x, entry.known, entry.possible) == guess {
        return Outcome::View(View {
            guess,
            known: entry.known,
            possible: entry.possible,
            sets: entry.sets,
        });
    }
    Outcome::Other
}

// A guess that no view met covers: ruled where it is contradicted; other where it lacks what one of its belief sets needs; else by its entry.
pub fn examine(words: &[u16], x: Outline, verdicts: Verdicts, guess: u16) -> Outcome
    requires { Outlines x words.now × (guess < 2 ^ x.negations) × Tabled x words.now verdicts.free.now verdicts.active.now verdicts.table.now }
    ensures { ExaminedAs (setting_in x words.now) guess (outcome_from result) }
{
    let g = guess as usize;
    if !holds(verdicts.free, g) {
        return Outcome::Ruled;
    }
    if !holds(verdicts.active, g) {
        return Outcome::Other;
    }
    let table = verdicts.table;
    by_entry(x, guess, table[g])
}
