// What a guess counts as, and what then is done: the six counts, and the record of a view.
ghost use Rattle.std.specs.Prelude.{◌≡◌, ◌*◌, ◌^◌, ◌≤◌, length};
ghost use Rattle.semantics.specs.Definitions.Check.{most_negations};
ghost use Rattle.semantics.specs.Definitions.Returned.{written};
ghost use Rattle.semantics.specs.Definitions.Listing.{words};
ghost use Rattle.semantics.specs.Definitions.Verdict.{verdict};
ghost use Rattle.semantics.specs.Words.{program_room, program_in};
ghost use Rattle.semantics.specs.Walk.{judged_as, counted_by, views_by};
ghost use Rattle.semantics.specs.Theorems.Tally.{AtMost};
ghost use Rattle.guess.specs.Settings.{setting_by};
ghost use Rattle.guess.specs.Negations.{Few};
ghost use Rattle.records.specs.Outcomes.{tally_from, outcome_from};

use super::{View, write_record};
use answers::Tally;
use guess::outline::Outline;
use verdict::{Verdict, judge};

// What a guess counts as: covered, ruled, or tested and then by its verdict.
#[derive(Clone, Copy, Debug, PartialEq, Eq)]
pub enum Outcome {
    Covered,
    Ruled,
    Empty,
    Other,
    View(View),
}

// The counts with one guess more.
pub fn count(tally: Tally, outcome: Outcome) -> Tally
    requires { AtMost (tally_from tally) (2 ^ most_negations) }
    ensures { tally_from result ≡ counted_by (tally_from tally) (outcome_from outcome) }
{
    let mut t = tally;
    match outcome {
        Outcome::Covered => {
            t.covered += 1;
        }
        Outcome::Ruled => {
            t.ruled += 1;
        }
        Outcome::Empty => {
            t.tested += 1;
            t.empty += 1;
        }
        Outcome::Other => {
            t.tested += 1;
            t.other += 1;
        }
        Outcome::View(_) => {
            t.tested += 1;
            t.views += 1;
        }
    }
    t
}

// The record of a guess that is a view, written to its own part of the records; of another nothing.
pub fn note(outcome: Outcome, part: &mut [u16])
    requires { 4 ≤ length part.old }
    ensures { part.new ≡ written (words (views_by (outcome_from outcome))) part.old }
{
    let Outcome::View(v) = outcome else {
        return;
    };
    write_record(v, &mut part[..]);
}

// What a guess that is tested counts as: by the verdict on its reduct, the first rules of a program.
pub fn judged(program: &[u16], rules: usize, x: Outline, guess: u16) -> Outcome
    requires { (4 * rules ≤ length program.now) × (rules ≤ program_room) × Few x }
    ensures { outcome_from result ≡ judged_as guess (verdict (setting_by x (program_in program.now rules)) guess) }
{
    match judge(program, rules, x, guess) {
        Verdict::Empty => Outcome::Empty,
        Verdict::Other { .. } => Outcome::Other,
        Verdict::Verified {
            known,
            possible,
            sets,
        } => Outcome::View(View {
            guess,
            known,
            possible,
            sets: sets as u16,
        }),
    }
}
