// The verdict on a guess: its belief sets, what is known and possible in them, and the guess that they find.
#![tactic(auto)]

mod pass;

ghost use Rattle.std.specs.Prelude.{◌≡◌, ◌*◌, ◌^◌, ◌≤◌, length, take};
ghost use Rattle.semantics.specs.Words.{program_room, program_in};
ghost use Rattle.semantics.specs.Definitions.Sheet.{most_atoms};
ghost use Rattle.semantics.specs.Definitions.Verdict.{verdict, belief_sets};
ghost use Rattle.semantics.specs.Definitions.Pass.{verdict_from};
ghost use Rattle.guess.specs.Programs.{setting_in, Outlines};
ghost use Rattle.guess.specs.Negations.{Few, negations_by};
ghost use Rattle.guess.specs.Settings.{setting_by};
ghost use Rattle.verdict.specs.Verdicts.{gathered_by, verdict_of};

use guess::negations::found;
use guess::outline::Outline;
use guess::reduct::reduct;
use pass::{Gathered, gather};

// What is said of a guess: no belief set; the guess found, which is another; or what is known, what is possible and the number of belief sets.
#[derive(Clone, Copy, PartialEq, Eq, Debug)]
pub enum Verdict {
    Empty,
    Other {
        found: u16,
    },
    Verified {
        known: u16,
        possible: u16,
        sets: usize,
    },
}

// The verdict, by what is gathered of the belief sets.
fn decide(y: Gathered, x: Outline, guess: u16) -> Verdict
    requires { Few x }
    ensures { verdict_of result ≡ verdict_from (negations_by x) (gathered_by y) guess }
{
    if y.sets == 0 {
        return Verdict::Empty;
    }
    let other = found(x, y.known, y.possible);
    if other == guess {
        return Verdict::Verified {
            known: y.known,
            possible: y.possible,
            sets: y.sets,
        };
    }
    Verdict::Other { found: other }
}

// The verdict on a guess whose reduct is the first rules of a program, under the day's masks. No word is lent for the belief sets.
pub fn judge(program: &[u16], rules: usize, x: Outline, guess: u16) -> Verdict
    requires { (4 * rules ≤ length program.now) × (rules ≤ program_room) × Few x }
    ensures { verdict_of result ≡ verdict (setting_by x (program_in program.now rules)) guess }
{
    let mut none = [0u16; 0];
    let y = gather(program, rules, x.atoms, x.ins, x.outs, &mut none[..]);
    decide(y, x, guess)
}

// The verdict on a guess, of rules in words. The reduct is built once.
pub fn verdict_on(words: &[u16], x: Outline, guess: u16) -> Verdict
    requires { Outlines x words.now }
    ensures { verdict_of result ≡ verdict (setting_in x words.now) guess }
{
    let mut program = [0u16; 284];
    let rules = reduct(words, x, guess, &mut program[..]);
    judge(&program[..], rules, x, guess)
}

// Writes the belief sets of a guess, of rules in words, by rising number, and says how many they are. The reduct is built once.
pub fn belief_sets(words: &[u16], x: Outline, guess: u16, out: &mut [u16]) -> usize
    requires { Outlines x words.now × (2 ^ most_atoms ≤ length out.old) }
    ensures out_len_unchanged { length out.new ≡ length out.old }
    ensures upper_bound { result ≤ length out.old }
    ensures out_after { take result out.new ≡ belief_sets (setting_in x words.now) guess }
{
    let mut program = [0u16; 284];
    let rules = reduct(words, x, guess, &mut program[..]);
    let y = gather(&program[..], rules, x.atoms, x.ins, x.outs, &mut out[..]);
    y.sets
}
