// T and F of a reduct that is held in words, four a rule (`program_in` of semantics/specs/Words.antt), and whether they contradict the guess.
#![tactic(auto)]

ghost use Rattle.std.specs.Prelude.{◌≡◌, ◌↔◌, ℕ, ◌+◌, ◌*◌, ◌^◌, ◌<◌, ◌≤◌, length};
ghost use Rattle.sets.specs.Decides.{Decides};
ghost use Rattle.sets.specs.Sets.{◌∈◌};
ghost use Rattle.semantics.specs.Words.{rule_in, program_in};
ghost use Rattle.semantics.specs.Definitions.Propagation.{sure as sureIn, dead as deadIn, step, contradicted as isContradicted};
ghost use Rattle.semantics.specs.Definitions.Sheet.{most_atoms};
ghost use Rattle.semantics.specs.Theorems.Closure.{LeastClosed};
ghost use Rattle.semantics.specs.Definitions.Day.{day_constraints};
ghost use Rattle.semantics.specs.Theorems.Contradicted.{EmptyHead};
ghost use Rattle.semantics.specs.Theorems.Constraints.{SureConstraint};
ghost use Rattle.guess.specs.Negations.{Few, negations_by};
ghost use Rattle.guess.specs.Settings.{setting_by};
ghost use Rattle.propagation.specs.Pairs.{pair_from, EntersBy, SupportedBy, Clashes};

use guess::negations::found;
use guess::outline::Outline;
use sets::{Set, full, meets, size, subset};

// The sets T and F.
#[derive(Clone, Copy, PartialEq, Eq, Debug)]
pub struct Pair {
    pub t: u16,
    pub f: u16,
}

// The head of rule j.
fn head(program: &[u16], j: usize) -> u16
    requires { 4 * j + 4 ≤ length program.now }
    ensures { result ≡ (rule_in program.now j).head }
{
    program[4 * j]
}

impl Pair {
    // Is rule j sure?
    fn sure(self, program: &[u16], j: usize) -> bool
        requires { 4 * j + 4 ≤ length program.now }
        ensures { result ≡ sureIn (pair_from self) (rule_in program.now j) }
    {
        let at = 4 * j;
        let plain = subset(program[at + 1], self.t);
        let nots = subset(program[at + 2], self.f);
        let not_nots = subset(program[at + 3], self.t);
        plain & not_nots & nots
    }

    // Is rule j dead?
    fn dead(self, program: &[u16], j: usize) -> bool
        requires { 4 * j + 4 ≤ length program.now }
        ensures { result ≡ deadIn (pair_from self) (rule_in program.now j) }
    {
        let at = 4 * j;
        let plain = meets(program[at + 1], self.f);
        let nots = meets(program[at + 2], self.t);
        let not_nots = meets(program[at + 3], self.f);
        plain | not_nots | nots
    }

    // The atoms that enter T by rule j. Of a sure rule these are all head atoms where all are in F, and the one outside F where it is alone.
    fn entering(self, program: &[u16], j: usize) -> u16
        requires { 4 * j + 4 ≤ length program.now }
        ensures { (a : ℕ) → a ∈ result ↔ EntersBy (pair_from self) (rule_in program.now j) a }
    {
        if self.sure(program, j) {
            let all = head(program, j);
            let rest = all.minus(self.f);
            return match size(rest) {
                0 => all,
                1 => rest,
                _ => 0,
            };
        }
        0
    }

    // The atoms that rule j keeps out of F: those of its head, if it is not dead.
    fn supported(self, program: &[u16], j: usize) -> u16
        requires { 4 * j + 4 ≤ length program.now }
        ensures { (a : ℕ) → a ∈ result ↔ SupportedBy (pair_from self) (rule_in program.now j) a }
    {
        if self.dead(program, j) {
            return 0;
        }
        head(program, j)
    }

    // One step of T and F: all that enters by them is added.
    fn stepped(self, program: &[u16], rules: usize, atoms: usize) -> Pair
        requires { (4 * rules ≤ length program.now) × (atoms ≤ most_atoms) }
        ensures { pair_from result ≡ step atoms (program_in program.now rules) (pair_from self) }
    {
        let all = full(atoms as u16);
        let mut t = self.t;
        let mut kept = 0;
        for j in 0..rules {
            t |= self.entering(program, j);
            kept |= self.supported(program, j);
        }
        let f = self.f | all.minus(kept);
        Pair {
            t: t & all,
            f: f & all,
        }
    }
}

// T and F. A step that adds nothing is the last.
pub fn propagated(program: &[u16], rules: usize, atoms: usize) -> Pair
    requires { (4 * rules ≤ length program.now) × (atoms ≤ most_atoms) }
    ensures { LeastClosed atoms (program_in program.now rules) (pair_from result) }
{
    let mut pair = Pair { t: 0, f: 0 };
    for _ in 0..2 * atoms {
        let next = pair.stepped(program, rules, atoms);
        if next == pair {
            return pair;
        }
        pair = next;
    }
    pair
}

// Is some sure rule's head empty?
fn empty_head(program: &[u16], rules: usize, pair: Pair) -> bool
    requires { 4 * rules ≤ length program.now }
    ensures { Decides (EmptyHead (program_in program.now rules) (pair_from pair)) result }
{
    for j in 0..rules {
        let empty = head(program, j) == 0;
        if pair.sure(program, j) & empty {
            return true;
        }
    }
    false
}

// Does some negation clash with T and F? None does where the guess has all of `least`, which are "not K a" with a in F and "M a" with a in
// T, and nothing outside `most`, which are "not K a" with a not in T and "M a" with a not in F.
fn clash(x: Outline, guess: u16, pair: Pair) -> bool
    requires { Few x × (guess < 2 ^ length (negations_by x)) }
    ensures { Decides (Clashes (negations_by x) guess (pair_from pair)) result }
{
    let outside = full(x.atoms as u16).minus(pair.f);
    let least = found(x, outside, pair.t);
    let most = found(x, pair.t, outside);
    let above = subset(least, guess);
    let below = subset(guess, most);
    !(above & below)
}

// Is one of the day's constraints sure? For an in-atom it is when the atom is in F, for an out-atom when it is in T.
fn sure_constraint(ins: u16, outs: u16, pair: Pair) -> bool
    ensures { Decides (SureConstraint (day_constraints ins outs) (pair_from pair)) result }
{
    let missing = meets(ins, pair.f);
    let present = meets(outs, pair.t);
    missing | present
}

// Is the guess contradicted, whose reduct is the first rules of a program, under the day's masks? (T and F never meet: Theorems/Apart.antt.)
pub fn contradicted(program: &[u16], rules: usize, x: Outline, guess: u16) -> bool
    requires { (4 * rules ≤ length program.now) × Few x × (guess < 2 ^ length (negations_by x)) }
    ensures { result ≡ isContradicted (setting_by x (program_in program.now rules)) guess }
{
    let pair = propagated(program, rules, x.atoms);
    let head = empty_head(program, rules, pair);
    let constraint = sure_constraint(x.ins, x.outs, pair);
    let negation = clash(x, guess, pair);
    head | constraint | negation
}
