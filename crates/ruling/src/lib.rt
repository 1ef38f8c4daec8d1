// Which guesses are contradicted, 64 a word: lane b of word w is the guess 64w + b.
#![tactic(auto)]

pub mod assumed;
pub mod contradiction;
pub mod literals;
pub mod pass;
pub mod propagate;

ghost use Rattle.std.specs.Prelude.{◌<◌};
ghost use Rattle.guess.specs.Programs.{Outlines};
ghost use Rattle.lanes.specs.Planes.{Word};
ghost use Rattle.ruling.specs.Assumed.{NumbersOf};
ghost use Rattle.ruling.specs.Free.{Free};
ghost use Rattle.ruling.specs.Contradiction.{Tested, RuledOutIn};

use assumed::{Assumed, Numbers, assume};
use contradiction::{clashes, empty_head};
use guess::outline::Outline;
use lanes::cube::Patterns;
use literals::{in_some, lay};
use pass::Pair;
use propagate::propagate;
use sets::{Set, full};

// The lanes in which T and F contradict the guess.
fn test(words: &[u16], x: Outline, assumed: &Assumed, pair: &Pair) -> u64
    requires { Outlines x words.now }
    ensures { Tested x words.now assumed.now.unknown assumed.now.maybe pair.now.t pair.now.f result }
{
    let truths = lay(&pair.t, &assumed.unknown, &assumed.maybe);
    let falsities = lay(&pair.f, &assumed.maybe, &assumed.unknown);
    let rule = empty_head(words, x.rules, &truths, &falsities);
    let in_atom = in_some(x.ins, &pair.f);
    let out_atom = in_some(x.outs, &pair.t);
    let unknown = clashes(x.k_atoms, &assumed.unknown, &pair.t, &pair.f);
    let maybe = clashes(x.m_atoms, &assumed.maybe, &pair.f, &pair.t);
    rule | ((in_atom | out_atom) | (unknown | maybe))
}

// The lanes in which the guess is contradicted.
fn contradicted(words: &[u16], x: Outline, assumed: &Assumed) -> u64
    requires { Outlines x words.now }
    ensures { RuledOutIn x words.now assumed.now.unknown assumed.now.maybe result }
{
    let pair = propagate(words, x.rules, x.atoms, assumed);
    test(words, x, assumed, &pair)
}

// The guesses of word w that are not contradicted, as lanes.
pub fn free_lanes(patterns: &Patterns, words: &[u16], x: Outline, numbers: &Numbers, w: u16) -> u64
    requires { Outlines x words.now × NumbersOf x x.atoms numbers.now × (w < 64) }
    ensures { Word (Free x words.now) w result }
{
    let assumed = Assumed {
        unknown: assume(patterns, &numbers.unknown, w),
        maybe: assume(patterns, &numbers.maybe, w),
    };
    let guesses = patterns.cube(full(15).minus(full(x.negations as u16)), 0, w);
    let bad = contradicted(words, x, &assumed);
    guesses.minus(bad)
}
