// The lanes of a word whose guesses assume a negation.
ghost use Rattle.std.specs.Prelude.{◌≡◌};
ghost use Rattle.guess.specs.Negations.{Few};
ghost use Rattle.ruling.specs.Assumed.{NumbersOf, AssumedIn};

use guess::negations::found;
use guess::outline::Outline;
use lanes::cube::Patterns;
use sets::{Set, full, power};

// By atom, the number of "not K a" as a set, and that of "M a"; the empty set where there is none.
#[derive(Clone, Copy, Debug, PartialEq, Eq)]
pub struct Numbers {
    pub unknown: [u16; 16],
    pub maybe: [u16; 16],
}

// By atom, the lanes in which "not K a" is assumed, and those in which "M a" is.
#[derive(Clone, Copy, Debug, PartialEq, Eq)]
pub struct Assumed {
    pub unknown: [u64; 16],
    pub maybe: [u64; 16],
}

// The numbers of all negations.
pub fn number(x: Outline) -> Numbers
    requires { Few x }
    ensures { NumbersOf x x.atoms result }
{
    let all = full(x.atoms as u16);
    let mut unknown = [0u16; 16];
    let mut maybe = [0u16; 16];
    for a in 0..x.atoms {
        let one = power(a as u16);
        unknown[a] = found(x, all.minus(one), 0);
        maybe[a] = found(x, all, one);
    }
    Numbers { unknown, maybe }
}

// By atom, the lanes of word w whose guesses have a number of the set at that place.
pub fn assume(patterns: &Patterns, numbers: &[u16; 16], w: u16) -> [u64; 16]
    ensures { AssumedIn numbers.now w 16 result }
{
    let mut lanes = [0u64; 16];
    for a in 0..16 {
        let left_out = patterns.cube(numbers[a], 0, w);
        lanes[a] = u64::MAX.minus(left_out);
    }
    lanes
}
