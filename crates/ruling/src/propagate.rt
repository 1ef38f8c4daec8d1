// T and F for all lanes: passes until one adds nothing.
ghost use Rattle.std.specs.Prelude.{◌*◌, ◌≤◌, length};
ghost use Rattle.ruling.specs.Reached.{Advanced, Settled};

use super::assumed::Assumed;
use super::literals::lay;
use super::pass::{Pair, pass};

// One pass over the rules.
fn advance(words: &[u16], rules: usize, n: usize, assumed: &Assumed, pair: Pair) -> Pair
    requires { (8 * rules ≤ length words.now) × (n ≤ 16) }
    ensures { Advanced words.now rules n assumed.now.unknown assumed.now.maybe pair.t pair.f result.t result.f }
{
    let truths = lay(&pair.t, &assumed.unknown, &assumed.maybe);
    let falsities = lay(&pair.f, &assumed.maybe, &assumed.unknown);
    pass(words, rules, n, &truths, &falsities, pair)
}

// T and F from two empty sets: as many passes as there are atoms, twice, or until one adds nothing.
pub fn propagate(words: &[u16], rules: usize, n: usize, assumed: &Assumed) -> Pair
    requires { (8 * rules ≤ length words.now) × (n ≤ 16) }
    ensures { Settled words.now rules n assumed.now.unknown assumed.now.maybe result.t result.f }
{
    let mut pair = Pair {
        t: [0; 16],
        f: [0; 16],
    };
    for i in 0..2 * n {
        let next = advance(words, rules, n, assumed, pair);
        if next == pair {
            return next;
        }
        pair = next;
    }
    pair
}
