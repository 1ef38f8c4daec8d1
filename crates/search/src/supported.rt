// The lanes in which each atom of a set has a rule that supports it. In the others the set without some atom is a model of the rules that are on.
ghost use Rattle.std.specs.Prelude.{ℕ, ◌≤◌, length};
ghost use Rattle.sets.specs.Sets.{◌∈◌};
ghost use Rattle.search.specs.Supported.{Supports, Added, SupportedBy, Kept};

use lanes::rule::Rule;
use sets::{Set, power};

// The atoms of i that the rule supports; perhaps others.
fn supports(rule: Rule, i: u16) -> u16
    ensures { (a : ℕ) → a ∈ i → Supports rule i a → a ∈ result }
{
    let head = rule.head & i;
    if head == 0 {
        return i.minus(rule.plain);
    }
    if power(head.first() as u16) == head {
        return head.minus(rule.plain);
    }
    0
}

// Adds the lanes to the words of these atoms.
fn add(by: &mut [u64; 16], atoms: u16, lanes: u64)
    ensures { Added atoms lanes by.old by.new }
{
    for a in atoms.members() {
        by[a] |= lanes;
    }
}

// By atom of i, the lanes in which a rule that supports it is on; perhaps others.
fn support(rules: &[Rule], on: &[u64], i: u16) -> [u64; 16]
    requires { length rules.now ≤ length on.now }
    ensures { SupportedBy rules.now on.now i (length rules.now) result }
{
    let mut by = [0u64; 16];
    for r in 0..rules.len() {
        if on[r] != 0 {
            add(&mut by, supports(rules[r], i), on[r]);
        }
    }
    by
}

// The lanes, of these, in which each atom of i has a rule that is on and supports it; perhaps others too.
pub fn supported(rules: &[Rule], on: &[u64], i: u16, lanes: u64) -> u64
    requires { length rules.now ≤ length on.now }
    ensures { Kept rules.now on.now i (length rules.now) lanes result }
{
    let by = support(rules, on, i);
    let mut left = lanes;
    for a in i.members() {
        left &= by[a];
    }
    left
}
