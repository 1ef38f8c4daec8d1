// What is grown in a set i from the empty set, by rules of heads and plain atoms (document 02, K6).
ghost use Rattle.std.specs.Prelude.{◌≡◌, ◌&&◌, cond, ◌↔◌, ℕ, leb};
ghost use Rattle.sets.specs.Sets.{◌∈◌, ◌⊆?◌, ◌∩◌, ◌∪◌, size as size_of};
ghost use Rattle.stable.specs.Applied.{positive_program};
ghost use Rattle.stable.specs.Growth.{Grown, Grows, Supported};

use super::positive::PositiveRule;
use sets::{size, subset};

// The atoms of i that are the only head atom in i of some rule.
pub fn supported(positive: &[PositiveRule], i: u16) -> u16
    ensures { (a : ℕ) → a ∈ result ↔ Supported (positive_program positive.now) i a }
{
    let mut set = 0;
    for rule in positive {
        let head = rule.head & i;
        if size(head) <= 1 {
            set = set | head;
        }
    }
    set
}

// The set m, and the head atom of a rule in i, where there is at most one and the plain atoms are in m.
fn enter(rule: PositiveRule, i: u16, m: u16) -> u16
    ensures { result ≡ cond (rule.plain ⊆? m && leb (size_of (rule.head ∩ i)) 1) (m ∪ (rule.head ∩ i)) m }
{
    if subset(rule.plain, m) {
        let entering = rule.head & i;
        if size(entering) <= 1 {
            return m | entering;
        }
    }
    m
}

// One pass over the rules from l. If it adds nothing, nothing more enters.
fn pass(positive: &[PositiveRule], i: u16, l: u16) -> u16
    ensures { Grows (positive_program positive.now) i l result }
{
    let mut m = l;
    for rule in positive {
        m = enter(*rule, i, m);
    }
    m
}

// What is grown in i from the empty set. It ends with a pass that adds nothing, or once all of i is there.
pub fn grown(positive: &[PositiveRule], i: u16) -> u16
    ensures { Grown (positive_program positive.now) i result }
{
    let mut l = 0;
    while l != i {
        let m = pass(positive, i, l);
        if m == l {
            return l;
        }
        l = m;
    }
    l
}
