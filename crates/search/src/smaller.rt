// The lanes in which a proper subset of a set is a model of the rules that are on there. `on` has a word a rule, the lanes in which it is on.
ghost use Rattle.std.specs.Prelude.{◌≤◌, length};
ghost use Rattle.sets.specs.Sets.{◌∈◌, ◌⊆◌, ◌∩◌, Meets};
ghost use Rattle.lanes.specs.Lanes.{Lanes};
ghost use Rattle.search.specs.Smaller.{Small};
ghost use Rattle.search.specs.Search.{Chosen};

use lanes::rule::Rule;
use sets::{Set, power};

// An atom of the head that is in `from`, alone.
fn choose(head: u16, from: u16) -> Option<u16>
    ensures { Chosen (head ∩ from) result }
{
    let rest = head & from;
    if rest == 0 {
        return None;
    }
    Some(power(rest.first() as u16))
}

// The lanes, of these, in which some proper subset of i that has every atom of j and no atom of `out` is a model of the rules that are on.
// Where a rule that is on fails in j, an atom of its head is in the subset, or it is not.
pub fn smaller(rules: &[Rule], on: &[u64], i: u16, j: u16, out: u16, lanes: u64) -> u64
    requires { (length rules.now ≤ length on.now) × (j ⊆ i) × (Meets j out → ⊥) }
    ensures { Lanes (λ b. (b ∈ lanes) × Small rules.now on.now (length rules.now) i j out b) result }
{
    if j == i {
        return 0;
    }
    let undecided = i.minus(j | out);
    let mut left = lanes;
    let mut found = 0;
    for r in 0..rules.len() {
        if left == 0 {
            return found;
        }
        let these = left & on[r];
        if these != 0 {
            if rules[r].fails(j) {
                left = left.minus(these);
                if let Some(a) = choose(rules[r].head, undecided) {
                    let with = smaller(rules, on, i, j | a, out, these);
                    let without = smaller(rules, on, i, j, out | a, these.minus(with));
                    found = found | with | without;
                }
            }
        }
    }
    found | left
}
