// For which numbers the rules are on.
ghost use Rattle.std.specs.Prelude.{◌+◌, ◌*◌, ◌≤◌, length};
ghost use Rattle.sets.specs.Sets.{◌∈◌};
ghost use Rattle.lanes.specs.Lanes.{Lanes};
ghost use Rattle.lanes.specs.Stable.{HeadsMeet, LanesOn};

use super::cube::Patterns;
use super::rule::Rule;
use sets::Set;

// The lanes, of these, of word w in which no rule that is on has an empty head.
pub fn models(patterns: &Patterns, rules: &[Rule], w: u16, lanes: u64) -> u64
    ensures { Lanes (λ b. (b ∈ lanes) × HeadsMeet rules.now (length rules.now) (64 * w + b)) result }
{
    let mut left = lanes;
    for &rule in rules {
        if rule.head == 0 {
            left = left.minus(patterns.cube(rule.misses, rule.holds, w));
        }
    }
    left
}

// For each rule the lanes, of these, of word w in which it is on. They stand beside the rules, which are lent for reading and serve word after word.
pub fn switch_on(patterns: &Patterns, rules: &[Rule], w: u16, lanes: u64, on: &mut [u64])
    requires { length rules.now ≤ length on.old }
    ensures { LanesOn rules.now w lanes (length rules.now) on.new }
{
    for r in 0..rules.len() {
        on[r] = lanes & patterns.cube(rules[r].misses, rules[r].holds, w);
    }
}
