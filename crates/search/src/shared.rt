// Words of numbers that agree on what decides which rules are on are served by one of them: the word that has of their members those that matter.
ghost use Rattle.std.specs.Prelude.{◌≡◌, length};
ghost use Rattle.search.specs.Shared.{Relevant, SharedUntil};

use lanes::rule::Rule;

// The members that decide for which numbers the rules are on; perhaps others.
pub fn relevant(rules: &[Rule]) -> u16
    ensures { Relevant rules.now (length rules.now) result }
{
    let mut all = 0;
    for &rule in rules {
        all = all | rule.misses | rule.holds;
    }
    all
}

// For each number of the plane `active`, `any` has the one that serves it.
pub fn share(active: &[u64], parting: usize, any: &mut [u64])
    requires { length any.old ≡ length active.now }
    ensures any_len_unchanged { length any.new ≡ length any.old }
    ensures shared_until { SharedUntil parting (length active.now) active.now any.new }
{
    for w in 0..active.len() {
        any[w] = 0;
        let c = w & parting;
        any[c] = any[c] | active[w];
    }
}
