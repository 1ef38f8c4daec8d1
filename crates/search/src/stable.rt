// For which numbers a set i is stable, by rules whose heads are cut to i.
ghost use Rattle.std.specs.Prelude.{◌≡◌, ◌+◌, ◌*◌, ◌≤◌, length};
ghost use Rattle.sets.specs.Sets.{◌∈◌};
ghost use Rattle.lanes.specs.Lanes.{Lanes};
ghost use Rattle.lanes.specs.Planes.{◌in_plane◌, Plane};
ghost use Rattle.lanes.specs.Stable.{StableFor};

use super::smaller::smaller;
use super::supported::supported;
use lanes::cube::Patterns;
use lanes::rule::Rule;
use lanes::stable::{models, switch_on};
use sets::Set;

// The lanes, of these, of word w for which i is stable.
pub fn stable_lanes(
    patterns: &Patterns,
    rules: &[Rule],
    i: u16,
    w: u16,
    lanes: u64,
    on: &mut [u64],
) -> u64
    requires { (length rules.now ≤ length on.old) }
    ensures { Lanes (λ b. (b ∈ lanes) × StableFor rules.now (length rules.now) i (64 * w + b)) result }
{
    if lanes == 0 {
        return 0;
    }
    let model = models(patterns, rules, w, lanes);
    if model == 0 {
        return 0;
    }
    switch_on(patterns, rules, w, model, on);
    let left = supported(rules, on, i, model);
    let small = smaller(rules, on, i, 0, 0, left);
    left.minus(small)
}

// Of the numbers of a plane those are left for which i is stable.
pub fn find_stable(patterns: &Patterns, rules: &[Rule], i: u16, on: &mut [u64], plane: &mut [u64])
    requires { (length rules.now ≤ length on.old) × (length plane.old ≤ 1024) }
    ensures on_len_unchanged { length on.new ≡ length on.old }
    ensures plane_len_unchanged { length plane.new ≡ length plane.old }
    ensures plane { Plane (λ g. (g in_plane plane.old) × StableFor rules.now (length rules.now) i g) plane.new }
{
    for w in 0..plane.len() {
        plane[w] = stable_lanes(patterns, rules, i, w as u16, plane[w], on);
    }
}
