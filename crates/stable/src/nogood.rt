// Nogoods: each excludes many sets at once.
ghost use Rattle.std.specs.Prelude.{◌≡◌, false, List, ℕ, ◌+◌, ◌*◌, ◌≤◌, length};
ghost use Rattle.sets.specs.Sets.{◌⊂◌, ◌∪◌, ◌∖◌};
ghost use Rattle.semantics.specs.Definitions.Rules.{Rule};
ghost use Rattle.semantics.specs.Words.{rule_in, program_in};
ghost use Rattle.semantics.specs.Definitions.Day.{allowed};
ghost use Rattle.semantics.specs.Theorems.Stable.{Model};
ghost use Rattle.stable.specs.Applied.{applied};
ghost use Rattle.stable.specs.Nogoods.{Excludes, Blocks, SatisfiedIn};

use sets::{Set, has_and_lacks, highest, meets};

// No set that has every atom of `has` and none of `lacks` is a stable set that the masks allow.
#[derive(Clone, Copy, PartialEq, Eq, Debug)]
pub struct Nogood {
    pub has: u16,
    pub lacks: u16,
}

impl Nogood {
    // Does it exclude i?
    pub fn excludes(self, i: u16) -> bool
        ensures { result ≡ allowed self.has self.lacks i }
    {
        has_and_lacks(i, self.has, self.lacks)
    }
}

// By rule j: it fails in every set that has its plain and "not not" atoms, and no "not" or head atom of it.
pub fn by_rule(program: &[u16], j: usize) -> Nogood
    requires { 4 * j + 4 ≤ length program.now }
    ensures has_value { result.has ≡ (rule_in program.now j).plain ∪ (rule_in program.now j).not_nots }
    ensures lacks_value { result.lacks ≡ (rule_in program.now j).nots ∪ (rule_in program.now j).head }
{
    let at = 4 * j;
    Nogood {
        has: program[at + 1] | program[at + 3],
        lacks: program[at + 2] | program[at],
    }
}

// By the masks, which don't allow i: an in-atom that i lacks, or an out-atom that it has.
pub fn by_masks(ins: u16, outs: u16, i: u16) -> Nogood
    requires { allowed ins outs i ≡ false }
    ensures { (p : List Rule) → Excludes ins outs p result.has result.lacks }
{
    let missing = ins.minus(i);
    if missing != 0 {
        return Nogood {
            has: 0,
            lacks: highest(missing),
        };
    }
    Nogood {
        has: highest(outs & i),
        lacks: 0,
    }
}

// r, and one atom more that blocks rule j: one that it asks for and i lacks, one that it forbids and i has, or a head atom in s. A rule with
// no head atom in i outside s, or with a plain atom there, needs none.
fn block(program: &[u16], j: usize, i: u16, s: u16, r: Nogood) -> Nogood
    requires { (4 * j + 4 ≤ length program.now) × SatisfiedIn i s (rule_in program.now j) }
    ensures { Blocks (rule_in program.now j) (i ∖ s) r.has r.lacks result.has result.lacks }
{
    let at = 4 * j;
    let head = program[at];
    let plain = program[at + 1];
    let u = i.minus(s);
    let inside = meets(plain, u);
    if !meets(head, u) | inside {
        return r;
    }
    let missing = (plain | program[at + 3]).minus(i);
    if missing != 0 {
        return Nogood {
            has: r.has,
            lacks: r.lacks | highest(missing),
        };
    }
    let forbidden = program[at + 2] & i;
    if forbidden != 0 {
        return Nogood {
            has: r.has | highest(forbidden),
            lacks: r.lacks,
        };
    }
    Nogood {
        has: r.has | highest(head & s),
        lacks: r.lacks,
    }
}

// By a model s, smaller than i, of the rules whose bodies hold in i: the atoms that i has beyond s are unfounded in i, and so they are in every
// set that has them and in which each rule is blocked.
pub fn by_smaller(program: &[u16], rules: usize, i: u16, s: u16) -> Nogood
    requires { (4 * rules ≤ length program.now) × (s ⊂ i) × Model (applied i (program_in program.now rules)) s }
    ensures { (ins outs : ℕ) → Excludes ins outs (program_in program.now rules) result.has result.lacks }
{
    let mut r = Nogood {
        has: i.minus(s),
        lacks: 0,
    };
    for j in 0..rules {
        r = block(program, j, i, s, r);
    }
    r
}
