// By atom, the sets in which a rule supports it: the atom is its only head atom in the set and not among its plain and K atoms; these are in the
// set, and its body holds there but for K and M.
ghost use Rattle.std.specs.Prelude.{◌≡◌, ◌+◌, ◌*◌, ◌≤◌, length};
ghost use Rattle.sets.specs.Sets.{◌∈◌};
ghost use Rattle.semantics.specs.Definitions.Sheet.{most_atoms};
ghost use Rattle.lanes.specs.Lanes.{Lanes};
ghost use Rattle.candidates.specs.Rules.{SupportAdded, SupportsIn, Supported};

use gather::digest::Digest;
use lanes::cube::Patterns;
use sets::{Set, power};

// Adds to the words of the atoms the lanes of word w in which the rule supports them.
fn support_by(patterns: &Patterns, r: Digest, w: u16, by: &mut [u64; 16])
    ensures { SupportAdded r w by.old by.new }
{
    for a in r.head.minus(r.plain).members() {
        let one = power(a as u16);
        let sets = patterns.cube(r.nots | r.head.minus(one), r.body | r.plain | one, w);
        by[a] |= sets;
    }
}

// The same of all rules: each lane in which one of them supports an atom is in the atom's word.
pub fn supported_sets(patterns: &Patterns, digests: &[Digest], w: u16) -> [u64; 16]
    ensures { SupportsIn digests.now (length digests.now) w result }
{
    let mut by = [0u64; 16];
    for &r in digests {
        support_by(patterns, r, w, &mut by);
    }
    by
}

// The lanes, of these, of word w that are in the word of each of their atoms.
pub fn all_supported(patterns: &Patterns, atoms: usize, w: u16, by: &[u64; 16], lanes: u64) -> u64
    requires { atoms ≤ most_atoms }
    ensures { Lanes (λ b. (b ∈ lanes) × Supported by.now atoms (64 * w + b) b) result }
{
    let mut left = lanes;
    for a in 0..atoms {
        let having = patterns.cube(0, power(a as u16), w);
        left = left.minus(having.minus(by[a]));
    }
    left
}
