// The sets of atoms that may be stable for some guess, 64 a word: lane b of word w is the set 64w + b. The others no guess makes stable.
#![tactic(auto)]

pub mod support;

ghost use Rattle.std.specs.Prelude.{◌+◌, ◌*◌, length};
ghost use Rattle.sets.specs.Sets.{◌∈◌};
ghost use Rattle.guess.specs.Programs.{Outlines};
ghost use Rattle.lanes.specs.Lanes.{Lanes};
ghost use Rattle.gather.specs.Digests.{Digested};
ghost use Rattle.candidates.specs.Rules.{NoneFails};
ghost use Rattle.candidates.specs.Candidates.{Candidates};

use gather::digest::Digest;
use guess::outline::Outline;
use lanes::cube::Patterns;
use sets::Set;
use support::{all_supported, supported_sets};

// The lanes, of these, of word w, less those in which a rule without K and M fails: its body holds there, and no head atom is there.
fn objective_models(patterns: &Patterns, digests: &[Digest], w: u16, lanes: u64) -> u64
    ensures { Lanes (λ b. (b ∈ lanes) × NoneFails digests.now (length digests.now) (64 * w + b)) result }
{
    let mut left = lanes;
    for &r in digests {
        if r.barred | r.asked == 0 {
            left = left.minus(patterns.cube(r.nots | r.head, r.body, w));
        }
    }
    left
}

// The lanes of word w that the day's masks allow, less those in which a rule without K and M fails and those with an atom that no rule supports.
pub fn candidates(patterns: &Patterns, words: &[u16], x: Outline, digests: &[Digest], w: u16) -> u64
    requires { Outlines x words.now × Digested x words.now digests.now }
    ensures { Candidates x words.now w result }
{
    let allowed = patterns.cube(x.outs, x.ins, w);
    if allowed == 0 {
        return 0;
    }
    let digests = &digests[..x.rules];
    let models = objective_models(patterns, digests, w, allowed);
    if models == 0 {
        return 0;
    }
    let by = supported_sets(patterns, digests, w);
    all_supported(patterns, x.atoms, w, &by, models)
}
