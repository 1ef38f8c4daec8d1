// A smaller model of rules of heads and plain atoms, of which a set i is a model.
ghost use Rattle.std.specs.Prelude.{◌≡◌, true, false, MatchOption};
ghost use Rattle.semantics.specs.Definitions.Stable.{is_model};
ghost use Rattle.stable.specs.Applied.{positive_program};
ghost use Rattle.stable.specs.Growth.{Grown, TwoHeads};
ghost use Rattle.stable.specs.Smaller.{SmallerIfAny};

use super::growth::{grown, supported};
use super::positive::PositiveRule;
use sets::{Set, highest};

// Is i a model of the rules?
fn is_model(positive: &[PositiveRule], i: u16) -> bool
    ensures { result ≡ is_model (positive_program positive.now) i }
{
    positive.iter().all(|rule| rule.satisfied(i))
}

// The first smaller model among the proper subsets of i that contain what was grown, l, by falling number, if any. It is called only where l is
// no model, so that a rule has two head atoms in i. The rule that failed in the subset before is asked first: it often fails again.
fn search(positive: &[PositiveRule], i: u16, l: u16) -> Option<u16>
    requires i_value { is_model (positive_program positive.now) i ≡ true }
    requires grown { Grown (positive_program positive.now) i l × (is_model (positive_program positive.now) l ≡ false) }
    requires two_heads { TwoHeads (positive_program positive.now) i }
    ensures { SmallerIfAny (positive_program positive.now) i result }
{
    let beyond = i.minus(l);
    let mut found = None;
    let mut last: Option<PositiveRule> = None;
    let mut t = beyond;
    // The scope names this form: labelled nested loops over submasks and rules, which the first smaller model leaves.
    'subsets: while t > 0 {
        t = (t - 1) & beyond;
        let s = l | t;
        if last.is_some_and(|rule| !rule.satisfied(s)) {
            continue 'subsets;
        }
        let mut j = 0;
        'rules: loop {
            if positive.len() <= j {
                found = Some(s);
                break 'subsets;
            }
            if !positive[j].satisfied(s) {
                last = Some(positive[j]);
                break 'rules;
            }
            j += 1;
        }
    }
    found
}

// A smaller model than i, if any. An atom that no rule has as its only head atom in i can be left out. Otherwise what is grown in i decides: all
// of it, or a smaller model; only where a rule has two head atoms in i it may be neither.
pub fn smaller_model(positive: &[PositiveRule], i: u16) -> Option<u16>
    requires { is_model (positive_program positive.now) i ≡ true }
    ensures { SmallerIfAny (positive_program positive.now) i result }
{
    let unsupported = i.minus(supported(positive, i));
    if unsupported != 0 {
        return Some(i.minus(highest(unsupported)));
    }
    let l = grown(positive, i);
    if l == i {
        return None;
    }
    if is_model(positive, l) {
        return Some(l);
    }
    search(positive, i, l)
}
