// The reduct of a guess, in words, four a rule.
ghost use Rattle.std.specs.Prelude.{◌≡◌, ◌+◌, ◌*◌, ◌<◌, ◌≤◌, length, IfSome};
ghost use Rattle.semantics.specs.Words.{program_room, masks_in, program_in};
ghost use Rattle.guess.specs.Programs.{unmasked_in, Outlines};
ghost use Rattle.guess.specs.Acted.{acted_on, Reduced};

use super::negations::{Assumptions, assumed};
use super::outline::Outline;
use sets::{Set, meets};

// What is done to mask i of a rule: its literals, or those that are not removed, join one of the four masks of the reduct; or the rule is
// deleted. Masks 0 to 3 stay; masks 4 to 7 are acted on by the guess.
#[tactic(auto, unfolding(crate::specs::Acted::acted_on))]
fn act(i: usize, mask: u16, by: Assumptions) -> Option<(usize, u16)>
    requires { i < 8 }
    ensures value { result ≡ acted_on by.unknown by.maybe i mask }
    ensures one_of_four { IfSome result (λ joined. joined.0 < 4) }
{
    // by number, as document 01 numbers the masks of a sheet
    match i {
        0..=3 => Some((i, mask)),
        4 if meets(mask, by.unknown) => None,
        4 => Some((1, mask)),
        5 => Some((2, mask.minus(by.unknown))),
        6 => Some((3, mask.minus(by.maybe))),
        _ if meets(mask, by.maybe) => None,
        _ => Some((2, mask)),
    }
}

// What rule j of the words becomes in the reduct: its head, plain, "not" and "not not" atoms; none where it is deleted.
fn reduce(words: &[u16], j: usize, by: Assumptions) -> Option<[u16; 4]>
    requires { 8 * j + 8 ≤ length words.now }
    ensures { Reduced by.unknown by.maybe (masks_in words.now j) result }
{
    let mut rule = [0u16; 4];
    for i in 0..8 {
        let (to, mask) = act(i, words[8 * j + i], by)?;
        rule[to] |= mask;
    }
    Some(rule)
}

// Writes the reduct of a guess, and says how many rules it has. The rules that are deleted are left out; the day's constraints are not
// written.
pub fn reduct(words: &[u16], x: Outline, guess: u16, out: &mut [u16]) -> usize
    requires { Outlines x words.now × (4 * program_room ≤ length out.old) }
    ensures out_len_unchanged { length out.new ≡ length out.old }
    ensures upper_bound { result ≤ program_room }
    ensures result_after { program_in out.new result ≡ (unmasked_in x words.now).program guess }
{
    let by = assumed(x, guess);
    let mut n = 0;
    for j in 0..x.rules {
        if let Some(rule) = reduce(words, j, by) {
            out[4 * n..4 * n + 4].copy_from_slice(&rule);
            n += 1;
        }
    }
    n
}
