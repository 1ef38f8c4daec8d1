// What contradicts a guess, of T and F, for all lanes.
ghost use Rattle.std.specs.Prelude.{◌*◌, ◌≤◌, length};
ghost use Rattle.lanes.specs.Lanes.{Lanes};
ghost use Rattle.ruling.specs.Contradiction.{EmptyHeadIn, ClashIn};

use super::literals::{Rows, sure};
use sets::Set;

// The lanes in which a rule with an empty head is sure.
pub fn empty_head(words: &[u16], rules: usize, truths: &Rows, falsities: &Rows) -> u64
    requires { 8 * rules ≤ length words.now }
    ensures { Lanes (EmptyHeadIn words.now rules truths.now falsities.now) result }
{
    let mut lanes = 0;
    for j in 0..rules {
        if words[8 * j] == 0 {
            lanes = lanes | sure(words, j, truths, falsities);
        }
    }
    lanes
}

// The lanes in which, for some atom of the mask, its negation is assumed and it is in `with`, or is not and it is in `without`.
pub fn clashes(mask: u16, assumed: &[u64; 16], with: &[u64; 16], without: &[u64; 16]) -> u64
    ensures { Lanes (ClashIn mask assumed.now with.now without.now) result }
{
    let mut lanes = 0;
    for a in mask.members() {
        let these = assumed[a];
        lanes = lanes | ((these & with[a]) | without[a].minus(these));
    }
    lanes
}
