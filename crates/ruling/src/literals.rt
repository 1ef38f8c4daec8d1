// The lanes in which a rule is sure or dead, by what T and F say of its literals.
ghost use Rattle.std.specs.Prelude.{◌+◌, ◌*◌, ◌^◌, ◌<◌, ◌≤◌, length};
ghost use Rattle.lanes.specs.Lanes.{Lanes};
ghost use Rattle.ruling.specs.Literals.{InAll, InSome, SureIn, DeadIn};
ghost use Rattle.ruling.specs.Laid.{Laid};

use sets::Set;

// By atom, the lanes of a set, those without another set, and those with a third. In what is true: where the atom, "K a" and "M a" are. In what is
// false: where the atom, "M a" and "K a" are.
#[derive(Clone, Copy, Debug, PartialEq, Eq)]
pub struct Rows {
    pub whole: [u64; 16],
    pub without: [u64; 16],
    pub with: [u64; 16],
}

// The lanes that are in the word of every atom of the mask; all where it has none.
pub fn in_all(mask: u16, row: &[u64; 16]) -> u64
    ensures { Lanes (InAll mask row.now) result }
{
    let mut lanes = u64::MAX;
    for a in mask.members() {
        lanes = lanes & row[a];
    }
    lanes
}

// Those that are in the word of some atom of the mask, all of whose atoms are below 16. One loop with a closure for "and" and "or" would be no plainer:
// each has its own start, its own meaning and its own proof.
pub fn in_some(mask: u16, row: &[u64; 16]) -> u64
    ensures { Lanes (InSome mask row.now) result × (mask < 2 ^ 16) }
{
    let mut lanes = 0;
    for a in mask.members() {
        lanes = lanes | row[a];
    }
    lanes
}

// The lanes in which every literal of rule j is true.
pub fn sure(words: &[u16], j: usize, truths: &Rows, falsities: &Rows) -> u64
    requires { 8 * j + 8 ≤ length words.now }
    ensures { Lanes (SureIn words.now j truths.now falsities.now) result }
{
    let plain = in_all(words[8 * j + 1], &truths.whole);
    let nots = in_all(words[8 * j + 2], &falsities.whole);
    let not_nots = in_all(words[8 * j + 3], &truths.whole);
    let known = in_all(words[8 * j + 4], &truths.without);
    let not_known = in_all(words[8 * j + 5], &falsities.with);
    let may_be = in_all(words[8 * j + 6], &truths.with);
    let not_may_be = in_all(words[8 * j + 7], &falsities.without);
    plain & nots & not_nots & known & not_known & may_be & not_may_be
}

// The lanes in which some literal of rule j is false. Beside `sure` every row is the other side's, so a function for both would be no plainer.
pub fn dead(words: &[u16], j: usize, truths: &Rows, falsities: &Rows) -> u64
    requires { 8 * j + 8 ≤ length words.now }
    ensures { Lanes (DeadIn words.now j truths.now falsities.now) result }
{
    let plain = in_some(words[8 * j + 1], &falsities.whole);
    let nots = in_some(words[8 * j + 2], &truths.whole);
    let not_nots = in_some(words[8 * j + 3], &falsities.whole);
    let known = in_some(words[8 * j + 4], &falsities.with);
    let not_known = in_some(words[8 * j + 5], &truths.without);
    let may_be = in_some(words[8 * j + 6], &falsities.without);
    let not_may_be = in_some(words[8 * j + 7], &truths.with);
    plain | nots | not_nots | known | not_known | may_be | not_may_be
}

// By atom, its lanes in x, without those in `less`, and with those in `more`.
pub fn lay(x: &[u64; 16], less: &[u64; 16], more: &[u64; 16]) -> Rows
    ensures { Laid x.now less.now more.now 16 result }
{
    let mut without = [0u64; 16];
    let mut with = [0u64; 16];
    for a in 0..16 {
        without[a] = x[a].minus(less[a]);
        with[a] = x[a] | more[a];
    }
    Rows {
        whole: *x,
        without,
        with,
    }
}
