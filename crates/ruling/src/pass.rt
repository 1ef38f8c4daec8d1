// One pass over the rules, for all lanes: what enters T and F.
ghost use Rattle.std.specs.Prelude.{◌*◌, ◌≤◌, length};
ghost use Rattle.ruling.specs.Pass.{Lone, Narrowed, Followed, Entered, Next};

use super::literals::{Rows, dead, sure};
use sets::{Set, power};

// T and F: by atom, the lanes in which it is in the one, and in the other.
#[derive(Clone, Copy, Debug, PartialEq, Eq)]
pub struct Pair {
    pub t: [u64; 16],
    pub f: [u64; 16],
}

// The only atom of a head.
fn lone(head: u16) -> Option<usize>
    ensures { Lone head result }
{
    if head == 0 {
        return None;
    }
    let a = head.first();
    if power(a as u16) == head {
        return Some(a);
    }
    None
}

// At each atom of the head only these lanes are left.
fn narrow(head: u16, lanes: u64, shut: &mut [u64; 16])
    ensures { Narrowed head 0 lanes shut.old shut.new }
{
    for a in head.members() {
        shut[a] = shut[a] & lanes;
    }
}

// Rule after rule: to t is added, at its only head atom, where it is sure; in `shut` only those lanes are left, at its head atoms, where it is dead.
fn follow(
    words: &[u16],
    rules: usize,
    truths: &Rows,
    falsities: &Rows,
    t: &mut [u64; 16],
    shut: &mut [u64; 16],
)
    requires { 8 * rules ≤ length words.now }
    ensures { Followed words.now truths.now falsities.now rules t.old shut.old t.new shut.new }
{
    for j in 0..rules {
        let head = words[8 * j];
        if let Some(a) = lone(head) {
            t[a] = t[a] | sure(words, j, truths, falsities);
        }
        narrow(head, dead(words, j, truths, falsities), &mut *shut);
    }
}

// To f is added, at each of the first n atoms, what is left in `shut`.
fn enter(shut: &[u64; 16], n: usize, f: &mut [u64; 16])
    requires { n ≤ 16 }
    ensures { Entered shut.now n f.old f.new }
{
    for a in 0..n {
        f[a] = f[a] | shut[a];
    }
}

// An atom enters T where a rule with that head is sure, and F where every rule with it in the head is dead.
pub fn pass(
    words: &[u16],
    rules: usize,
    n: usize,
    truths: &Rows,
    falsities: &Rows,
    pair: Pair,
) -> Pair
    requires { (8 * rules ≤ length words.now) × (n ≤ 16) }
    ensures { Next words.now rules n truths.now falsities.now pair.t pair.f result.t result.f }
{
    let mut t = pair.t;
    let mut f = pair.f;
    let mut shut = [u64::MAX; 16];
    follow(words, rules, truths, falsities, &mut t, &mut shut);
    enter(&shut, n, &mut f);
    Pair { t, f }
}
