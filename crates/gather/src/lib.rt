// The rules of a sheet at one set of atoms: those that a guess can switch on there, and for which guesses.
#![tactic(auto)]

pub mod digest;

ghost use Rattle.std.specs.Prelude.{◌≡◌, not, ◌&&◌, ℕ, ◌≤◌, length};
ghost use Rattle.sets.specs.Sets.{◌∈◌, ◌∩◌, ◌∖◌, ◌⊆?◌, ◌meets?◌};
ghost use Rattle.semantics.specs.AtSet.{need};
ghost use Rattle.semantics.specs.Theorems.AtSet.{Supports};
ghost use Rattle.guess.specs.Programs.{unmasked_in, Outlines};
ghost use Rattle.gather.specs.Digests.{Digested};
ghost use Rattle.gather.specs.Gathers.{GatheredAt, rule_from};

use digest::Digest;
use guess::outline::Outline;
use lanes::rule::Rule;
use sets::{Set, has_and_lacks, meets, size, subset};

impl Digest {
    // Can a guess switch the rule on at the set i, which needs these negations? No guess switches another one on.
    fn switches(self, i: u16, needed: u16) -> bool
        ensures { result ≡ (self.body ⊆? i) && not (self.nots meets? i) && not (self.barred meets? needed) }
    {
        let body = has_and_lacks(i, self.body, self.nots);
        let barred = meets(self.barred, needed);
        body & !barred
    }

    // Such a rule, at the set: its head within the set, its plain atoms, the negations that such a guess misses and those that it holds.
    fn at_set(self, i: u16, needed: u16) -> Rule
        ensures { result ≡ record { head = self.head ∩ i; plain = self.plain; misses = self.barred; holds = self.asked ∖ needed } }
    {
        Rule {
            head: self.head & i,
            plain: self.plain,
            misses: self.barred,
            holds: self.asked.minus(needed),
        }
    }
}

// A set that has the atom it supports, where it does: its only head atom in the set, not among its plain atoms.
fn supported(e: Rule) -> u16
    ensures { (a : ℕ) → Supports (rule_from e) a → a ∈ result }
{
    if size(e.head) == 1 {
        return e.head.minus(e.plain);
    }
    0
}

// Gathers the rules that a guess can switch on at the set i, which needs these negations, and says how many they are. None where one that every
// guess switches on has no head atom in the set, or an atom of the set is supported by none of them: then no guess makes the set stable.
pub fn gather(
    words: &[u16],
    x: Outline,
    digests: &[Digest],
    i: u16,
    needed: u16,
    room: &mut [Rule],
) -> Option<usize>
    requires { Outlines x words.now × Digested x words.now digests.now × (needed ≡ need (unmasked_in x words.now) i) × (x.rules ≤ length room.old) }
    ensures room_len_unchanged { length room.new ≡ length room.old }
    ensures gathered_at { GatheredAt x words.now i room.new result }
{
    let mut atoms = 0;
    let mut n = 0;
    for &r in &digests[..x.rules] {
        if r.switches(i, needed) {
            let e = r.at_set(i, needed);
            if e.head | e.misses | e.holds == 0 {
                return None;
            }
            atoms |= supported(e);
            room[n] = e;
            n += 1;
        }
    }
    if subset(i, atoms) {
        return Some(n);
    }
    None
}
