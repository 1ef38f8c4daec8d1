// The rules and pairs of a sheet in words, eight a rule; a pair is a constraint with both atoms plain.
ghost use Rattle.std.specs.Prelude.{◌≡◌, cond, ◌++◌, ◌+◌, ◌*◌, ◌≤◌, eqb, length, take};
ghost use Rattle.sets.specs.Lists.{only};
ghost use Rattle.semantics.specs.Words.{pairs_written, masks_in, rules_in};
ghost use Rattle.semantics.specs.Fields.{rule_from, pairs_from};
ghost use Rattle.sheet.specs.Opened.{Holds};
ghost use Rattle.opened.specs.Fetched.{RulesBegin};
ghost use Rattle.opened.specs.Loaded.{RulesLoad, RulesLoadOnly, Atoms, constraint_masks, Loads, LoadsOnly};

use super::fetch;
use sets::{Set, power};
use sheet::{Contents, word};

// Writes rule n, whose sixteen bytes begin at a place, as eight words.
fn load_rule(s: &[u8], place: usize, out: &mut [u16], n: usize)
    requires { (place + 16 ≤ length s.now) × (8 * n + 8 ≤ length out.old) }
    ensures out_len_unchanged { length out.new ≡ length out.old }
    ensures out_unchanged { take (8 * n) out.new ≡ take (8 * n) out.old }
    ensures n_after { masks_in out.new n ≡ rule_from s.now place }
{
    for i in 0..8 {
        out[8 * n + i] = word(s, place + 2 * i);
    }
}

// Loads the rules of an accepted sheet, by number from the opened sheet. What the words after them hold is left open.
fn load_rules(s: &[u8], rules_at: usize, rules: usize, out: &mut [u16])
    requires { RulesBegin s.now rules_at rules × (8 * rules ≤ length out.old) }
    ensures out_len_unchanged { length out.new ≡ length out.old }
    ensures rules_load { RulesLoad s.now rules out.new }
{
    // `fetch` tells the end, so the numbers are counted by hand
    let mut number = 0;
    while let Some(place) = fetch(s, rules_at, rules, number) {
        load_rule(s, place, &mut out[..], number);
        number += 1;
    }
}

// Writes one rule more after the first n, where `yes`; answers how many there are.
fn load_where(s: &[u8], place: usize, out: &mut [u16], n: usize, yes: bool) -> usize
    requires { (place + 16 ≤ length s.now) × (8 * n + 8 ≤ length out.old) }
    ensures out_len_unchanged { length out.new ≡ length out.old }
    ensures upper_bound { result ≤ n + 1 }
    ensures result_after { rules_in out.new result ≡ rules_in out.old n ++ only yes (rule_from s.now place) }
{
    if yes {
        load_rule(s, place, &mut out[..], n);
        return n + 1;
    }
    n
}

// Loads those rules of an accepted sheet whose numbers are in a set, in their order; answers how many they are. What the words after them hold
// is left open.
fn load_rules_in(s: &[u8], rules_at: usize, rules: usize, set: u64, out: &mut [u16]) -> usize
    requires { RulesBegin s.now rules_at rules × (8 * rules ≤ length out.old) }
    ensures out_len_unchanged { length out.new ≡ length out.old }
    ensures upper_bound { result ≤ rules }
    ensures rules_load_only { RulesLoadOnly s.now set result out.new }
{
    let mut n = 0;
    // `fetch` tells the end, so the numbers are counted by hand
    let mut number = 0;
    while let Some(place) = fetch(s, rules_at, rules, number) {
        n = load_where(s, place, &mut out[..], n, set.has(number as u64));
        number += 1;
    }
    n
}

// Mask i of a constraint that has these atoms plain and no other literal.
fn constraint_mask(i: usize, plain: u16) -> u16
    ensures { result ≡ cond (eqb i 1) plain 0 }
{
    if i == 1 {
        return plain;
    }
    0
}

// Writes such a constraint as rule n.
fn load_constraint(plain: u16, out: &mut [u16], n: usize)
    requires { 8 * n + 8 ≤ length out.old }
    ensures out_len_unchanged { length out.new ≡ length out.old }
    ensures out_unchanged { take (8 * n) out.new ≡ take (8 * n) out.old }
    ensures n_after { masks_in out.new n ≡ constraint_masks plain }
{
    for i in 0..8 {
        out[8 * n + i] = constraint_mask(i, plain);
    }
}

// Writes the pairs from a place after the first n rules, one rule each.
fn load_pairs(s: &[u8], from: usize, pairs: usize, out: &mut [u16], n: usize)
    requires { (from + 2 * pairs ≤ length s.now) × (8 * (n + pairs) ≤ length out.old) × Atoms s.now from pairs }
    ensures out_len_unchanged { length out.new ≡ length out.old }
    ensures pairs_after { rules_in out.new (n + pairs) ≡ rules_in out.old n ++ pairs_written (pairs_from s.now pairs from) }
{
    for i in 0..pairs {
        let first = power(s[from + 2 * i] as u16);
        let second = power(s[from + 2 * i + 1] as u16);
        load_constraint(first | second, &mut out[..], n + i);
    }
}

// Loads the rules of an accepted sheet and then its pairs; answers how many they are. What the words after them hold is left open.
pub fn load(s: &[u8], x: Contents, out: &mut [u16]) -> usize
    requires { Holds s.now x × (8 * (x.rules + x.pairs) ≤ length out.old) }
    ensures out_len_unchanged { length out.new ≡ length out.old }
    ensures value { result ≡ x.rules + x.pairs }
    ensures loads { Loads s.now result out.new }
{
    load_rules(s, x.rules_at, x.rules, &mut out[..]);
    load_pairs(
        s,
        x.rules_at + 16 * x.rules + 1,
        x.pairs,
        &mut out[..],
        x.rules,
    );
    x.rules + x.pairs
}

// Loads those rules of an accepted sheet whose numbers are in a set, in their order, and then all its pairs; answers how many they are. What the
// words after them hold is left open.
pub fn load_only(s: &[u8], x: Contents, set: u64, out: &mut [u16]) -> usize
    requires { Holds s.now x × (8 * (x.rules + x.pairs) ≤ length out.old) }
    ensures out_len_unchanged { length out.new ≡ length out.old }
    ensures upper_bound { result ≤ x.rules + x.pairs }
    ensures loads_only { LoadsOnly s.now set result out.new }
{
    let n = load_rules_in(s, x.rules_at, x.rules, set, &mut out[..]);
    load_pairs(s, x.rules_at + 16 * x.rules + 1, x.pairs, &mut out[..], n);
    n + x.pairs
}
