// A program with K and M in words, and what is known of it beside.
ghost use Rattle.std.specs.Prelude.{◌≡◌, ◌+◌, ◌*◌, ◌≤◌, ◌<◌, length};
ghost use Rattle.sets.specs.Sets.{⋃, ∅};
ghost use Rattle.semantics.specs.Words.{rules_in};
ghost use Rattle.semantics.specs.Fields.{masks_of};
ghost use Rattle.guess.specs.Programs.{WithinLimits, Outlines};

use sets::size;

// What is known of a program with K and M beside its rules, which stand in words, eight a rule.
#[derive(Clone, Copy)]
pub struct Outline {
    pub atoms: usize,
    pub rules: usize,
    pub negations: usize,
    // the atoms under K or "not K", and under M or "not M"
    pub k_atoms: u16,
    pub m_atoms: u16,
    // the day's masks: the atoms that are in, and those that are out
    pub ins: u16,
    pub outs: u16,
}

// The atoms in mask m or the next of some rule.
fn in_masks(words: &[u16], rules: usize, m: usize) -> u16
    requires { (8 * rules ≤ length words.now) × (m < 7) }
    ensures { result ≡ ⋃ (masks_of m (m + 1) (rules_in words.now rules)) }
{
    let mut set = 0;
    for i in 0..rules {
        set |= words[8 * i + m];
        set |= words[8 * i + m + 1];
    }
    set
}

// The outline of so many rules in words, without masks.
pub fn outline_of(words: &[u16], atoms: usize, rules: usize) -> Outline
    requires { WithinLimits atoms rules words.now }
    ensures atoms_value { (result.atoms ≡ atoms) × (result.rules ≡ rules) × (result.ins ≡ ∅) × (result.outs ≡ ∅) }
    ensures outlines { Outlines result words.now }
{
    let k_atoms = in_masks(words, rules, 4);
    let m_atoms = in_masks(words, rules, 6);
    let negations = size(k_atoms) + size(m_atoms);
    Outline {
        atoms,
        rules,
        negations: negations as usize,
        k_atoms,
        m_atoms,
        ins: 0,
        outs: 0,
    }
}
