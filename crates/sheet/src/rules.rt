// The rules and their masks.
ghost use Rattle.std.specs.Prelude.{◌≡◌, [], ◌∷◌, ◌+◌, ◌≤◌, length};
ghost use Rattle.semantics.specs.Definitions.Reading.{times};
ghost use Rattle.semantics.specs.Definitions.Sheet.{mask_at, rule_at, most_atoms};
ghost use Rattle.sheet.specs.Steps.{field_of, moved, noted, noted_mask};

use super::fields::{present, word};
use super::steps::{Cursor, Field};
use answers::{Reason, Refusal};
use sets::power;

// Mask i of a rule. Masks 4 and 5 have atoms under K and "not K", 6 and 7 under M and "not M".
fn mask(s: &[u8], i: usize, c: Cursor) -> Field
    requires { (c.at + 2 ≤ length s.now) × (c.atoms ≤ most_atoms) }
    ensures { result ≡ field_of (λ w. w) (λ w. moved (noted_mask i c w)) (mask_at s.now c.atoms c.at) }
{
    let at = c.at;
    let w = word(s, at);
    if power(c.atoms as u16) <= w {
        return Err(Refusal {
            reason: Reason::BadMask,
            place: at,
        });
    }
    let value = w as usize;
    let next = Cursor { at: at + 2, ..c };
    match i {
        4..=5 => {
            let k_atoms = c.k_atoms | w;
            Ok((value, Cursor { k_atoms, ..next }))
        }
        6..=7 => {
            let m_atoms = c.m_atoms | w;
            Ok((value, Cursor { m_atoms, ..next }))
        }
        _ => Ok((value, next)),
    }
}

// The eight masks of a rule.
fn masks(s: &[u8], first: Cursor) -> Field
    requires { (first.at + 16 ≤ length s.now) × (first.atoms ≤ most_atoms) }
    ensures { result ≡ field_of (λ _. 8) (λ masks. moved (noted first (masks ∷ []))) (times 8 [] (λ _. mask_at s.now first.atoms) first.at) }
{
    let mut c = first;
    for i in 0..8 {
        let f = mask(s, i, c);
        let Ok((_, next)) = f else {
            return f;
        };
        c = next;
    }
    Ok((8, c))
}

// A rule: all its bytes are there before a mask is judged.
fn rule(s: &[u8], c: Cursor) -> Field
    requires { c.atoms ≤ most_atoms }
    ensures { result ≡ field_of (λ _. 8) (λ masks. moved (noted c (masks ∷ []))) (rule_at s.now c.atoms c.at) }
{
    if present(s, c.at, 16) {
        return masks(s, c);
    }
    Err(Refusal {
        reason: Reason::EndsTooSoon,
        place: s.len(),
    })
}

// All the rules.
pub fn rules(s: &[u8], first: Cursor) -> Field
    requires { first.atoms ≤ most_atoms }
    ensures { result ≡ field_of (λ _. first.rules) (λ rules. moved (noted first rules)) (times first.rules [] (λ _. rule_at s.now first.atoms) first.at) }
{
    let n = first.rules;
    let mut c = first;
    for i in 0..n {
        let f = rule(s, c);
        let Ok((_, next)) = f else {
            return f;
        };
        c = next;
    }
    Ok((n, c))
}
