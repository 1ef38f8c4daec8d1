// A sheet, section by section.
ghost use Rattle.std.specs.Prelude.{◌≡◌, length};
ghost use Rattle.semantics.specs.Definitions.Sheet.{front as frontOf, sections as sectionsOf};
ghost use Rattle.sheet.specs.Steps.{field_of, cursor_of};

use super::fields::count;
use super::names::names;
use super::opposites::pairs;
use super::rules::rules;
use super::steps::{Cursor, Field};
use answers::{Reason, Refusal};

// Names and rules.
fn front(s: &[u8]) -> Field
    ensures { result ≡ field_of (λ x. length x.rules) cursor_of (frontOf s.now) }
{
    let start = Cursor {
        at: 0,
        atoms: 0,
        rules: 0,
        pairs: 0,
        rules_at: 0,
        k_atoms: 0,
        m_atoms: 0,
    };
    let a = count(s, 15, start);
    let Ok((atoms, mut named)) = a else {
        return a;
    };
    named.atoms = atoms;
    let b = names(s, named);
    let Ok((_, counted)) = b else {
        return b;
    };
    let c = count(s, 64, counted);
    let Ok((n, mut ruled)) = c else {
        return c;
    };
    ruled.rules = n;
    ruled.rules_at = ruled.at;
    rules(s, ruled)
}

// The sections in their order, and nothing after them.
pub fn sections(s: &[u8]) -> Field
    ensures { result ≡ field_of (λ x. length x.rules) cursor_of (sectionsOf s.now) }
{
    let a = front(s);
    let Ok((n, counted)) = a else {
        return a;
    };
    let b = count(s, 7, counted);
    let Ok((m, mut paired)) = b else {
        return b;
    };
    paired.pairs = m;
    let c = pairs(s, paired);
    let Ok((_, last)) = c else {
        return c;
    };
    let end = last.at;
    if end == s.len() {
        return Ok((n, last));
    }
    Err(Refusal {
        reason: Reason::ExtraBytes,
        place: end,
    })
}
