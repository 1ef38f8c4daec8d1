// The bytes of a sheet: whether it is accepted, and what is kept of it. `present` and `word` read a calendar's bytes too.
#![tactic(auto)]

mod fields;
mod names;
mod opposites;
mod rules;
mod sections;
mod steps;

ghost use Rattle.std.specs.Prelude.{◌≡◌};
ghost use Rattle.semantics.specs.Definitions.Check.{opened};
ghost use Rattle.sheet.specs.Opened.{opened_of};

use answers::{Reason, Refusal};
pub use fields::{present, word};
use sections::sections as read_sections;
use sets::size;

// What is kept of an accepted sheet.
#[derive(Clone, Copy)]
pub struct Contents {
    pub atoms: usize,
    pub rules: usize,
    pub pairs: usize,
    pub negations: usize,
    // where the rules begin
    pub rules_at: usize,
    // the atoms under K or "not K", and under M or "not M"
    pub k_atoms: u16,
    pub m_atoms: u16,
}

// The sheet, if it is accepted.
pub fn open(s: &[u8]) -> Result<Contents, Refusal>
    ensures { result ≡ opened_of (opened s.now) }
{
    let (_, c) = read_sections(s)?;
    let k = size(c.k_atoms) + size(c.m_atoms);
    if 12 < k {
        return Err(Refusal {
            reason: Reason::ManyNegations,
            place: 0,
        });
    }
    Ok(Contents {
        atoms: c.atoms,
        rules: c.rules,
        pairs: c.pairs,
        negations: k as usize,
        rules_at: c.rules_at,
        k_atoms: c.k_atoms,
        m_atoms: c.m_atoms,
    })
}
