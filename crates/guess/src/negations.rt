// The epistemic negations by number: "not K a" before "M a", atom after atom.
ghost use Rattle.std.specs.Prelude.{◌≡◌};
ghost use Rattle.guess.specs.Negations.{Few, assumed_by, found_by};

use super::outline::Outline;
use sets::Set;

// The atoms a whose "not K a" is in a guess, and those whose "M a" is.
#[derive(Clone, Copy)]
pub struct Assumptions {
    pub unknown: u16,
    pub maybe: u16,
}

// What a guess assumes, atom by atom.
#[tactic(auto, using(crate::proofs::Turns::at_most_one))]
pub fn assumed(x: Outline, guess: u16) -> Assumptions
    requires { Few x }
    ensures { result ≡ assumed_by x guess }
{
    let n = x.atoms as u16;
    let mut unknown = 0u16;
    let mut maybe = 0u16;
    // the number of the next negation
    let mut j = 0;
    for a in 0..n {
        let k = x.k_atoms.has(a);
        let k_in = guess.has(j);
        unknown = unknown.include(a, k & k_in);
        j += u16::from(k);
        let m = x.m_atoms.has(a);
        let m_in = guess.has(j);
        maybe = maybe.include(a, m & m_in);
        j += u16::from(m);
    }
    Assumptions { unknown, maybe }
}

// The guess found: it has "not K a" where a is not known, and "M a" where a is possible.
#[tactic(auto, using(crate::proofs::Turns::at_most_one))]
pub fn found(x: Outline, known: u16, possible: u16) -> u16
    requires { Few x }
    ensures { result ≡ found_by x known possible }
{
    let n = x.atoms as u16;
    let mut guess = 0u16;
    let mut j = 0;
    for a in 0..n {
        let k = x.k_atoms.has(a);
        let unknown = !known.has(a);
        guess = guess.include(j, k & unknown);
        j += u16::from(k);
        let m = x.m_atoms.has(a);
        let may = possible.has(a);
        guess = guess.include(j, m & may);
        j += u16::from(m);
    }
    guess
}
