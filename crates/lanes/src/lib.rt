// Sets of numbers, 64 a word, and a table with an entry for each number: one set of atoms after another is tried for all of them. `cube`
// finds the numbers for which a `rule` is on, `stable` what the rules say of them, and `noted` takes the set into their entries.
#![tactic(auto)]

pub mod cube;
pub mod noted;
pub mod plane;
pub mod rule;
pub mod stable;
