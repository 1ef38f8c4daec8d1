// A guess: its negations by number, and its reduct.
#![tactic(auto)]

pub mod negations;
pub mod outline;
pub mod reduct;
