// What calls answer: a refusal, by its reason and its place; and the six counts of a listing.
#![tactic(auto)]

mod reason;
mod refusal;
mod tally;

pub use reason::Reason;
pub use refusal::Refusal;
pub use tally::Tally;
