// A calendar: its entries, the rules in force at a minute and the minutes of change.
#![tactic(auto)]

mod entries;
mod force;
mod hours;
mod minutes;

pub use entries::read;
pub use force::in_force;
pub use hours::Entry;
pub use minutes::minutes_of_change;
