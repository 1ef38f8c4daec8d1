// The hours of a rule.

// An entry of a calendar: a rule's number, the first minute of its hours and the minute that they end at.
#[derive(Clone, Copy)]
pub struct Entry {
    pub rule: u16,
    pub first: u16,
    pub end: u16,
}
