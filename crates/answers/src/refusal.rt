// A refusal.
use super::reason::Reason;

// Its reason, and its place: a place in the sheet or the calendar, or (where too few words are lent) the number of sets, views or minutes that there are.
#[derive(Clone, Copy, Debug, PartialEq, Eq)]
pub struct Refusal {
    pub reason: Reason,
    pub place: usize,
}
