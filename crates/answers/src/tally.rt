// The six counts of a listing.

// How many guesses count as what.
#[derive(Clone, Copy, Debug, Default, PartialEq, Eq)]
pub struct Tally {
    pub views: usize,
    pub covered: usize,
    pub ruled: usize,
    pub tested: usize,
    pub empty: usize,
    pub other: usize,
}
