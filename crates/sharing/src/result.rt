// What a shared call answers.
use answers::Refusal;

// Of a sheet: whether no guess that would be tested is left, its tests, and the views that it met in them.
#[derive(Clone, Copy, Debug, PartialEq, Eq)]
pub struct Share {
    pub finished: bool,
    pub tests: usize,
    pub views: usize,
}

// The tests of all sheets, and the share of each. One that is not there is finished, with no tests and no views.
#[derive(Clone, Copy, Debug, PartialEq, Eq)]
pub struct Shares {
    pub tests: usize,
    pub first: Share,
    pub second: Share,
    pub third: Share,
    pub fourth: Share,
}

// A refusal (where too few words are lent, its place is the number of views reached), and the sheet's position from 0.
#[derive(Clone, Copy, Debug, PartialEq, Eq)]
pub struct SharedRefusal {
    pub refusal: Refusal,
    pub position: usize,
}
