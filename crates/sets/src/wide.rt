// 64-bit words: sets of rules by number, or of lanes.
use super::set::Set;

impl Set for u64 {
    ghost number = { λ x. x };

    ghost width = { 64 };

    fn has(self, a: u64) -> bool {
        (self >> a) % 2 == 1
    }

    fn include(self, a: u64, yes: bool) -> u64 {
        if yes {
            return (1 << a) | self;
        }
        self
    }

    fn minus(self, other: u64) -> u64 {
        self - (self & other)
    }

    fn first(self) -> usize {
        u64::trailing_zeros(self) as usize
    }

    fn is_empty(self) -> bool {
        self == 0
    }

    fn others(self) -> u64 {
        self & (self - 1)
    }
}
