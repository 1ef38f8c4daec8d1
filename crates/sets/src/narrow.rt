// 16-bit words: sets of atoms, or of epistemic negations.
use super::set::Set;

impl Set for u16 {
    ghost number = { λ x. x };

    ghost width = { 16 };

    fn has(self, a: u16) -> bool {
        (self >> a) % 2 == 1
    }

    fn include(self, a: u16, yes: bool) -> u16 {
        if yes {
            return (1 << a) | self;
        }
        self
    }

    fn minus(self, other: u16) -> u16 {
        self - (self & other)
    }

    fn first(self) -> usize {
        u16::trailing_zeros(self) as usize
    }

    fn is_empty(self) -> bool {
        self == 0
    }

    fn others(self) -> u16 {
        self & (self - 1)
    }
}
