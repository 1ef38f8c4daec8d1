// The members of a set, one after the other.
ghost use Rattle.std.specs.Iterator.{at_most};
ghost use Rattle.sets.specs.Walks.{Takes};

use super::set::Set;

// Those that are left; the least comes first.
#[derive(Clone, Copy)]
pub struct Members<W> {
    pub rest: W,
}

impl<W: Set> Iterator for Members<W> {
    type Item = usize;

    ghost remaining = { λ s. at_most (W.number s.rest) };

    ghost next_gives = { λ s r t. Takes W.width (W.number s.rest) r (W.number t.rest) };

    fn next(&mut self) -> Option<usize> {
        if self.rest.is_empty() {
            return None;
        }
        let a = self.rest.first();
        self.rest = self.rest.others();
        Some(a)
    }
}
