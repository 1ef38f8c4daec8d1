// A rule at a set of atoms.
ghost use Rattle.sets.specs.Decides.{Decides};
ghost use Rattle.lanes.specs.Smaller.{Fails};

use sets::{meets, subset};

// Its head, its plain atoms, and the two sets that decide for which numbers it is on: those that have no member of `misses` and every member of
// `holds`.
#[derive(Clone, Copy, PartialEq, Eq, Debug, Default)]
pub struct Rule {
    pub head: u16,
    pub plain: u16,
    pub misses: u16,
    pub holds: u16,
}

impl Rule {
    // Does it fail in s?
    pub fn fails(self, s: u16) -> bool
        ensures { Decides (Fails self s) result }
    {
        let body = subset(self.plain, s);
        let head = meets(self.head, s);
        body & !head
    }
}
