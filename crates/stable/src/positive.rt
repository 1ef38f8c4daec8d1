// Rules of a head and plain atoms: what is left of those whose bodies hold in a set.
ghost use Rattle.std.specs.Prelude.{◌≡◌};
ghost use Rattle.semantics.specs.Definitions.Stable.{satisfies};
ghost use Rattle.stable.specs.Applied.{positive_rule};

use sets::{meets, subset};

#[derive(Clone, Copy, PartialEq, Eq, Debug)]
pub struct PositiveRule {
    pub head: u16,
    pub plain: u16,
}

impl PositiveRule {
    // Is the rule satisfied in i?
    pub fn satisfied(self, i: u16) -> bool
        ensures { result ≡ satisfies i (positive_rule self) }
    {
        let plain = subset(self.plain, i);
        let head = meets(self.head, i);
        !plain | head
    }
}
