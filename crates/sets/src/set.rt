// A word as the set of the numbers of its bits that are set.
ghost use Rattle.std.specs.Prelude.{◌≡◌, ℕ, cond, eqb, ◌-◌, ◌<◌};
ghost use Rattle.sets.specs.Sets.{◌∈?◌, ◌∩◌, ◌∪◌, ◌∖◌, ∅, single};
ghost use Rattle.sets.specs.Least.{First};

use super::members::Members;

pub trait Set: Copy {
    // The word as a number, and how many bits it has.
    ghost number: { Self → ℕ };

    ghost width: { ℕ };

    // Is a in the set?
    fn has(self, a: Self) -> bool
        requires { number a < width }
        ensures { result ≡ (number a ∈? number self) };

    // The set, and a too where `yes`.
    fn include(self, a: Self, yes: bool) -> Self
        requires { number a < width }
        ensures { number result ≡ cond yes (single (number a)) ∅ ∪ number self };

    // Its members that are not in the other.
    fn minus(self, other: Self) -> Self
        ensures { number result ≡ number self ∖ number other };

    // Its least member.
    fn first(self) -> usize
        requires { 0 < number self }
        ensures { First (number self) result × (result < width) };

    // Has it no member?
    fn is_empty(self) -> bool
        ensures { result ≡ eqb (number self) 0 };

    // Its members but the least.
    fn others(self) -> Self
        requires { 0 < number self }
        ensures { number result ≡ number self ∩ (number self - 1) };

    // Its members, the least first.
    final fn members(self) -> Members<Self>
        ensures { result.rest ≡ self }
    {
        Members { rest: self }
    }
}
