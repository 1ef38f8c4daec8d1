// Words as sets of numbers. Each contract is in terms of sets; what the tests decide is in specs/Members.antt and specs/Size.antt.
#![tactic(auto)]

mod members;
mod narrow;
mod set;
mod wide;

ghost use Rattle.std.specs.Prelude.{◌≡◌, not, ◌&&◌, ◌^◌, ◌<◌};
ghost use Rattle.sets.specs.Sets.{◌⊆?◌, ◌meets?◌, full as full_of, size as size_of};
ghost use Rattle.sets.specs.One.{OneOf};

pub use members::Members;
pub use set::Set;

// Is every member of x in y?
pub fn subset(x: u16, y: u16) -> bool
    ensures { result ≡ (x ⊆? y) }
{
    x & y == x
}

// Is some member of x in y?
pub fn meets(x: u16, y: u16) -> bool
    ensures { result ≡ (x meets? y) }
{
    x & y != 0
}

// Has i every member of x, and no member of y? One comparison tells both.
pub fn has_and_lacks(i: u16, x: u16, y: u16) -> bool
    ensures { result ≡ (x ⊆? i) && not (y meets? i) }
{
    x.minus(i) | (y & i) == 0
}

// How many members x has.
pub fn size(x: u16) -> u32
    ensures { result ≡ size_of x }
{
    u16::count_ones(x)
}

// The highest member of x alone; what is promised is that it is one of them.
pub fn highest(x: u16) -> u16
    requires { 0 < x }
    ensures { OneOf x result }
{
    let mut m = x;
    let mut rest = x & (x - 1);
    while rest != 0 {
        m = rest;
        rest = m & (m - 1);
    }
    m
}

// 2 to the power of k: the number of sets of the numbers below k, and the set of k alone.
pub fn power(k: u16) -> u16
    requires { k < 16 }
    ensures { result ≡ 2 ^ k }
{
    1 << k
}

// The numbers below k.
pub fn full(k: u16) -> u16
    requires { k < 16 }
    ensures { result ≡ full_of k }
{
    power(k) - 1
}
