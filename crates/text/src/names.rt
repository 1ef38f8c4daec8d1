// Names, read off the bytes of a sheet and appended to the first `at` bytes of a buffer. Nothing is asked of the bytes: what lies past their
// end is not read.
ghost use Rattle.std.specs.Prelude.{◌≡◌, cond, [], ◌+◌, ◌≤◌, ◌<◌, length};
ghost use Rattle.sets.specs.Sets.{◌∈?◌};
ghost use Rattle.semantics.specs.Definitions.Sheet.{byte_at, most_atoms};
ghost use Rattle.text.specs.Appended.{Appended};
ghost use Rattle.text.specs.Names.{name_room, names_room, names_end, atoms_in, name_field, member_fields};

use super::bytes::put;
use sets::Set;

// The byte at a place; 0 past the end.
fn byte(s: &[u8], place: usize) -> usize
    ensures { (result ≡ byte_at s.now place) × (result < 256) }
{
    usize::from(s.get(place).copied().unwrap_or(0))
}

// The number of atoms, if it is one that a sheet can have.
fn atoms(s: &[u8]) -> u16
    ensures { (result ≡ atoms_in s.now) × (result ≤ most_atoms) }
{
    let n = byte(s, 0);
    if 15 < n {
        return 0;
    }
    n as u16
}

// A space and the name whose length stands at a place, if it is there.
fn put_name(s: &[u8], place: usize, at: usize, out: &mut [u8]) -> usize
    requires { (place < names_end) × (at + name_room ≤ length out.old) }
    ensures appended { Appended at (name_field s.now place) out.old out.new result }
    ensures upper_bound { result ≤ at + name_room }
{
    let n = byte(s, place);
    if 12 < n {
        return at;
    }
    let from = place + 1;
    let end = from + n;
    if s.len() < end {
        return at;
    }
    let a = put(b" ", at, out);
    put(&s[from..end], a, out)
}

// The same if atom a is in the set.
fn put_member(s: &[u8], a: u16, set: u16, place: usize, at: usize, out: &mut [u8]) -> usize
    requires { (a < 16) × (place < names_end) × (at + name_room ≤ length out.old) }
    ensures appended { Appended at (cond (a ∈? set) (name_field s.now place) []) out.old out.new result }
    ensures upper_bound { result ≤ at + name_room }
{
    if set.has(a) {
        return put_name(s, place, at, out);
    }
    at
}

// The names of the atoms in the set, by atom number, each after a space.
pub fn put_names(s: &[u8], set: u16, from: usize, out: &mut [u8]) -> usize
    requires { from + names_room ≤ length out.old }
    ensures appended { Appended from (member_fields s.now set (atoms_in s.now)) out.old out.new result }
    ensures upper_bound { result ≤ from + names_room }
{
    let n = atoms(s);
    let mut at = from;
    let mut place = 1;
    for a in 0..n {
        at = put_member(s, a, set, place, at, out);
        place = place + 1 + byte(s, place);
    }
    at
}
