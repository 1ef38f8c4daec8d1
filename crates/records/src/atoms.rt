// What records say of an atom.
ghost use Rattle.std.specs.Prelude.{◌≡◌, not, ◌*◌, ◌<◌, ◌≤◌, length};
ghost use Rattle.sets.specs.Lists.{every};
ghost use Rattle.sets.specs.Sets.{◌∈?◌};
ghost use Rattle.records.specs.Records.{views_in};

use sets::Set;

// Is the atom known in each of the first n records?
pub fn known_in_all(records: &[u16], n: usize, atom: u16) -> bool
    requires { (4 * n ≤ length records.now) × (atom < 16) }
    ensures { result ≡ every (λ v. atom ∈? v.known) (views_in records.now n) }
{
    (0..n).all(|j| records[4 * j + 1].has(atom))
}

// Is the atom possible in none of the first n records?
pub fn possible_in_none(records: &[u16], n: usize, atom: u16) -> bool
    requires { (4 * n ≤ length records.now) × (atom < 16) }
    ensures { result ≡ every (λ v. not (atom ∈? v.possible)) (views_in records.now n) }
{
    (0..n).all(|j| !records[4 * j + 2].has(atom))
}
