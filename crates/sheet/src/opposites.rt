// The pairs of opposites.
ghost use Rattle.std.specs.Prelude.{◌≡◌, [], ◌+◌, ◌*◌, ◌≤◌, length, eqb};
ghost use Rattle.sets.specs.Lists.{some};
ghost use Rattle.semantics.specs.Definitions.Reading.{times};
ghost use Rattle.semantics.specs.Definitions.Sheet.{good_pair, pair_at};
ghost use Rattle.semantics.specs.Fields.{bytes_from, pairs_from};
ghost use Rattle.sheet.specs.Steps.{field_of, moved, opposites};

use super::fields::present;
use super::steps::{Cursor, Field};
use answers::{Reason, Refusal};

// Is the atom one of the n bytes from a place?
fn taken(s: &[u8], from: usize, n: usize, atom: u8) -> bool
    requires { from + n ≤ length s.now }
    ensures { result ≡ some (eqb atom) (bytes_from s.now n from) }
{
    s[from..from + n].contains(&atom)
}

// Are these two atoms of the sheet, not the same, and in none of the i pairs from a place?
fn good_pair(s: &[u8], i: usize, from: usize, atoms: usize, first: u8, second: u8) -> bool
    requires { from + 2 * i ≤ length s.now }
    ensures { result ≡ good_pair atoms (pairs_from s.now i from) (opposites first second) }
{
    if atoms <= first as usize {
        return false;
    }
    if atoms <= second as usize {
        return false;
    }
    if first == second {
        return false;
    }
    if taken(s, from, 2 * i, first) {
        return false;
    }
    !taken(s, from, 2 * i, second)
}

// Pair i, of pairs that begin at a place: both its bytes are there before it is judged.
fn pair(s: &[u8], i: usize, from: usize, c: Cursor) -> Field
    requires { from + 2 * i ≡ c.at }
    ensures { result ≡ field_of (λ _. i) (λ _. moved c) (pair_at s.now c.atoms (pairs_from s.now i from) c.at) }
{
    let at = c.at;
    if present(s, at, 2) {
        if good_pair(s, i, from, c.atoms, s[at], s[at + 1]) {
            return Ok((i, Cursor { at: at + 2, ..c }));
        }
        return Err(Refusal {
            reason: Reason::BadPair,
            place: at,
        });
    }
    Err(Refusal {
        reason: Reason::EndsTooSoon,
        place: s.len(),
    })
}

// All the pairs.
pub fn pairs(s: &[u8], first: Cursor) -> Field
    ensures { result ≡ field_of (λ _. first.pairs) (λ _. moved first) (times first.pairs [] (pair_at s.now first.atoms) first.at) }
{
    let n = first.pairs;
    let from = first.at;
    let mut c = first;
    for i in 0..n {
        let f = pair(s, i, from, c);
        let Ok((_, next)) = f else {
            return f;
        };
        c = next;
    }
    Ok((n, c))
}
