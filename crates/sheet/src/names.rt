// The atoms' names.
ghost use Rattle.std.specs.Prelude.{◌≡◌, [], ◌+◌, ◌≤◌, length, eqb};
ghost use Rattle.sets.specs.Lists.{some, same_list};
ghost use Rattle.semantics.specs.Definitions.Reading.{times};
ghost use Rattle.semantics.specs.Definitions.Sheet.{name_byte as isNameByte, name_byte_at, name_at};
ghost use Rattle.semantics.specs.Fields.{bytes_from, name_from, after_name, names_from, after_names};
ghost use Rattle.sheet.specs.Steps.{field_of, moved};

use super::fields::present;
use super::steps::{Cursor, Field};
use answers::{Reason, Refusal};

// May b be byte i of a name?
fn name_byte(i: usize, b: u8) -> bool
    ensures { result ≡ isNameByte (eqb i 0) b }
{
    if 97 <= b {
        return b <= 122;
    }
    if i == 0 {
        return false;
    }
    if b == 95 {
        return true;
    }
    if 48 <= b {
        return b <= 57;
    }
    false
}

// The n bytes of a name.
fn name_bytes(s: &[u8], n: usize, c: Cursor) -> Field
    requires { c.at + n ≤ length s.now }
    ensures { result ≡ field_of (λ _. n) (λ _. moved c) (times n [] (name_byte_at s.now) c.at) }
{
    let from = c.at;
    for i in 0..n {
        let at = from + i;
        if !name_byte(i, s[at]) {
            return Err(Refusal {
                reason: Reason::BadName,
                place: at,
            });
        }
    }
    Ok((n, Cursor { at: from + n, ..c }))
}

// Are the names whose lengths stand at two places the same?
fn same_name(s: &[u8], p: usize, q: usize) -> bool
    requires { (after_name s.now p ≤ length s.now) × (after_name s.now q ≤ length s.now) }
    ensures { result ≡ same_list (name_from s.now p) (name_from s.now q) }
{
    let n = s[p] as usize;
    let m = s[q] as usize;
    s[p + 1..p + 1 + n] == s[q + 1..q + 1 + m]
}

// Is the name at q one of the n names from a place on?
fn repeated(s: &[u8], n: usize, from: usize, q: usize) -> bool
    requires { (after_names s.now n from ≤ q) × (after_name s.now q ≤ length s.now) }
    ensures { result ≡ some (same_list (name_from s.now q)) (names_from s.now n from) }
{
    let mut p = from;
    for i in 0..n {
        if same_name(s, q, p) {
            return true;
        }
        p = p + 1 + s[p] as usize;
    }
    false
}

// Name i, of names that begin at a place.
fn name(s: &[u8], i: usize, from: usize, c: Cursor) -> Field
    requires { after_names s.now i from ≡ c.at }
    ensures { result ≡ field_of (λ _. i) (λ _. moved c) (name_at s.now (names_from s.now i from) c.at) }
{
    let at = c.at;
    if present(s, at, 1) {
        let n = s[at] as usize;
        if n < 1 {
            return Err(Refusal {
                reason: Reason::BadName,
                place: at,
            });
        }
        if 12 < n {
            return Err(Refusal {
                reason: Reason::BadName,
                place: at,
            });
        }
        if present(s, at + 1, n) {
            let inside = Cursor { at: at + 1, ..c };
            let f = name_bytes(s, n, inside);
            let Ok((_, next)) = f else {
                return f;
            };
            if repeated(s, i, from, at) {
                return Err(Refusal {
                    reason: Reason::RepeatedName,
                    place: at,
                });
            }
            return Ok((i, next));
        }
    }
    Err(Refusal {
        reason: Reason::EndsTooSoon,
        place: s.len(),
    })
}

// All the names: as many as there are atoms.
pub fn names(s: &[u8], first: Cursor) -> Field
    ensures { result ≡ field_of (λ _. first.atoms) (λ _. moved first) (times first.atoms [] (name_at s.now) first.at) }
{
    let n = first.atoms;
    let from = first.at;
    let mut c = first;
    for i in 0..n {
        let f = name(s, i, from, c);
        let Ok((_, next)) = f else {
            return f;
        };
        c = next;
    }
    Ok((n, c))
}
