// What names, rules, pairs and the entries of a calendar share: the presence of bytes, and words; and counts.
ghost use Rattle.std.specs.Prelude.{◌≡◌, ◌+◌, ◌≤◌, length, leb};
ghost use Rattle.semantics.specs.Definitions.Sheet.{count_at, word_at};
ghost use Rattle.sheet.specs.Steps.{field_of, moved};

use super::steps::{Cursor, Field};
use answers::{Reason, Refusal};

// Are the n bytes from a place there?
pub fn present(s: &[u8], at: usize, n: usize) -> bool
    ensures { result ≡ leb (at + n) (length s.now) }
{
    if at <= s.len() {
        if n <= s.len() - at {
            return true;
        }
    }
    false
}

// A count: one byte, at most the limit.
pub fn count(s: &[u8], limit: usize, c: Cursor) -> Field
    ensures { result ≡ field_of (λ n. n) (λ _. moved c) (count_at s.now limit c.at) }
{
    let at = c.at;
    if present(s, at, 1) {
        let n = s[at] as usize;
        if limit < n {
            return Err(Refusal {
                reason: Reason::OverLimit,
                place: at,
            });
        }
        return Ok((n, Cursor { at: at + 1, ..c }));
    }
    Err(Refusal {
        reason: Reason::EndsTooSoon,
        place: s.len(),
    })
}

// The two bytes at a place, the low one first.
pub fn word(s: &[u8], at: usize) -> u16
    requires { at + 2 ≤ length s.now }
    ensures { result ≡ word_at s.now at }
{
    s[at] as u16 + 256 * (s[at + 1] as u16)
}
