// The sheets of a shared call, each read once.
ghost use Rattle.std.specs.Prelude.{◌≡◌, [], ◌∷◌, ◌<◌, ◌≤◌, length, get_or};
ghost use Rattle.sharing.specs.Held.{ReadTo};
ghost use Rattle.sharing.specs.Refusals.{FirstRefused};

use super::result::SharedRefusal;
use answers::{Reason, Refusal};
use source::{Source, of_day};

// Sheet p of the four, which the call sold takes one by one.
fn pick<'a>(p: usize, a: &'a [u8], b: &'a [u8], c: &'a [u8], d: &'a [u8]) -> &'a [u8]
    requires { p < 4 }
    ensures { result.now ≡ get_or (a.now ∷ b.now ∷ c.now ∷ d.now ∷ []) p [] }
{
    if p == 0 {
        return a;
    }
    if p == 1 {
        return b;
    }
    if p == 2 {
        return c;
    }
    d
}

// The first n sheets, each with its rules in words of its own.
pub fn read_sheets<'a>(
    n: usize,
    a: &'a [u8],
    b: &'a [u8],
    c: &'a [u8],
    d: &'a [u8],
    words: &mut [[u16; 568]; 4],
) -> [Source; 4]
    requires { (n ≤ 4) × (length words.old ≡ 4) }
    ensures words_len_unchanged { length words.new ≡ length words.old }
    ensures result_len { (length result ≡ 4) × ReadTo result words.new (a.now ∷ b.now ∷ c.now ∷ d.now ∷ []) n }
{
    let unread = Err(Refusal {
        reason: Reason::BadCount,
        place: 0,
    });
    let mut sources = [unread; 4];
    for p in 0..n {
        let sheet = pick(p, a, b, c, d);
        let source = of_day(sheet, 0, 0, &mut words[p][..]);
        sources[p] = source;
    }
    sources
}

// The first of the n sheets that is refused.
pub fn first_refused(n: usize, sources: [Source; 4]) -> Option<SharedRefusal>
    requires { (n ≤ 4) × (length sources ≡ 4) }
    ensures { FirstRefused sources n result }
{
    for p in 0..n {
        let source = sources[p];
        if let Err(refusal) = source {
            return Some(SharedRefusal {
                refusal,
                position: p,
            });
        }
    }
    None
}
