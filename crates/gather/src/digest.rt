// The digest of the rules: what of each of them the sets of atoms are asked for, with the negations of its K and M literals by number.
ghost use Rattle.std.specs.Prelude.{◌≡◌, ◌<◌, take};
ghost use Rattle.semantics.specs.Definitions.Sheet.{rule_of_masks};
ghost use Rattle.semantics.specs.Words.{masks_in};
ghost use Rattle.guess.specs.Programs.{unmasked_in, Outlines};
ghost use Rattle.gather.specs.Digests.{digest_of, Digested};

use guess::negations::found;
use guess::outline::Outline;
use sets::{Set, full};

// As many rules as a program has room for.
pub const MOST_RULES: usize = 71;

// Of a rule its head; its plain and "not not" atoms; its "not" atoms; its plain and K atoms; the negations of its K and "not M" literals, which bar it
// where a guess has them; and those of its "not K" and M literals, which it asks for.
#[derive(Clone, Copy, PartialEq, Eq, Debug, Default)]
pub struct Digest {
    pub head: u16,
    pub body: u16,
    pub nots: u16,
    pub plain: u16,
    pub barred: u16,
    pub asked: u16,
}

// Of rule j in the words.
fn digest_of(words: &[u16], x: Outline, j: usize) -> Digest
    requires { Outlines x words.now × (j < x.rules) }
    ensures { result ≡ digest_of (unmasked_in x words.now) (rule_of_masks (masks_in words.now j)) }
{
    let at = 8 * j;
    let all = full(x.atoms as u16);
    let known = words[at + 4];
    let unknown = words[at + 5];
    let plain = words[at + 1];
    Digest {
        head: words[at],
        body: plain | words[at + 3],
        nots: words[at + 2],
        plain: plain | known,
        barred: found(x, all.minus(known), words[at + 7]),
        asked: found(x, all.minus(unknown), words[at + 6]),
    }
}

// Of all rules in the words, in their order.
pub fn digest_all(words: &[u16], x: Outline) -> [Digest; MOST_RULES]
    requires { Outlines x words.now }
    ensures { Digested x words.now (take x.rules result) }
{
    let mut digests = [Digest::default(); MOST_RULES];
    for j in 0..x.rules {
        digests[j] = digest_of(words, x, j);
    }
    digests
}
