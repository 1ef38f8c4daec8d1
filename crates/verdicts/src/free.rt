// The guesses that are not contradicted, 64 a word.
ghost use Rattle.std.specs.Prelude.{◌≡◌, ◌≤◌, length};
ghost use Rattle.guess.specs.Programs.{Outlines};
ghost use Rattle.lanes.specs.Planes.{Plane};
ghost use Rattle.ruling.specs.Free.{Free};

use guess::outline::Outline;
use lanes::cube::Patterns;
use ruling::assumed::number;
use ruling::free_lanes;

// All of them, in two planes.
pub fn free_guesses(words: &[u16], x: Outline, free: &mut [u64], active: &mut [u64])
    requires { Outlines x words.now × (length free.old ≤ 64) × (length active.old ≡ length free.old) }
    ensures free_len_unchanged { (length free.new ≡ length free.old) × (length active.new ≡ length active.old) }
    ensures plane { Plane (Free x words.now) free.new × Plane (Free x words.now) active.new }
{
    let patterns = Patterns::new();
    let numbers = number(x);
    for w in 0..free.len() {
        free[w] = free_lanes(&patterns, words, x, &numbers, w as u16);
    }
    active.copy_from_slice(&free[..]);
}
