// The nogoods kept from one test to the next.
ghost use Rattle.std.specs.Prelude.{◌<◌};
ghost use Rattle.stable.specs.declared.kept.TheConstants.{KEPT};

use super::nogood::Nogood;

// How many are kept.
pub const KEPT: usize = 16;

// Nogoods, the number of the one to be asked first, and that of the oldest.
#[derive(Clone, Copy)]
pub struct Nogoods {
    kept: [Nogood; KEPT],
    first: usize,
    oldest: usize,
    ghost first_kept: { first < KEPT },
    ghost oldest_kept: { oldest < KEPT },
}

impl Nogoods {
    ghost use Rattle.std.specs.Prelude.{◌≡◌, true, false, List, ℕ, ◌<◌, IfSome, replicate, slice_index_or};
    ghost use Rattle.semantics.specs.Definitions.Rules.{Rule};
    ghost use Rattle.semantics.specs.Definitions.Day.{allowed, stable_under};
    ghost use Rattle.stable.specs.Nogoods.{Excludes};
    ghost use Rattle.stable.specs.Kept.{NogoodsHold};

    // The same nogood in every place. Places are filled from number 1 on, and number 0 last.
    pub fn new(nogood: Nogood) -> Nogoods
        ensures { result.kept ≡ replicate KEPT nogood }
    {
        Nogoods {
            kept: [nogood; KEPT],
            first: 1,
            oldest: 1,
        }
    }

    // The number of the first nogood that excludes i, if any.
    fn excluded_by(&self, i: u16) -> Option<usize>
        ensures { IfSome result (λ k. let r = slice_index_or self.now.kept k (record { has = 0; lacks = 0 }) in (k < KEPT) × (allowed r.has r.lacks i ≡ true)) }
    {
        self.kept.iter().position(|nogood| nogood.excludes(i))
    }

    // Does one of them exclude i? The one to be asked first is asked first; where it doesn't, the first that does takes its place.
    pub fn exclude(&mut self, i: u16) -> bool
        ensures still { (ins outs : ℕ) (p : List Rule) → NogoodsHold ins outs p self.old → NogoodsHold ins outs p self.new }
        ensures excluded { (ins outs : ℕ) (p : List Rule) → NogoodsHold ins outs p self.old → result ≡ true → stable_under ins outs p i ≡ false }
    {
        if self.kept[self.first].excludes(i) {
            return true;
        }
        match self.excluded_by(i) {
            Some(k) => {
                self.first = k;
                true
            }
            None => false,
        }
    }

    // Keeps a nogood in the place of the oldest, as the one to be asked first. Not inlined: few sets give a nogood, and the walk over the others
    // stays short.
    #[inline(never)]
    pub fn keep(&mut self, nogood: Nogood)
        ensures { (ins outs : ℕ) (p : List Rule) → NogoodsHold ins outs p self.old → Excludes ins outs p nogood.has nogood.lacks → NogoodsHold ins outs p self.new }
    {
        let place = self.oldest;
        self.kept[place] = nogood;
        self.first = place;
        self.oldest = (place + 1) % KEPT;
    }
}
