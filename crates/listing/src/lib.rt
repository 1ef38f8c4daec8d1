// The listing: the walk along a list of guesses, which writes the records of the world views and makes the six counts.
#![tactic(auto)]

mod entries;
pub mod paused;
mod rest;
pub mod whole;

ghost use Rattle.std.specs.Prelude.{◌≡◌, ◌*◌, ◌≤◌, length};
ghost use Rattle.semantics.specs.Definitions.Order.{members_below};
ghost use Rattle.semantics.specs.Walk.{records_room};
ghost use Rattle.semantics.specs.Theorems.Order.{Enumerates};
ghost use Rattle.guess.specs.Programs.{setting_in, Outlines};
ghost use Rattle.records.specs.Records.{views_in};
ghost use Rattle.records.specs.Outcomes.{tally_from};
ghost use Rattle.listing.specs.Walks.{ListingAlong};

use answers::Tally;
use guess::outline::Outline;
use whole::whole;

// The listing along a list that has every guess, each once, the larger ones first; entries that are no guess are passed over. The six
// counts; and the records of the world views, in the list's order, in the first words of `records`. What the words after them hold then is
// left open.
pub fn walk(words: &[u16], x: Outline, order: &[u16], records: &mut [u16]) -> Tally
    requires { Outlines x words.now × Enumerates x.negations (members_below x.negations order.now) × (4 * records_room ≤ length records.old) }
    ensures records_len_unchanged { length records.new ≡ length records.old }
    ensures views_in_bounds { 4 * result.views ≤ length records.old }
    ensures listing_along { ListingAlong (setting_in x words.now) order.now (tally_from result) (views_in records.new result.views) }
{
    let mut program = [0u16; 284];
    let end = whole(words, x, order, &mut program[..], &mut records[..]);
    end.tally
}
