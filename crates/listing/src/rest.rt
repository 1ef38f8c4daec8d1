// The rest of a listing, along the list of guesses, by the verdicts on all of them.
ghost use Rattle.std.specs.Prelude.{◌≡◌, ◌+◌, ◌*◌, ◌^◌, ◌<◌, ◌≤◌, length, take};
ghost use Rattle.semantics.specs.Definitions.Check.{most_negations};
ghost use Rattle.semantics.specs.Definitions.Order.{members_below};
ghost use Rattle.semantics.specs.Walk.{records_room, walk, advance as advanceIn};
ghost use Rattle.semantics.specs.Theorems.Order.{Enumerates};
ghost use Rattle.semantics.specs.Theorems.Tally.{AtMost};
ghost use Rattle.guess.specs.Programs.{setting_in, Outlines};
ghost use Rattle.verdicts.specs.Tables.{Tabled};
ghost use Rattle.records.specs.Records.{LargerFirst};
ghost use Rattle.records.specs.Outcomes.{tally_from};
ghost use Rattle.listing.specs.Walks.{walked_in};

use super::entries::{Verdicts, examine};
use super::paused::Paused;
use answers::Tally;
use guess::outline::Outline;
use records::covered_by;
use records::outcome::{Outcome, count, note};
use sets::power;

// One guess more: covered by a view already met, or examined, and its record written where it is a view.
fn pass(
    words: &[u16],
    x: Outline,
    guess: u16,
    tally: Tally,
    verdicts: Verdicts,
    records: &mut [u16],
) -> Tally
    requires outlines { Outlines x words.now × (guess < 2 ^ x.negations) × Tabled x words.now verdicts.free.now verdicts.active.now verdicts.table.now }
    requires at_most { AtMost (tally_from tally) (2 ^ most_negations) × (4 * tally.views + 4 ≤ length records.old) × LargerFirst records.old tally.views }
    ensures records_len_unchanged { length records.new ≡ length records.old }
    ensures records_after { walked_in result records.new ≡ advanceIn (setting_in x words.now) (walked_in tally records.old) guess }
{
    if covered_by(&records[..], tally.views, guess) {
        return count(tally, Outcome::Covered);
    }
    let outcome = examine(words, x, verdicts, guess);
    note(outcome, &mut records[4 * tally.views..]);
    count(tally, outcome)
}

// From where the listing stands to the end of the list; entries that are no guess are passed over.
pub fn rest(
    words: &[u16],
    x: Outline,
    order: &[u16],
    begun: Paused,
    verdicts: Verdicts,
    records: &mut [u16],
) -> Tally
    requires outlines { Outlines x words.now × Tabled x words.now verdicts.free.now verdicts.active.now verdicts.table.now × Enumerates x.negations (members_below x.negations order.now) }
    requires records_room_in_bounds { (4 * records_room ≤ length records.old) × (begun.at ≤ length order.now) × (walked_in begun.tally records.old ≡ walk (setting_in x words.now) (members_below x.negations (take begun.at order.now))) }
    ensures records_len_unchanged { length records.new ≡ length records.old }
    ensures records_after { walked_in result records.new ≡ walk (setting_in x words.now) (members_below x.negations (take (length order.now) order.now)) }
{
    let end = power(x.negations as u16);
    let mut counts = begun.tally;
    for i in begun.at..order.len() {
        let guess = order[i];
        if guess < end {
            counts = pass(words, x, guess, counts, verdicts, &mut records[..]);
        }
    }
    counts
}
