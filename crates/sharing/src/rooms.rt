// The words lent for the records of a shared call, and the records in them.
ghost use Rattle.std.specs.Prelude.{◌≡◌, cond, ℕ, ◌*◌, ◌<◌, ◌≤◌, ltb, length, get_or};
ghost use Rattle.semantics.specs.Definitions.Returned.{written};
ghost use Rattle.semantics.specs.Definitions.Listing.{words};
ghost use Rattle.records.specs.Records.{views_in};
ghost use Rattle.listing.specs.Pauses.{fresh};
ghost use Rattle.sharing.specs.Refusals.{FirstShort};

use super::result::SharedRefusal;
use answers::{Reason, Refusal};
use listing::paused::Paused;
use records::write_records;

// The first of the n sheets whose records don't fit into the words lent.
pub fn first_short(n: usize, states: [Paused; 4], rooms: [usize; 4]) -> Option<SharedRefusal>
    requires { (n ≤ 4) × (length states ≡ 4) × (length rooms ≡ 4) × ((q : ℕ) → q < n → (get_or states q fresh).tally.views ≤ 4096) }
    ensures { FirstShort states rooms n result }
{
    for p in 0..n {
        let paused = states[p];
        let tally = paused.tally;
        let views = tally.views;
        if rooms[p] < 4 * views {
            return Some(SharedRefusal {
                refusal: Refusal {
                    reason: Reason::ShortBuffer,
                    place: views,
                },
                position: p,
            });
        }
    }
    None
}

// The records of sheet p to its own buffer, where it is one of the n.
pub fn hand(p: usize, n: usize, records: &[u16], views: usize, out: &mut [u16])
    requires { (4 * views ≤ length records.now) × (p < n → 4 * views ≤ length out.old) }
    ensures { out.new ≡ cond (ltb p n) (written (words (views_in records.now views)) out.old) out.old }
{
    if p < n {
        write_records(records, views, &mut out[..]);
    }
}
