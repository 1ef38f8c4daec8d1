// A whole listing: the first test by itself, and where more are left, the verdicts on all guesses at once.
ghost use Rattle.std.specs.Prelude.{◌≡◌, false, ◌*◌, ◌^◌, ◌≤◌, length, take};
ghost use Rattle.semantics.specs.Definitions.Check.{most_negations};
ghost use Rattle.semantics.specs.Definitions.Order.{members_below};
ghost use Rattle.semantics.specs.Words.{program_room};
ghost use Rattle.semantics.specs.Walk.{records_room, walk};
ghost use Rattle.semantics.specs.Theorems.Order.{Enumerates};
ghost use Rattle.guess.specs.Programs.{setting_in, Outlines};
ghost use Rattle.listing.specs.Walks.{walked_in};
ghost use Rattle.listing.specs.Pauses.{waits, Along};

use super::entries::Verdicts;
use super::paused::Paused;
use super::rest::rest;
use answers::Tally;
use guess::outline::Outline;
use lanes::noted::Entry;
use sets::power;
use verdicts::judge_all;

// As many words, at most 64, as have a lane for each guess.
fn plane_words(negations: usize) -> usize
    requires { negations ≤ most_negations }
    ensures { (result ≤ 64) × (2 ^ negations ≤ 64 * result) }
{
    if negations <= 6 {
        return 1;
    }
    power((negations - 6) as u16) as usize
}

// From where the listing stands on, by the verdicts on all guesses.
fn finish(words: &[u16], x: Outline, order: &[u16], begun: Paused, records: &mut [u16]) -> Tally
    requires outlines { Outlines x words.now × Enumerates x.negations (members_below x.negations order.now) }
    requires records_room_in_bounds { (4 * records_room ≤ length records.old) × (begun.at ≤ length order.now) × (walked_in begun.tally records.old ≡ walk (setting_in x words.now) (members_below x.negations (take begun.at order.now))) }
    ensures records_len_unchanged { length records.new ≡ length records.old }
    ensures records_after { walked_in result records.new ≡ walk (setting_in x words.now) (members_below x.negations (take (length order.now) order.now)) }
{
    let n = plane_words(x.negations);
    let mut free = [0u64; 64];
    let mut stable = [0u64; 64];
    let mut active = [0u64; 64];
    let mut table = [Entry::default(); 4096];
    judge_all(
        words,
        x,
        &mut free[..n],
        &mut stable[..n],
        &mut active[..n],
        &mut table[..],
    );
    let verdicts = Verdicts {
        free: &free[..n],
        active: &active[..n],
        table: &table[..],
    };
    rest(words, x, order, begun, verdicts, &mut records[..])
}

// From the first guess to the last: where the first test leaves no guess that waits for one, the verdicts on all guesses are not asked for.
pub fn whole(
    words: &[u16],
    x: Outline,
    order: &[u16],
    program: &mut [u16],
    records: &mut [u16],
) -> Paused
    requires { Outlines x words.now × Enumerates x.negations (members_below x.negations order.now) × (4 * program_room ≤ length program.old) × (4 * records_room ≤ length records.old) }
    ensures program_len_unchanged { length program.new ≡ length program.old }
    ensures records_len_unchanged { length records.new ≡ length records.old }
    ensures along { Along x words.now order.now result program.new records.new }
    ensures waits_value { (waits result ≡ false) × (result.at ≡ length order.now) }
{
    let start = Paused::start();
    let first = start.reach(words, x, order, 1, &mut program[..], &mut records[..]);
    if first.waiting.is_none() {
        return first;
    }
    let tally = finish(words, x, order, first, &mut records[..]);
    Paused {
        at: order.len(),
        tally,
        waiting: None,
    }
}
