// The run of sheets that are read, and what it hands out.
ghost use Rattle.std.specs.Prelude.{◌≡◌, map, ◌≤◌, length};
ghost use Rattle.semantics.specs.Definitions.Sharing.{shares_of, shares_into, carried, lent_after};
ghost use Rattle.sharing.specs.Held.{settings_in, AllRead, FewAll};
ghost use Rattle.sharing.specs.Refusals.{FitTo};
ghost use Rattle.sharing.specs.Answers.{numbers_from, carried_by, shared};
ghost use Rattle.sharing.specs.Handed.{four, numbers_at, carried_in, handed_at};

use super::result::{Share, SharedRefusal, Shares};
use super::rooms::{first_short, hand};
use super::turns::{rounds, tests_made};
use listing::paused::Paused;
use order::guesses;
use source::Source;

// What a paused listing has.
fn share_of(paused: Paused) -> Share
    ensures { numbers_from result ≡ numbers_at paused }
{
    let tally = paused.tally;
    Share {
        finished: paused.waiting.is_none(),
        tests: tally.tested,
        views: tally.views,
    }
}

// What all have.
fn shares_of(states: [Paused; 4]) -> Shares
    requires { (length states ≡ 4) × FewAll states }
    ensures { carried_by result ≡ carried_in states }
{
    let tests = tests_made(states);
    let first = share_of(states[0]);
    let second = share_of(states[1]);
    let third = share_of(states[2]);
    let fourth = share_of(states[3]);
    Shares {
        tests,
        first,
        second,
        third,
        fourth,
    }
}

// The records of each of the first n sheets to its own buffer.
fn hand_all(
    n: usize,
    states: [Paused; 4],
    records: &[[u16; 16384]; 4],
    oa: &mut [u16],
    ob: &mut [u16],
    oc: &mut [u16],
    od: &mut [u16],
)
    requires { (length states ≡ 4) × (length records.now ≡ 4) × FewAll states × FitTo states (map length (four oa.old ob.old oc.old od.old)) n }
    ensures oa_after { oa.new ≡ handed_at n states records.now 0 oa.old }
    ensures ob_after { ob.new ≡ handed_at n states records.now 1 ob.old }
    ensures oc_after { oc.new ≡ handed_at n states records.now 2 oc.old }
    ensures od_after { od.new ≡ handed_at n states records.now 3 od.old }
{
    let a = states[0];
    let b = states[1];
    let c = states[2];
    let d = states[3];
    hand(0, n, &records[0][..], a.tally.views, &mut oa[..]);
    hand(1, n, &records[1][..], b.tally.views, &mut ob[..]);
    hand(2, n, &records[2][..], c.tally.views, &mut oc[..]);
    hand(3, n, &records[3][..], d.tally.views, &mut od[..]);
}

// The run, refusal 9, and then the records and the shares.
pub fn serve(
    n: usize,
    sources: [Source; 4],
    words: &[[u16; 568]; 4],
    allowance: usize,
    oa: &mut [u16],
    ob: &mut [u16],
    oc: &mut [u16],
    od: &mut [u16],
) -> Result<Shares, SharedRefusal>
    requires { (n ≤ 4) × (length sources ≡ 4) × (length words.now ≡ 4) × AllRead sources words.now n }
    ensures result_value { shared result ≡ carried (shares_into (map length (four oa.old ob.old oc.old od.old)) (shares_of allowance (settings_in sources words.now n))) }
    ensures od_after { four oa.new ob.new oc.new od.new ≡ lent_after (shares_into (map length (four oa.old ob.old oc.old od.old)) (shares_of allowance (settings_in sources words.now n))) (four oa.old ob.old oc.old od.old) }
{
    let order = guesses();
    let mut programs = [[0u16; 284]; 4];
    let mut records = [[0u16; 16384]; 4];
    let states = rounds(
        n,
        allowance,
        sources,
        &order[..],
        words,
        &mut programs,
        &mut records,
    );
    let rooms = [oa.len(), ob.len(), oc.len(), od.len()];
    match first_short(n, states, rooms) {
        Some(refused) => Err(refused),
        None => {
            hand_all(
                n,
                states,
                &records,
                &mut oa[..],
                &mut ob[..],
                &mut oc[..],
                &mut od[..],
            );
            Ok(shares_of(states))
        }
    }
}
