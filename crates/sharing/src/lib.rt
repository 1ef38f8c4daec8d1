// Up to four sheets on one allowance of tests (document 02, K4): the call `share`.
#![tactic(auto)]

mod result;
mod rooms;
mod serve;
mod sheets;
mod turns;

ghost use Rattle.std.specs.Prelude.{◌≡◌, map, length};
ghost use Rattle.semantics.specs.Definitions.Sharing.{share_call, carried, lent_after};
ghost use Rattle.sharing.specs.Handed.{four};
ghost use Rattle.sharing.specs.Answers.{shared};
ghost use Rattle.sharing.specs.Demand.{SharingDemand};

use answers::{Reason, Refusal};
pub use result::{Share, SharedRefusal, Shares};
use serve::serve;
use sheets::{first_refused, read_sheets};

// The listings of the first `count` sheets on one allowance of tests: they go round in their order, one test each, covered and ruled guesses being
// free. The records of the views that each sheet meets go to its own buffer, those of sheet a to oa and so on. Refusals 14, then 1 to 7 and 15 sheet by sheet, then 9.
pub fn share<'a>(
    count: usize,
    a: &'a [u8],
    b: &'a [u8],
    c: &'a [u8],
    d: &'a [u8],
    allowance: usize,
    oa: &mut [u16],
    ob: &mut [u16],
    oc: &mut [u16],
    od: &mut [u16],
) -> Result<Shares, SharedRefusal>
    ensures result_value { shared result ≡ carried (share_call count (four a.now b.now c.now d.now) allowance (map length (four oa.old ob.old oc.old od.old))) }
    ensures od_after { four oa.new ob.new oc.new od.new ≡ lent_after (share_call count (four a.now b.now c.now d.now) allowance (map length (four oa.old ob.old oc.old od.old))) (four oa.old ob.old oc.old od.old) }
    ensures sharing_demand { SharingDemand count (four a.now b.now c.now d.now) allowance result (four oa.old ob.old oc.old od.old) (four oa.new ob.new oc.new od.new) }
{
    let no_sheets = SharedRefusal {
        refusal: Refusal {
            reason: Reason::BadCount,
            place: 0,
        },
        position: 0,
    };
    if count == 0 {
        return Err(no_sheets);
    }
    if 4 < count {
        return Err(no_sheets);
    }
    let mut words = [[0u16; 568]; 4];
    let sources = read_sheets(count, a, b, c, d, &mut words);
    match first_refused(count, sources) {
        Some(refused) => Err(refused),
        None => serve(
            count,
            sources,
            &words,
            allowance,
            &mut oa[..],
            &mut ob[..],
            &mut oc[..],
            &mut od[..],
        ),
    }
}
