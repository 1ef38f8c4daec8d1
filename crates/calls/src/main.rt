// Requests of the calls sold, from standard input until it ends, and a line for each. All numbers have the low byte first.
//
// A request: one byte, the call; two bytes, the sheet's length, at most 2,048, and the sheet; four bytes, the argument; two and two bytes, the
// day masks, in and out; two bytes, the companion's length, at most 12,288, and the companion; two bytes, the number of cells lent, at most
// 33,000; two bytes, f. Before the call, cell i holds (f + i) mod 65,536. What a call does not take is passed over.
//
// Its line: the call; the refusal's number and place, or 0 and the values; a colon; the cells after the call.
//
// call                 takes                                           values                                                        cells
// 0 check              sheet                                           atoms, rules, k                                               as lent
// 1 verdict            sheet, masks, argument: guess                   0: empty; 1 and found; 2, known, possible and number of sets  as lent
// 2 belief sets        sheet, masks, argument: guess                   their number                                                  words
// 3 list               sheet, masks                                    views, covered, ruled, tested, empty, other                   words
// 4 query              sheet, masks, argument: atom                    0: yes; 1: no; 2: open; 3: none                               as lent
// 5 list at a minute   sheet, companion: calendar, argument: minute    as 3                                                          words
// 6 minutes of change  sheet, companion: calendar                      their number                                                  words
// 7 shared allowance   companion: sheets, argument: allowance          tests in all; for each sheet 1: finished, or 0; tests, views  the buffers
//
// The companion of 7: one byte, the number of sheets that the call is told; then for each of them, and no more than four: two bytes, its
// length, at most 2,048, and the sheet; two bytes, the number of cells in its buffer, at most 8,000. Each buffer begins anew at f; they are
// printed one after the other. A refusal of 7 has the sheet's position after the place.
//
// A request that is cut off, too long or of another call ends the program, and nothing is printed for it; so too one of call 7 whose companion
// is cut off, has bytes left or is over a bound. A read or a write that fails ends it with its error.
#![tactic(auto)]

mod call;
mod companion;
mod fields;
mod line;
mod output;
mod request;
mod shared;

use request::{End, request};
use std::io;

// A proved loop ends, and nothing says that the input does: the requests are counted up to 2^64.
fn main(rt: HostRuntime) -> io::Result<()> {
    for _ in 0..u64::MAX {
        match request(rt.stdin(), rt.stdout()) {
            Ok(()) => {}
            Err(End::NoRequest) => return Ok(()),
            Err(End::Failed(error)) => return Err(error),
        }
    }
    Ok(())
}
