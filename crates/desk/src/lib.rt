// The listing for the desk program, which is written in Rust: on numbers and bytes, two bytes a word, low byte first.
#![tactic(auto)]

mod words;

ghost use Rattle.std.specs.Prelude.{◌≡◌, length};
ghost use Rattle.semantics.specs.Definitions.Day.{of_day};
ghost use Rattle.semantics.specs.Definitions.Returned.{afterwards};
ghost use Rattle.semantics.specs.Definitions.Desk.{desk_call, desk_number, desk_bytes};
ghost use Rattle.desk.specs.Demand3.{DeskDemand};
ghost use Rattle.desk.specs.Days.{DeskDay};

use engine::list;
use words::write_listing;

// The listing under the day's masks, the atoms that are in and those that are out: the six counts and then a record for each world view, into
// a lent buffer. Answers 0, or the number of the refusal times 65,536 plus its place: 1 to 7 and 15, 13, then 9.
#[unsafe(no_mangle)]
pub extern "C" fn budkarv_list(sheet: &[u8], ins: u16, outs: u16, bytes: &mut [u8]) -> u32
    ensures value { result ≡ desk_number (desk_call (of_day sheet.now ins outs) (length bytes.old)) }
    ensures bytes_after { bytes.new ≡ afterwards desk_bytes (desk_call (of_day sheet.now ins outs) (length bytes.old)) bytes.old }
    ensures desk_demand { DeskDemand (of_day sheet.now ins outs) result bytes.old bytes.new }
    ensures desk_day { DeskDay sheet.now ins outs result bytes.old bytes.new }
{
    // four words for each of at most 4,096 views
    let mut records = [0u16; 16384];
    match list(sheet, ins, outs, &mut records) {
        Ok(tally) => {
            if bytes.len() / 2 < 6 + 4 * tally.views {
                return 9 * 65536 + tally.views as u32;
            }
            write_listing(tally, &records, bytes);
            0
        }
        Err(refusal) => refusal.reason.number() as u32 * 65536 + refusal.place as u32,
    }
}
