// A sheet with a calendar: what both say, and the source at a minute.
ghost use Rattle.std.specs.Prelude.{◌≡◌, ◌*◌, ◌≤◌, length};
ghost use Rattle.semantics.specs.Words.{program_room};
ghost use Rattle.semantics.specs.Definitions.Calendar.{most_entries, of_minute};
ghost use Rattle.source.specs.Sources.{Reads, ReadsBoth};

use super::Source;
use answers::{Reason, Refusal};
use calendar::{Entry, in_force, read};
use guess::outline::outline_of;
use opened::load_only;
use sheet::{Contents, open};

// What a sheet says, and how many entries its calendar has; or the refusal of one of them.
pub type Scheduled = Result<(Contents, usize), Refusal>;

// Reads the whole sheet, refusals 1 to 7 and 15, and then the calendar: 1, 2, 11 and 6.
pub fn with_calendar(sheet: &[u8], calendar: &[u8], entries: &mut [Entry]) -> Scheduled
    requires { most_entries ≤ length entries.old }
    ensures entries_len_unchanged { length entries.new ≡ length entries.old }
    ensures reads_both { ReadsBoth sheet.now calendar.now result entries.new }
{
    let x = open(sheet)?;
    let n = read(calendar, x.rules, &mut entries[..])?;
    Ok((x, n))
}

// Reads both, then refusal 12, then the rules in force and all pairs.
pub fn at_minute(sheet: &[u8], calendar: &[u8], minute: u32, words: &mut [u16]) -> Source
    requires { 8 * program_room ≤ length words.old }
    ensures words_len_unchanged { length words.new ≡ length words.old }
    ensures reads { Reads (of_minute sheet.now calendar.now minute) result words.new }
{
    let none = Entry {
        rule: 0,
        first: 0,
        end: 0,
    };
    let mut entries = [none; 64];
    let (x, n) = with_calendar(sheet, calendar, &mut entries[..])?;
    if 10079 < minute {
        return Err(Refusal {
            reason: Reason::NoMinute,
            place: 0,
        });
    }
    let set = in_force(&entries[..n], x.rules, minute as u16);
    let rules = load_only(sheet, x, set, &mut words[..]);
    Ok(outline_of(&words[..], x.atoms, rules))
}
