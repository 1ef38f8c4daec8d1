// The bytes of a calendar, step by step.
ghost use Rattle.std.specs.Prelude.{◌≡◌, [], ◌+◌, ◌≤◌, length, take, IfOk};
ghost use Rattle.semantics.specs.Definitions.Reading.{field, times};
ghost use Rattle.semantics.specs.Definitions.Sheet.{count_at};
ghost use Rattle.semantics.specs.Definitions.Calendar.{most_entries, proper as isProper, entry_at as entryAt, calendar_of};
ghost use Rattle.calendar.specs.Entries.{entry_of, entries_in};
ghost use Rattle.calendar.specs.Steps.{reading_by};

use super::hours::Entry;
use answers::{Reason, Refusal};
use sheet::{present, word};

// The number of entries: one byte, at most 64.
fn count(c: &[u8]) -> Result<usize, Refusal>
    ensures { count_at c.now most_entries 0 ≡ reading_by (λ n. field n 1) result }
{
    if present(c, 0, 1) {
        let n = c[0] as usize;
        if 64 < n {
            return Err(Refusal {
                reason: Reason::OverLimit,
                place: 0,
            });
        }
        return Ok(n);
    }
    Err(Refusal {
        reason: Reason::EndsTooSoon,
        place: c.len(),
    })
}

// Is it a rule of the sheet, and are these two minutes of the week that differ?
fn proper(rules: usize, e: Entry) -> bool
    ensures { result ≡ isProper rules (entry_of e) }
{
    if rules <= e.rule as usize {
        return false;
    }
    if 10079 < e.first {
        return false;
    }
    if 10079 < e.end {
        return false;
    }
    e.first != e.end
}

// The entry whose five bytes begin at a place: all of them are there before it is judged.
fn entry_at(c: &[u8], rules: usize, at: usize) -> Result<Entry, Refusal>
    ensures { entryAt c.now rules at ≡ reading_by (λ e. field (entry_of e) (at + 5)) result }
{
    if present(c, at, 5) {
        let e = Entry {
            rule: c[at] as u16,
            first: word(c, at + 1),
            end: word(c, at + 3),
        };
        if proper(rules, e) {
            return Ok(e);
        }
        return Err(Refusal {
            reason: Reason::BadEntry,
            place: at,
        });
    }
    Err(Refusal {
        reason: Reason::EndsTooSoon,
        place: c.len(),
    })
}

// So many entries, after the count; answers the place after them.
fn entries(c: &[u8], rules: usize, n: usize, out: &mut [Entry]) -> Result<usize, Refusal>
    requires { (n ≤ length out.old) × (n ≤ most_entries) }
    ensures out_len_unchanged { length out.new ≡ length out.old }
    ensures value { times n [] (λ _. entryAt c.now rules) 1 ≡ reading_by (λ end. field (entries_in (take n out.new)) end) result }
{
    let mut at = 1;
    for i in 0..n {
        out[i] = entry_at(c, rules, at)?;
        at += 5;
    }
    Ok(at)
}

// The calendar of a sheet with so many rules: answers the number of its entries, which are then the first ones.
pub fn read(c: &[u8], rules: usize, out: &mut [Entry]) -> Result<usize, Refusal>
    requires { most_entries ≤ length out.old }
    ensures out_len_unchanged { length out.new ≡ length out.old }
    ensures upper_bound { IfOk result (λ n. n ≤ most_entries) }
    ensures value { calendar_of c.now rules ≡ reading_by (λ n. field (entries_in (take n out.new)) (length c.now)) result }
{
    let n = count(c)?;
    let end = entries(c, rules, n, &mut out[..])?;
    if end == c.len() {
        return Ok(n);
    }
    Err(Refusal {
        reason: Reason::ExtraBytes,
        place: end,
    })
}
