// The minutes of change.
ghost use Rattle.std.specs.Prelude.{◌≡◌, ◌++◌, ◌+◌, ◌≤◌, ◌<◌, length, take};
ghost use Rattle.sets.specs.Lists.{only};
ghost use Rattle.semantics.specs.Definitions.Calendar.{last_minute, minutes_of_change};
ghost use Rattle.calendar.specs.Entries.{entries_in, Entries};
ghost use Rattle.calendar.specs.Next.{nearer_to, next_of};

use super::force::{unrestricted, with_held};
use super::hours::Entry;

// `at`, where it is after the minute and before the best so far; else the best.
fn nearer(minute: u16, best: u16, at: u16) -> u16
    ensures { result ≡ nearer_to minute best at }
{
    if minute < at {
        if at < best {
            return at;
        }
    }
    best
}

// The next minute after this one at which an entry begins or ends; the end of the week where there is none.
fn next(entries: &[Entry], minute: u16) -> u16
    ensures { result ≡ next_of minute (entries_in entries.now) }
{
    let mut best = 10080;
    for e in entries {
        let first = nearer(minute, best, e.first);
        best = nearer(minute, first, e.end);
    }
    best
}

// One word more where `yes`; answers how many there are.
fn add(out: &mut [u16], n: usize, word: u16, yes: bool) -> usize
    requires { n < length out.old }
    ensures out_len_unchanged { length out.new ≡ length out.old }
    ensures out_after { take result out.new ≡ take n out.old ++ only yes word }
    ensures upper_bound { result ≤ n + 1 }
{
    if yes {
        out[n] = word;
        return n + 1;
    }
    n
}

// All of them, of so many rules, into the words; answers how many there are. Only minutes at which an entry begins or ends are looked at.
pub fn minutes_of_change(entries: &[Entry], rules: usize, out: &mut [u16]) -> usize
    requires { Entries rules entries.now × (last_minute < length out.old) }
    ensures out_len_unchanged { length out.new ≡ length out.old }
    ensures upper_bound { result ≤ length out.old }
    ensures out_after { take result out.new ≡ minutes_of_change (entries_in entries.now) rules }
{
    let always = unrestricted(entries, rules);
    let mut before = with_held(entries, always, 10079);
    let mut count = 0;
    let mut minute = 0;
    while minute < 10080 {
        let held = with_held(entries, always, minute);
        count = add(&mut out[..], count, minute, held != before);
        before = held;
        minute = next(entries, minute);
    }
    count
}
