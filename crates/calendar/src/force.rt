// The rules in force at a minute, as one set.
ghost use Rattle.std.specs.Prelude.{◌≡◌, not, ◌≤◌};
ghost use Rattle.sets.specs.Lists.{null};
ghost use Rattle.semantics.specs.Definitions.Calendar.{open_at, entries_of, rules_in_force};
ghost use Rattle.calendar.specs.Entries.{entries_in, Numbered, Entries};
ghost use Rattle.calendar.specs.Force.{unrestricted as unrestrictedOf, held_from};

use super::hours::Entry;
use sets::Set;

// Is the minute in the hours from first to end?
fn open_at(first: u16, end: u16, minute: u16) -> bool
    ensures { result ≡ open_at first end minute }
{
    let begun = first <= minute;
    let before_end = minute < end;
    if end < first {
        return begun | before_end;
    }
    begun & before_end
}

// Has the rule some entry?
fn restricted(entries: &[Entry], rule: u16) -> bool
    ensures { result ≡ not (null (entries_of (entries_in entries.now) rule)) }
{
    entries.iter().any(|e| e.rule == rule)
}

// The rules with no entry.
pub fn unrestricted(entries: &[Entry], rules: usize) -> u64
    requires { rules ≤ 64 }
    ensures { result ≡ unrestrictedOf (entries_in entries.now) rules }
{
    let mut set = 0u64;
    for rule in 0..rules {
        let some = restricted(entries, rule as u16);
        set = set.include(rule as u64, !some);
    }
    set
}

// A set, and the rules of the entries that hold at a minute.
pub fn with_held(entries: &[Entry], set: u64, minute: u16) -> u64
    requires { Numbered entries.now }
    ensures { result ≡ held_from set minute (entries_in entries.now) }
{
    let mut held = set;
    for e in entries {
        let open = open_at(e.first, e.end, minute);
        held = held.include(e.rule as u64, open);
    }
    held
}

// The rules in force at a minute, of so many.
pub fn in_force(entries: &[Entry], rules: usize, minute: u16) -> u64
    requires { Entries rules entries.now }
    ensures { result ≡ rules_in_force (entries_in entries.now) rules minute }
{
    let always = unrestricted(entries, rules);
    with_held(entries, always, minute)
}
