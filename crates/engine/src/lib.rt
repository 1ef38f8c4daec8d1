// The calls sold: bytes in, answers out, or a refusal by its reason and its place. No call has a `requires`, and each contract is the whole
// answer and every lent word for every input.
#![tactic(auto)]

mod in_order;
mod lent;
mod yes_no_open;

ghost use Rattle.std.specs.Prelude.{◌≡◌, length};
ghost use Rattle.semantics.specs.Definitions.Check.{check as checkOf};
ghost use Rattle.semantics.specs.Definitions.Returned.{answer, afterwards};
ghost use Rattle.semantics.specs.Definitions.Calls.{verdict_call, belief_sets_call, list_call, records_of, query_call};
ghost use Rattle.semantics.specs.Definitions.Calendar.{of_minute, changes_call};
ghost use Rattle.semantics.specs.Definitions.Day.{of_day};
ghost use Rattle.engine.specs.Answers.{checked, judged, counted, listed, queried};
ghost use Rattle.engine.specs.Demand1.{CheckDemand};
ghost use Rattle.engine.specs.Demand2.{VerdictDemand, SetsDemand};
ghost use Rattle.engine.specs.Demand3.{ListingDemand};
ghost use Rattle.engine.specs.Queries.{QueryDemand};
ghost use Rattle.engine.specs.Hours.{MinuteDemand, ChangesDemand};
ghost use Rattle.engine.specs.Days.{VerdictDay, SetsDay, ListingDay, QueryDay};
ghost use Rattle.engine.specs.Opposites.{SetsOpposites};

pub use answers::{Reason, Refusal, Tally};
use calendar::{Entry, minutes_of_change};
use in_order::{list_from, list_in_order};
use lent::write;
pub use sharing::{Share, SharedRefusal, Shares, share};
use sheet::open;
use source::minute::{at_minute, with_calendar};
use source::{for_atom, for_guess, of_day};
pub use verdict::Verdict;
use verdict::{belief_sets as belief_sets_on, verdict_on};
use yes_no_open::yes_no_open;

// What the check of an accepted sheet answers: the numbers of atoms, of rules and of negations.
#[derive(Clone, Copy, Debug, PartialEq, Eq)]
pub struct Checked {
    pub atoms: usize,
    pub rules: usize,
    pub negations: usize,
}

// What the query of an atom answers: `None` where there is no world view; else whether the atom is known in every one, possible in none, or
// neither.
#[derive(Clone, Copy, Debug, PartialEq, Eq)]
pub enum Queried {
    Yes,
    No,
    Open,
    None,
}

// Checks a sheet: refusals 1 to 7 and 15.
pub fn check(sheet: &[u8]) -> Result<Checked, Refusal>
    ensures result_value { checked result ≡ checkOf sheet.now }
    ensures check_demand { CheckDemand sheet.now result }
{
    let x = open(sheet)?;
    Ok(Checked {
        atoms: x.atoms,
        rules: x.rules,
        negations: x.negations,
    })
}

// The verdict on a guess under the day's masks, the atoms that are in and those that are out: refusals 1 to 7 and 15, 13, then 8.
pub fn verdict(sheet: &[u8], ins: u16, outs: u16, guess: u32) -> Result<Verdict, Refusal>
    ensures result_value { judged result ≡ verdict_call (of_day sheet.now ins outs) guess }
    ensures verdict_demand { VerdictDemand (of_day sheet.now ins outs) guess result }
    ensures verdict_day { VerdictDay sheet.now ins outs guess result }
{
    let mut words = [0u16; 568];
    let source = of_day(sheet, ins, outs, &mut words[..]);
    let x = for_guess(source, guess)?;
    Ok(verdict_on(&words[..], x, guess as u16))
}

// The belief sets of a guess under the day's masks, by rising number, into a lent buffer; answers how many there are. Refusals 1 to 7 and 15,
// 13, 8, then 9.
pub fn belief_sets(
    sheet: &[u8],
    ins: u16,
    outs: u16,
    guess: u32,
    out: &mut [u16],
) -> Result<usize, Refusal>
    ensures result_value { counted result ≡ answer length (belief_sets_call (of_day sheet.now ins outs) guess (length out.old)) }
    ensures out_after { out.new ≡ afterwards (λ w. w) (belief_sets_call (of_day sheet.now ins outs) guess (length out.old)) out.old }
    ensures sets_demand { SetsDemand (of_day sheet.now ins outs) guess result out.old out.new }
    ensures sets_day { SetsDay sheet.now ins outs guess result out.old out.new }
    ensures sets_opposites { SetsOpposites sheet.now result out.new }
{
    let mut words = [0u16; 568];
    let source = of_day(sheet, ins, outs, &mut words[..]);
    let x = for_guess(source, guess)?;
    let mut room = [0u16; 32768];
    let n = belief_sets_on(&words[..], x, guess as u16, &mut room[..]);
    if out.len() < n {
        return Err(Refusal {
            reason: Reason::ShortBuffer,
            place: n,
        });
    }
    write(&room[..], n, &mut out[..]);
    Ok(n)
}

// The listing under the day's masks: a record of four words for each world view, in the order, into a lent buffer, and the six counts.
// Refusals 1 to 7 and 15, 13, then 9.
pub fn list(sheet: &[u8], ins: u16, outs: u16, out: &mut [u16]) -> Result<Tally, Refusal>
    ensures result_value { listed result ≡ answer (λ v. v.tally) (list_call (of_day sheet.now ins outs) (length out.old)) }
    ensures out_after { out.new ≡ afterwards records_of (list_call (of_day sheet.now ins outs) (length out.old)) out.old }
    ensures listing_demand { ListingDemand (of_day sheet.now ins outs) result out.old out.new }
    ensures listing_day { ListingDay sheet.now ins outs result out.old out.new }
{
    let mut words = [0u16; 568];
    let source = of_day(sheet, ins, outs, &mut words[..]);
    list_from(source, &words[..], &mut out[..])
}

// The listing at a minute: that of the sheet with only the rules in force, and all its pairs. Refusals 1 to 7 and 15 of the whole sheet, then 1, 2, 11 and 6 of the
// calendar, then 12, then 9.
pub fn list_at(
    sheet: &[u8],
    calendar: &[u8],
    minute: u32,
    out: &mut [u16],
) -> Result<Tally, Refusal>
    ensures result_value { listed result ≡ answer (λ v. v.tally) (list_call (of_minute sheet.now calendar.now minute) (length out.old)) }
    ensures out_after { out.new ≡ afterwards records_of (list_call (of_minute sheet.now calendar.now minute) (length out.old)) out.old }
    ensures minute_demand { MinuteDemand sheet.now calendar.now minute result out.old out.new }
{
    let mut words = [0u16; 568];
    let source = at_minute(sheet, calendar, minute, &mut words[..]);
    list_from(source, &words[..], &mut out[..])
}

// The minutes of change, rising, into a lent buffer; answers how many there are. Refusals 1 to 7 and 15 of the sheet, then 1, 2, 11 and 6 of
// the calendar, then 9.
pub fn changes(sheet: &[u8], calendar: &[u8], out: &mut [u16]) -> Result<usize, Refusal>
    ensures result_value { counted result ≡ answer length (changes_call sheet.now calendar.now (length out.old)) }
    ensures out_after { out.new ≡ afterwards (λ w. w) (changes_call sheet.now calendar.now (length out.old)) out.old }
    ensures changes_demand { ChangesDemand sheet.now calendar.now result out.old out.new }
{
    let none = Entry {
        rule: 0,
        first: 0,
        end: 0,
    };
    let mut entries = [none; 64];
    let (x, n) = with_calendar(sheet, calendar, &mut entries[..])?;
    let mut minutes = [0u16; 10080];
    let count = minutes_of_change(&entries[..n], x.rules, &mut minutes[..]);
    if out.len() < count {
        return Err(Refusal {
            reason: Reason::ShortBuffer,
            place: count,
        });
    }
    write(&minutes[..], count, &mut out[..]);
    Ok(count)
}

// The query of an atom under the day's masks: refusals 1 to 7 and 15, 13, then 10.
pub fn query(sheet: &[u8], ins: u16, outs: u16, atom: u32) -> Result<Queried, Refusal>
    ensures result_value { queried result ≡ query_call (of_day sheet.now ins outs) atom }
    ensures query_demand { QueryDemand (of_day sheet.now ins outs) atom result }
    ensures query_day { QueryDay sheet.now ins outs atom result }
{
    let mut words = [0u16; 568];
    let source = of_day(sheet, ins, outs, &mut words[..]);
    let x = for_atom(source, atom)?;
    let mut records = [0u16; 16384];
    let t = list_in_order(&words[..], x, &mut records[..]);
    if t.views == 0 {
        return Ok(Queried::None);
    }
    Ok(yes_no_open(&records[..], t.views, atom as u16))
}
