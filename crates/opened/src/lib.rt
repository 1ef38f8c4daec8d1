// An accepted sheet, opened: its rules by number, and its rules and pairs in words.
#![tactic(auto)]

mod opened_sheet;
mod words;

ghost use Rattle.opened.specs.Fetched.{RulesBegin, RuleByNumber};

use opened_sheet::{opened_at, rule_of};
pub use words::{load, load_only};

// The rule of a number of an accepted sheet, whose rules begin at a place and are so many: fetched from the opened sheet. The place of its
// first byte, or `None` where there is no rule of that number.
pub fn fetch(s: &[u8], rules_at: usize, rules: usize, number: usize) -> Option<usize>
    requires { RulesBegin s.now rules_at rules }
    ensures { RuleByNumber s.now number result }
{
    rule_of(opened_at(s, rules_at, rules), number)
}
