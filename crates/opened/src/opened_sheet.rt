// An opened sheet, and its rules by number. `fetch` of the crate's root makes one of the bytes that it takes, and nothing else does.
ghost use Rattle.std.specs.Prelude.{◌≡◌, ◌+◌, ◌*◌, ◌≤◌};
ghost use Rattle.semantics.specs.Definitions.Sheet.{longest_sheet};
ghost use Rattle.opened.specs.Fetched.{fetched, RulesBegin, RuleByNumber};

// It refers to the lent bytes and remembers where the rules begin, and how many there are.
#[derive(Clone, Copy)]
pub struct OpenedSheet<'a> {
    pub bytes: &'a [u8],
    pub rules_at: usize,
    pub rules: usize,
}

// The opened sheet of accepted bytes.
pub fn opened_at<'a>(bytes: &'a [u8], rules_at: usize, rules: usize) -> OpenedSheet<'a>
    requires { RulesBegin bytes.now rules_at rules }
    ensures { (result.bytes ≡ bytes.entry) × (result.rules_at ≡ rules_at) × (result.rules ≡ rules) }
{
    OpenedSheet {
        bytes,
        rules_at,
        rules,
    }
}

// The rule of a number.
pub fn rule_of<'a>(sheet: OpenedSheet<'a>, number: usize) -> Option<usize>
    requires { RulesBegin sheet.bytes.now sheet.rules_at sheet.rules }
    ensures { RuleByNumber sheet.entry.bytes.now number result }
{
    rule_from(sheet.rules_at, sheet.rules, number)
}

// The work, over the numbers: a rule has sixteen bytes.
fn rule_from(rules_at: usize, rules: usize, number: usize) -> Option<usize>
    requires { rules_at + 16 * rules ≤ longest_sheet }
    ensures { result ≡ fetched rules_at rules number }
{
    if number < rules {
        return Some(rules_at + 16 * number);
    }
    None
}
