// A listing that can be paused: its state goes in and comes back by value. The records of the views met stand in words lent beside it, and so does
// the reduct of the guess that waits for its test.
ghost use Rattle.std.specs.Prelude.{◌≡◌, false, ℕ, Some, ◌+◌, ◌*◌, ◌^◌, ◌<◌, ◌≤◌, length, get_or};
ghost use Rattle.semantics.specs.Definitions.Check.{most_negations};
ghost use Rattle.semantics.specs.Definitions.Order.{members_below};
ghost use Rattle.semantics.specs.Words.{program_room};
ghost use Rattle.semantics.specs.Walk.{records_room, advance as advanceIn};
ghost use Rattle.semantics.specs.Theorems.Order.{Enumerates};
ghost use Rattle.semantics.specs.Theorems.Tally.{AtMost};
ghost use Rattle.guess.specs.Programs.{setting_in, Outlines};
ghost use Rattle.records.specs.Records.{views_in, LargerFirst};
ghost use Rattle.records.specs.Outcomes.{tally_from};
ghost use Rattle.listing.specs.Walks.{walked_in};
ghost use Rattle.listing.specs.Pauses.{fresh, waits, Ready, Looked, Advanced, Along, Stands};

use answers::Tally;
use guess::outline::Outline;
use guess::reduct::reduct;
use propagation::contradicted;
use records::covered_by;
use records::outcome::{Outcome, count, judged, note};
use sets::power;

// How many entries of the order are passed, and the six counts; and where the next guess is known to be one that is tested, how many rules its
// reduct has.
#[derive(Clone, Copy, Debug, PartialEq, Eq)]
pub struct Paused {
    pub at: usize,
    pub tally: Tally,
    pub waiting: Option<usize>,
}

impl Paused {
    // Before the first guess.
    pub fn start() -> Self
        ensures { result ≡ fresh }
    {
        Paused {
            at: 0,
            tally: Tally::default(),
            waiting: None,
        }
    }

    // Before its test, a guess that no view met covers: where it is ruled it is counted; else it waits, its reduct in the program.
    fn look(mut self, words: &[u16], x: Outline, guess: u16, program: &mut [u16]) -> Self
        requires outlines { Outlines x words.now × (guess < 2 ^ x.negations) × (4 * program_room ≤ length program.old) }
        requires waits_value { (waits self ≡ false) × AtMost (tally_from self.tally) (2 ^ most_negations) }
        ensures program_len_unchanged { length program.new ≡ length program.old }
        ensures looked { Looked x words.now guess self result program.new }
    {
        let rules = reduct(words, x, guess, &mut program[..]);
        if contradicted(&program[..], rules, x, guess) {
            let next = count(self.tally, Outcome::Ruled);
            self.tally = next;
            return self;
        }
        self.waiting = Some(rules);
        self
    }

    // The test of the guess that waits, by the first rules of the program; its record is written where it is a view.
    fn test(
        mut self,
        words: &[u16],
        x: Outline,
        guess: u16,
        rules: usize,
        program: &[u16],
        records: &mut [u16],
    ) -> Self
        requires outlines { Outlines x words.now × (guess < 2 ^ x.negations) × (4 * program_room ≤ length program.now) }
        requires at_most { AtMost (tally_from self.tally) (2 ^ most_negations) × (4 * self.tally.views + 4 ≤ length records.old) × Ready x words.now guess (views_in records.old self.tally.views) program.now rules }
        ensures records_len_unchanged { length records.new ≡ length records.old }
        ensures at_value { (result.at ≡ self.at) × (waits result ≡ false) × (result.tally.tested ≡ self.tally.tested + 1) }
        ensures records_after { walked_in result.tally records.new ≡ advanceIn (setting_in x words.now) (walked_in self.tally records.old) guess }
    {
        let tally = self.tally;
        let outcome = judged(program, rules, x, guess);
        note(outcome, &mut records[4 * tally.views..]);
        let next = count(tally, outcome);
        self.tally = next;
        self.waiting = None;
        self
    }

    // One guess further, a covered one without a reduct; or, where it would be tested and as many tests are made as may be, the same with that guess waiting.
    pub fn advance(
        mut self,
        words: &[u16],
        x: Outline,
        order: &[u16],
        most: usize,
        program: &mut [u16],
        records: &mut [u16],
    ) -> Self
        requires outlines { Outlines x words.now × (self.at < length order.now) × (get_or order.now self.at 0 < 2 ^ x.negations) × (4 * program_room ≤ length program.old) }
        requires at_most { AtMost (tally_from self.tally) (2 ^ most_negations) × (4 * self.tally.views + 4 ≤ length records.old) × LargerFirst records.old self.tally.views }
        requires tested_le_most { (self.tally.tested ≤ most) × ((rules : ℕ) → self.waiting ≡ Some rules → Ready x words.now (get_or order.now self.at 0) (views_in records.old self.tally.views) program.old rules) }
        ensures program_len_unchanged { length program.new ≡ length program.old }
        ensures records_len_unchanged { length records.new ≡ length records.old }
        ensures advanced { Advanced x words.now (get_or order.now self.at 0) most self records.old result program.new records.new }
    {
        let at = self.at;
        let guess = order[at];
        if self.waiting.is_none() {
            let tally = self.tally;
            if covered_by(&records[..], tally.views, guess) {
                let next = count(tally, Outcome::Covered);
                self.tally = next;
                self.at = at + 1;
                return self;
            }
            self = self.look(words, x, guess, &mut program[..]);
        }
        if let Some(rules) = self.waiting {
            let tally = self.tally;
            if tally.tested == most {
                return self;
            }
            self = self.test(words, x, guess, rules, &program[..], &mut records[..]);
        }
        self.at = at + 1;
        self
    }

    // As far as so many tests in all reach, covered and ruled guesses passed over: the next guess waits for a test, or none is left.
    pub fn reach(
        mut self,
        words: &[u16],
        x: Outline,
        order: &[u16],
        most: usize,
        program: &mut [u16],
        records: &mut [u16],
    ) -> Self
        requires outlines { Outlines x words.now × Enumerates x.negations (members_below x.negations order.now) }
        requires program_room_in_bounds { (4 * program_room ≤ length program.old) × (4 * records_room ≤ length records.old) }
        requires tested_le_most { (self.tally.tested ≤ most) × Along x words.now order.now self program.old records.old }
        ensures program_len_unchanged { length program.new ≡ length program.old }
        ensures records_len_unchanged { length records.new ≡ length records.old }
        ensures along { Along x words.now order.now result program.new records.new }
        ensures stands { Stands (setting_in x words.now) order.now most result records.new }
        ensures at_value { waits result ≡ false → result.at ≡ length order.now }
    {
        let end = power(x.negations as u16);
        // No `for`: where it stands is the state that is kept over a pause.
        while self.at < order.len() {
            let at = self.at;
            if order[at] < end {
                self = self.advance(words, x, order, most, &mut program[..], &mut records[..]);
                if self.waiting.is_some() {
                    return self;
                }
            } else {
                self.at += 1;
            }
        }
        self
    }
}
