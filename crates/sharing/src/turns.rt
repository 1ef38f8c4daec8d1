// The turns of the sheets, round by round.
ghost use Rattle.std.specs.Prelude.{◌≡◌, true, false, ℕ, ◌*◌, ◌^◌, ◌<◌, ◌≤◌, length, get_or};
ghost use Rattle.sets.specs.Decides.{Decides};
ghost use Rattle.semantics.specs.Definitions.Check.{most_negations};
ghost use Rattle.semantics.specs.Definitions.Order.{order as order_of};
ghost use Rattle.semantics.specs.Words.{program_room};
ghost use Rattle.semantics.specs.Walk.{records_room};
ghost use Rattle.semantics.specs.Definitions.Sharing.{paid};
ghost use Rattle.order.specs.Table.{table_width};
ghost use Rattle.listing.specs.Pauses.{fresh, waits};
ghost use Rattle.sharing.specs.Held.{setting_from, IsRead, Goes, Has, settings_in, AllRead, AllGo, HasAt, Near, Served, spent_in, FewAll, Idle, Rounded};

use listing::paused::Paused;
use listing::whole::whole;
use source::Source;

// A sheet goes as far as t tests reach.
fn turn(
    t: usize,
    source: Source,
    order: &[u16],
    words: &[u16],
    paused: Paused,
    program: &mut [u16],
    records: &mut [u16],
) -> Paused
    requires order_value { (order.now ≡ order_of table_width) × (4 * program_room ≤ length program.old) × (4 * records_room ≤ length records.old) }
    requires read { IsRead source words.now × Goes source words.now order.now paused program.old records.old × (paused.tally.tested ≤ t) }
    ensures program_len_unchanged { length program.new ≡ length program.old }
    ensures records_len_unchanged { length records.new ≡ length records.old }
    ensures goes { Goes source words.now order.now result program.new records.new }
    ensures has { Has (setting_from source words.now) t result records.new }
{
    match source {
        Ok(x) => paused.reach(words, x, order, t, &mut program[..], &mut records[..]),
        Err(_) => paused,
    }
}

// A round: the first n sheets in their order go as far as t tests reach, while one of the tests allowed is left.
fn round(
    n: usize,
    t: usize,
    allowed: usize,
    sources: [Source; 4],
    order: &[u16],
    words: &[[u16; 568]; 4],
    states: [Paused; 4],
    programs: &mut [[u16; 284]; 4],
    records: &mut [[u16; 16384]; 4],
) -> [Paused; 4]
    requires n_bound { (n ≤ 4) × (length sources ≡ 4) × (length words.now ≡ 4) × (length states ≡ 4) × (length programs.old ≡ 4) × (length records.old ≡ 4) × (order.now ≡ order_of table_width) }
    requires all_read { AllRead sources words.now n × AllGo sources words.now order.now n states programs.old records.old × Near sources words.now n t states }
    ensures programs_len_unchanged { length programs.new ≡ length programs.old }
    ensures records_len_unchanged { length records.new ≡ length records.old }
    ensures rounded { Rounded sources words.now order.now n t allowed states result programs.new records.old records.new }
{
    let mut all = states;
    let mut left = allowed;
    for p in 0..n {
        if left == 0 {
            return all;
        }
        let before = all[p];
        let source = sources[p];
        let after = turn(
            t,
            source,
            order,
            &words[p][..],
            before,
            &mut programs[p][..],
            &mut records[p][..],
        );
        all[p] = after;
        let had = before.tally;
        let has = after.tally;
        left -= has.tested - had.tested;
    }
    all
}

// A sheet goes from its first guess to its last: where the first test leaves more, all guesses are judged at once.
fn to_end(
    source: Source,
    order: &[u16],
    words: &[u16],
    program: &mut [u16],
    records: &mut [u16],
) -> Paused
    requires { (order.now ≡ order_of table_width) × (4 * program_room ≤ length program.old) × (4 * records_room ≤ length records.old) × IsRead source words.now }
    ensures program_len_unchanged { length program.new ≡ length program.old }
    ensures records_len_unchanged { length records.new ≡ length records.old }
    ensures goes { Goes source words.now order.now result program.new records.new }
    ensures has { Has (setting_from source words.now) (2 ^ most_negations) result records.new }
{
    match source {
        Ok(x) => whole(words, x, order, &mut program[..], &mut records[..]),
        Err(_) => Paused::start(),
    }
}

// The first n sheets, none of which has begun, each to its end.
fn to_the_end(
    n: usize,
    sources: [Source; 4],
    order: &[u16],
    words: &[[u16; 568]; 4],
    states: [Paused; 4],
    programs: &mut [[u16; 284]; 4],
    records: &mut [[u16; 16384]; 4],
) -> [Paused; 4]
    requires n_bound { (n ≤ 4) × (length sources ≡ 4) × (length words.now ≡ 4) × (length states ≡ 4) × (length programs.old ≡ 4) × (length records.old ≡ 4) × (order.now ≡ order_of table_width) }
    requires all_read { AllRead sources words.now n × Idle 0 states }
    ensures programs_len_unchanged { length programs.new ≡ length programs.old }
    ensures records_len_unchanged { length records.new ≡ length records.old }
    ensures result_len { (length result ≡ 4) × Idle n result × AllGo sources words.now order.now n result programs.new records.new × ((q : ℕ) → q < n → HasAt sources words.now (2 ^ most_negations) result records.new q) }
{
    let mut all = states;
    for p in 0..n {
        let source = sources[p];
        let end = to_end(
            source,
            order,
            &words[p][..],
            &mut programs[p][..],
            &mut records[p][..],
        );
        all[p] = end;
    }
    all
}

// Does one of the first n sheets wait for a test?
fn some_waits(n: usize, states: [Paused; 4]) -> bool
    requires { (n ≤ 4) × (length states ≡ 4) }
    ensures { Decides ((q : ℕ) × (q < n) × (waits (get_or states q fresh) ≡ true)) result }
{
    for p in 0..n {
        let paused = states[p];
        if paused.waiting.is_some() {
            return true;
        }
    }
    false
}

// All tests made: four terms, no longer than a sum over the states and its bound.
pub fn tests_made(states: [Paused; 4]) -> usize
    requires { (length states ≡ 4) × FewAll states }
    ensures { result ≡ spent_in states }
{
    let a = states[0];
    let b = states[1];
    let c = states[2];
    let d = states[3];
    a.tally.tested + b.tally.tested + c.tally.tested + d.tally.tested
}

// Every sheet afresh, then round after round, until the allowance is spent or all are finished. An allowance that four sheets can't spend takes
// each to its end at once, which is where the rounds end.
pub fn rounds(
    n: usize,
    allowance: usize,
    sources: [Source; 4],
    order: &[u16],
    words: &[[u16; 568]; 4],
    programs: &mut [[u16; 284]; 4],
    records: &mut [[u16; 16384]; 4],
) -> [Paused; 4]
    requires { (n ≤ 4) × (length sources ≡ 4) × (length words.now ≡ 4) × (length programs.old ≡ 4) × (length records.old ≡ 4) × (order.now ≡ order_of table_width) × AllRead sources words.now n }
    ensures programs_len_unchanged { length programs.new ≡ length programs.old }
    ensures records_len_unchanged { length records.new ≡ length records.old }
    ensures result_len { (length result ≡ 4) × Idle n result × Served sources words.now n allowance result records.new × (spent_in result ≡ length (paid allowance (settings_in sources words.now n))) }
    ensures few_all { FewAll result }
{
    let paused = Paused::start();
    let first = [paused; 4];
    if 16384 <= allowance {
        return to_the_end(
            n,
            sources,
            order,
            words,
            first,
            &mut *programs,
            &mut *records,
        );
    }
    let mut states = round(
        n,
        0,
        1,
        sources,
        order,
        words,
        first,
        &mut *programs,
        &mut *records,
    );
    let mut left = allowance;
    let mut t = 0;
    while 0 < left {
        if !some_waits(n, states) {
            return states;
        }
        t += 1;
        let next = round(
            n,
            t,
            left,
            sources,
            order,
            words,
            states,
            &mut *programs,
            &mut *records,
        );
        states = next;
        left = allowance - tests_made(states);
    }
    states
}
