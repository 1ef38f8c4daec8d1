// What the calls answer, as fields.
use super::call::Call;
use super::output::Line;
use super::request::Asked;
use engine::{
    Checked, Queried, Refusal, SharedRefusal, Shares, Tally, Verdict, belief_sets, changes, check,
    list, list_at, query, verdict,
};
use std::io;

// What a call accepts, as the fields after the 0.
trait Fields {
    fn put(&self, line: &mut Line) -> io::Result<()>;
}

impl Fields for Checked {
    fn put(&self, line: &mut Line) -> io::Result<()> {
        line.fields(&[self.atoms, self.rules, self.negations])
    }
}

impl Fields for Verdict {
    fn put(&self, line: &mut Line) -> io::Result<()> {
        match *self {
            Verdict::Empty => line.fields(&[0]),
            Verdict::Other { found } => line.fields(&[1, usize::from(found)]),
            Verdict::Verified {
                known,
                possible,
                sets,
            } => line.fields(&[2, usize::from(known), usize::from(possible), sets]),
        }
    }
}

// How many there are.
impl Fields for usize {
    fn put(&self, line: &mut Line) -> io::Result<()> {
        line.fields(&[*self])
    }
}

impl Fields for Tally {
    fn put(&self, line: &mut Line) -> io::Result<()> {
        line.fields(&[
            self.views,
            self.covered,
            self.ruled,
            self.tested,
            self.empty,
            self.other,
        ])
    }
}

impl Fields for Queried {
    fn put(&self, line: &mut Line) -> io::Result<()> {
        let number = match *self {
            Queried::Yes => 0,
            Queried::No => 1,
            Queried::Open => 2,
            Queried::None => 3,
        };
        line.fields(&[number])
    }
}

// The sheets that are there are the first `count`.
fn shares(x: Shares, count: usize, line: &mut Line) -> io::Result<()> {
    line.fields(&[0, x.tests])?;
    for share in [x.first, x.second, x.third, x.fourth].iter().take(count) {
        line.fields(&[usize::from(share.finished), share.tests, share.views])?;
    }
    Ok(())
}

// The refusal's number, place and position, or 0, the tests in all, and what each of so many sheets got.
pub fn shared(r: Result<Shares, SharedRefusal>, count: usize, line: &mut Line) -> io::Result<()> {
    match r {
        Ok(x) => shares(x, count, line),
        Err(e) => {
            refused(e.refusal, line)?;
            line.fields(&[e.position])
        }
    }
}

fn refused(refusal: Refusal, line: &mut Line) -> io::Result<()> {
    line.fields(&[usize::from(refusal.reason.number()), refusal.place])
}

// The refusal's number and place, or 0 and the values.
fn answered<T: Fields + Copy>(r: Result<T, Refusal>, line: &mut Line) -> io::Result<()> {
    match r {
        Ok(x) => {
            line.fields(&[0])?;
            x.put(line)
        }
        Err(refusal) => refused(refusal, line),
    }
}

// What a call on one sheet answers; call 7, which takes other buffers, is none of these.
pub fn answer(
    asked: Asked,
    sheet: &[u8],
    companion: &[u8],
    words: &mut [u16],
    line: &mut Line,
) -> io::Result<()> {
    let Asked {
        call,
        argument,
        ins,
        outs,
    } = asked;
    match call {
        Call::Check => answered(check(sheet), line),
        Call::Verdict => answered(verdict(sheet, ins, outs, argument), line),
        Call::BeliefSets => answered(belief_sets(sheet, ins, outs, argument, words), line),
        Call::List => answered(list(sheet, ins, outs, words), line),
        Call::Query => answered(query(sheet, ins, outs, argument), line),
        Call::ListAtMinute => answered(list_at(sheet, companion, argument, words), line),
        Call::MinutesOfChange | Call::SharedAllowance => {
            answered(changes(sheet, companion, words), line)
        }
    }
}
