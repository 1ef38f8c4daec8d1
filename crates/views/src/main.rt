// Reads one sheet from standard input and prints its world views, line by line (document 01, "Query and program"). What a line holds:
// crate `text`; what it says: crate `engine`. A read or a write that fails ends it with its error.
#![tactic(auto)]

ghost use Rattle.std.specs.Prelude.{◌≡◌, ◌+◌, ◌*◌, ◌≤◌, length, get_or, IfOk};
ghost use Rattle.semantics.specs.Definitions.Setting.{Setting};
ghost use Rattle.semantics.specs.Definitions.Check.{of_sheet};
ghost use Rattle.semantics.specs.Definitions.Returned.{accepted};
ghost use Rattle.semantics.specs.Theorems.Calls.{GuessOf};
ghost use Rattle.semantics.specs.Theorems.Records.{RecordsOf};

use engine::{Refusal, Tally, belief_sets, check, list};
use std::io;
use std::io::{Read, Stdin, Stdout, Write};

// Each of the five prints one line. A closure for the line is no plainer: each call would have to state what it counts and writes.
fn print_sheet(atoms: usize, rules: usize, negations: usize, mut out: Stdout) -> io::Result<()> {
    let mut line = [0u8; 256];
    let n = text::sheet_line(atoms, rules, negations, &mut line);
    out.write_all(&line[..n])
}

fn print_view(sheet: &[u8], guess: u16, sets: u16, known: u16, mut out: Stdout) -> io::Result<()> {
    let mut line = [0u8; 256];
    let n = text::view_line(sheet, guess, sets, known, &mut line);
    out.write_all(&line[..n])
}

fn print_set(sheet: &[u8], set: u16, mut out: Stdout) -> io::Result<()> {
    let mut line = [0u8; 256];
    let n = text::set_line(sheet, set, &mut line);
    out.write_all(&line[..n])
}

fn print_tally(tally: Tally, mut out: Stdout) -> io::Result<()> {
    let mut line = [0u8; 256];
    let n = text::tally_line(tally, &mut line);
    out.write_all(&line[..n])
}

fn print_refused(refusal: Refusal, mut out: Stdout) -> io::Result<()> {
    let mut line = [0u8; 256];
    let n = text::refused_line(refusal.reason.number(), refusal.place, &mut line);
    out.write_all(&line[..n])
}

fn each_set(sheet: &[u8], sets: &[u16], out: Stdout) -> io::Result<()> {
    for set in sets {
        print_set(sheet, *set, out)?;
    }
    Ok(())
}

// The belief sets of a guess, without day masks. There are no more than 2^15, one word each, so they are not refused.
fn sets_of(sheet: &[u8], guess: u16, out: Stdout) -> io::Result<()>
    requires { (s : Setting) × GuessOf (of_sheet sheet.now) guess s }
{
    let mut sets = [0u16; 32768];
    match belief_sets(sheet, 0, 0, guess as u32, &mut sets) {
        Ok(count) => each_set(sheet, &sets[..count], out),
        Err(_) => unreachable!(),
    }
}

// The view whose record begins at a word.
fn view_at(sheet: &[u8], records: &[u16], at: usize, out: Stdout) -> io::Result<()>
    requires at_in_bounds { at + 4 ≤ length records.now }
    requires guess_of { (s : Setting) × GuessOf (of_sheet sheet.now) (get_or records.now at 0) s }
{
    let guess = records[at];
    print_view(sheet, guess, records[at + 3], records[at + 1], out)?;
    sets_of(sheet, guess, out)
}

// The views of the n records of a sheet.
fn each_view(sheet: &[u8], records: &[u16], n: usize, out: Stdout) -> io::Result<()>
    requires n_in_bounds { 4 * n ≤ length records.now }
    requires sheet_value { (s : Setting) × (of_sheet sheet.now ≡ accepted s) × RecordsOf s n records.now }
{
    for i in 0..n {
        view_at(sheet, records, 4 * i, out)?;
    }
    Ok(())
}

// The views and the tally of an accepted sheet, without day masks. There are no more than 4,096, four words each, so the listing is not refused.
fn listing(sheet: &[u8], out: Stdout) -> io::Result<()>
    requires { (s : Setting) × (of_sheet sheet.now ≡ accepted s) }
{
    let mut records = [0u16; 16384];
    match list(sheet, 0, 0, &mut records) {
        Ok(tally) => {
            each_view(sheet, &records, tally.views, out)?;
            print_tally(tally, out)
        }
        Err(_) => unreachable!(),
    }
}

fn answer(sheet: &[u8], out: Stdout) -> io::Result<()> {
    match check(sheet) {
        Ok(x) => {
            print_sheet(x.atoms, x.rules, x.negations, out)?;
            listing(sheet, out)
        }
        Err(refusal) => print_refused(refusal, out),
    }
}

// Reads until the buffer is full or the input ends, and answers how many bytes there are.
fn read_full(mut input: Stdin, buffer: &mut [u8]) -> io::Result<usize>
    ensures { IfOk result (λ n. n ≤ length buffer.new) }
{
    let mut done = 0;
    while done < buffer.len() {
        let n = input.read(&mut buffer[done..])?;
        if n == 0 {
            break;
        }
        done += n;
    }
    Ok(done)
}

// The first 1,237 bytes decide: a sheet has at most 1,236.
fn main(rt: HostRuntime) -> io::Result<()> {
    let mut sheet = [0u8; 1237];
    let n = read_full(rt.stdin(), &mut sheet)?;
    answer(&sheet[..n], rt.stdout())
}
