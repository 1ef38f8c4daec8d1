// The lines that the program `views` prints, as bytes. Each function writes its line to the front of a lent buffer and answers the line's
// length; what stands after the line is kept. Names are those that can be read off the bytes of the sheet: all of them if it is accepted.
#![tactic(auto)]

mod bytes;
mod names;
mod numbers;

ghost use Rattle.std.specs.Prelude.{◌≤◌, length};
ghost use Rattle.semantics.specs.Definitions.Check.{numbers};
ghost use Rattle.semantics.specs.Definitions.Program.{sheet_line, view_line, set_line, tally_line, refused_line};
ghost use Rattle.text.specs.Appended.{Counts};
ghost use Rattle.text.specs.Lines.{Holds, HoldsFor, view_read, set_read, tally_from};

use answers::Tally;
pub use bytes::put;
use names::put_names;
pub use numbers::{put_decimal, put_field};

// `sheet`, atoms, rules, negations.
pub fn sheet_line(atoms: usize, rules: usize, negations: usize, out: &mut [u8]) -> usize
    requires { 256 ≤ length out.old }
    ensures counts { Counts result out.new }
    ensures holds { Holds (sheet_line (numbers atoms rules negations)) out.old out.new result }
{
    let a = put(b"sheet", 0, out);
    let b = put_field(atoms, a, out);
    let c = put_field(rules, b, out);
    let d = put_field(negations, c, out);
    put(b"\n", d, out)
}

// `view`, guess, number of sets, names of the known atoms.
pub fn view_line(sheet: &[u8], guess: u16, sets: u16, known: u16, out: &mut [u8]) -> usize
    requires { 256 ≤ length out.old }
    ensures counts { Counts result out.new }
    ensures holds { Holds (view_read sheet.now guess sets known) out.old out.new result }
    ensures holds_for { HoldsFor sheet.now (λ names. view_line names guess sets known) out.old out.new result }
{
    let a = put(b"view", 0, out);
    let b = put_field(guess as usize, a, out);
    let c = put_field(sets as usize, b, out);
    let d = put_names(sheet, known, c, out);
    put(b"\n", d, out)
}

// `set` and the names of its atoms.
pub fn set_line(sheet: &[u8], set: u16, out: &mut [u8]) -> usize
    requires { 256 ≤ length out.old }
    ensures counts { Counts result out.new }
    ensures holds { Holds (set_read sheet.now set) out.old out.new result }
    ensures holds_for { HoldsFor sheet.now (λ names. set_line names set) out.old out.new result }
{
    let a = put(b"set", 0, out);
    let b = put_names(sheet, set, a, out);
    put(b"\n", b, out)
}

// `tally`, views, covered, ruled, tested, empty, other.
pub fn tally_line(tally: Tally, out: &mut [u8]) -> usize
    requires { 256 ≤ length out.old }
    ensures counts { Counts result out.new }
    ensures holds { Holds (tally_line (tally_from tally)) out.old out.new result }
{
    let a = put(b"tally", 0, out);
    let b = put_field(tally.views, a, out);
    let c = put_field(tally.covered, b, out);
    let d = put_field(tally.ruled, c, out);
    let e = put_field(tally.tested, d, out);
    let f = put_field(tally.empty, e, out);
    let g = put_field(tally.other, f, out);
    put(b"\n", g, out)
}

// `refused`, number, place.
pub fn refused_line(number: u8, place: usize, out: &mut [u8]) -> usize
    requires { 256 ≤ length out.old }
    ensures counts { Counts result out.new }
    ensures holds { Holds (refused_line number place) out.old out.new result }
{
    let a = put(b"refused", 0, out);
    let b = put_field(number as usize, a, out);
    let c = put_field(place, b, out);
    put(b"\n", c, out)
}
