// The stability test of a program without K and M, held in words, four a rule (`program_in` of semantics/specs/Words.antt).
#![tactic(auto)]

pub mod growth;
pub mod kept;
pub mod nogood;
pub mod positive;
pub mod reduced;
pub mod smaller;

ghost use Rattle.std.specs.Prelude.{◌≡◌, ◌*◌, ◌≤◌, length};
ghost use Rattle.semantics.specs.Words.{program_in};
ghost use Rattle.semantics.specs.Definitions.Day.{stable_under};
ghost use Rattle.stable.specs.Kept.{NogoodsHold};
ghost use Rattle.stable.specs.Tested.{JudgedBy};

use kept::Nogoods;
use nogood::{Nogood, by_masks, by_smaller};
use positive::PositiveRule;
use reduced::reduce;
use sets::has_and_lacks;
use smaller::smaller_model;

// Is i a stable set of the program that has every in-atom and no out-atom? If not, a nogood says why. Lent is room for the rules whose bodies
// hold in i.
fn judge(
    program: &[u16],
    rules: usize,
    ins: u16,
    outs: u16,
    i: u16,
    room: &mut [PositiveRule],
) -> Result<(), Nogood>
    requires { (4 * rules ≤ length program.now) × (rules ≤ length room.old) }
    ensures room_len_unchanged { length room.new ≡ length room.old }
    ensures judged_by { JudgedBy ins outs (program_in program.now rules) i result }
{
    let n = reduce(program, rules, i, &mut room[..])?;
    if !has_and_lacks(i, ins, outs) {
        return Err(by_masks(ins, outs, i));
    }
    match smaller_model(&room[..n], i) {
        Some(s) => Err(by_smaller(program, rules, i, s)),
        None => Ok(()),
    }
}

// The test of a set: is it a stable set of the program that has every in-atom and no out-atom? The nogoods are asked before all else; a new one
// is kept.
pub fn test_set(
    program: &[u16],
    rules: usize,
    ins: u16,
    outs: u16,
    i: u16,
    nogoods: &mut Nogoods,
    room: &mut [PositiveRule],
) -> bool
    requires rules_in_bounds { (4 * rules ≤ length program.now) × (rules ≤ length room.old) }
    requires nogoods { NogoodsHold ins outs (program_in program.now rules) nogoods.old }
    ensures room_len_unchanged { length room.new ≡ length room.old }
    ensures nogoods_2 { NogoodsHold ins outs (program_in program.now rules) nogoods.new }
    ensures value { result ≡ stable_under ins outs (program_in program.now rules) i }
{
    if nogoods.exclude(i) {
        return false;
    }
    match judge(program, rules, ins, outs, i, &mut room[..]) {
        Ok(()) => true,
        Err(nogood) => {
            nogoods.keep(nogood);
            false
        }
    }
}
