// One pass over the sets of atoms (document 02, K2).
ghost use Rattle.std.specs.Prelude.{◌≡◌, ◌++◌, ◌*◌, ◌≤◌, length, set};
ghost use Rattle.semantics.specs.Words.{program_room, program_in};
ghost use Rattle.semantics.specs.Definitions.Sheet.{most_atoms};
ghost use Rattle.semantics.specs.Definitions.Stable.{stable_sets};
ghost use Rattle.semantics.specs.Definitions.Pass.{gathered};
ghost use Rattle.semantics.specs.Definitions.Day.{day_constraints};
ghost use Rattle.verdict.specs.Verdicts.{gathered_by};
ghost use Rattle.verdict.specs.Over.{over};

use sets::{full, power};
use stable::kept::Nogoods;
use stable::nogood::Nogood;
use stable::positive::PositiveRule;
use stable::test_set;

// What the pass gathers: the atoms that are known and those that are possible in the stable sets, how many these are, and how many sets
// were tested.
#[derive(Clone, Copy, PartialEq, Eq, Debug)]
pub struct Gathered {
    pub known: u16,
    pub possible: u16,
    pub sets: usize,
    pub tests: usize,
}

// Writes i as word n, where there is such a word.
fn put(i: u16, n: usize, out: &mut [u16])
    ensures { out.new ≡ set out.old n i }
{
    if n < out.len() {
        out[n] = i;
    }
}

// Known and possible in one pass, which tests each set of atoms once, under the day's masks; and the sets that pass, by rising number, as
// many as there are words lent. At the beginning the nogoods exclude nothing: no set has an atom and lacks it.
pub fn gather(
    program: &[u16],
    rules: usize,
    atoms: usize,
    ins: u16,
    outs: u16,
    out: &mut [u16],
) -> Gathered
    requires { (4 * rules ≤ length program.now) × (rules ≤ program_room) × (atoms ≤ most_atoms) }
    ensures result_value { gathered_by result ≡ gathered atoms (program_in program.now rules ++ day_constraints ins outs) }
    ensures out_after { out.new ≡ over (stable_sets atoms (program_in program.now rules ++ day_constraints ins outs)) out.old }
{
    // Counted as usize: as u16 the end would be tested by a shift at each set.
    let end = power(atoms as u16) as usize;
    // No heap: a fixed room, for as many rules as a program has room for.
    let mut room = [PositiveRule { head: 0, plain: 0 }; 71];
    let mut nogoods = Nogoods::new(Nogood { has: 1, lacks: 1 });
    let mut known = full(atoms as u16);
    let mut possible = 0;
    let mut sets = 0;
    let mut tests = 0;
    for i in 0..end {
        let set = i as u16;
        if test_set(program, rules, ins, outs, set, &mut nogoods, &mut room[..]) {
            put(set, sets, &mut out[..]);
            known = known & set;
            possible = possible | set;
            sets += 1;
        }
        tests += 1;
    }
    Gathered {
        known,
        possible,
        sets,
        tests,
    }
}
