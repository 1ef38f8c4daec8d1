// The rules whose bodies hold in a set.
ghost use Rattle.std.specs.Prelude.{◌≡◌, ◌+◌, ◌*◌, ◌≤◌, length};
ghost use Rattle.semantics.specs.Words.{rule_in};
ghost use Rattle.stable.specs.Applied.{applies as appliesIn};
ghost use Rattle.stable.specs.Tested.{ReducedBy};

use super::nogood::{Nogood, by_rule};
use super::positive::PositiveRule;
use sets::{has_and_lacks, meets};

// Do all body literals of rule j hold in i?
fn applies(program: &[u16], j: usize, i: u16) -> bool
    requires { 4 * j + 4 ≤ length program.now }
    ensures { result ≡ appliesIn i (rule_in program.now j) }
{
    let at = 4 * j;
    has_and_lacks(i, program[at + 1] | program[at + 3], program[at + 2])
}

// Writes the rules whose bodies hold in i, by their heads and plain atoms, and says how many they are. The first of them whose head doesn't
// meet i ends it: i is no model, and the rule's nogood is the answer.
pub fn reduce(
    program: &[u16],
    rules: usize,
    i: u16,
    out: &mut [PositiveRule],
) -> Result<usize, Nogood>
    requires { (4 * rules ≤ length program.now) × (rules ≤ length out.old) }
    ensures out_len_unchanged { length out.new ≡ length out.old }
    ensures reduced_by { ReducedBy program.now rules i out.new result }
{
    let mut n = 0;
    for j in 0..rules {
        if applies(program, j, i) {
            let from = 4 * j;
            let head = program[from];
            if !meets(head, i) {
                return Err(by_rule(program, j));
            }
            out[n] = PositiveRule {
                head,
                plain: program[from + 1],
            };
            n += 1;
        }
    }
    Ok(n)
}
