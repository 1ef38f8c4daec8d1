// What the records of the world views say of an atom.
ghost use Rattle.std.specs.Prelude.{◌≡◌, ◌*◌, ◌<◌, ◌≤◌, length};
ghost use Rattle.semantics.specs.Definitions.Query.{yes_no_open};
ghost use Rattle.records.specs.Records.{views_in};
ghost use Rattle.engine.specs.Answers.{asked};

use super::Queried;
use records::atoms::{known_in_all, possible_in_none};

// "yes" if each of the first n records has the atom as known, otherwise "no" if none has it as possible, otherwise "open".
pub fn yes_no_open(records: &[u16], n: usize, atom: u16) -> Queried
    requires { (4 * n ≤ length records.now) × (atom < 16) }
    ensures { asked result ≡ yes_no_open (views_in records.now n) atom }
{
    if known_in_all(records, n, atom) {
        return Queried::Yes;
    }
    if possible_in_none(records, n, atom) {
        return Queried::No;
    }
    Queried::Open
}
