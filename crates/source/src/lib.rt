// The source of a call: a sheet under the day's masks, or at a minute, as the rules of a program with K and M in words of the call's own,
// eight a rule, and their outline; or the refusal that comes before. 568 words have room for 64 rules and 7 pairs.
#![tactic(auto)]

pub mod minute;

ghost use Rattle.std.specs.Prelude.{◌≡◌, ◌*◌, ◌^◌, ◌≤◌, length};
ghost use Rattle.semantics.specs.Words.{program_room};
ghost use Rattle.semantics.specs.Definitions.Sheet.{most_atoms};
ghost use Rattle.semantics.specs.Definitions.Day.{masks_fit, of_day};
ghost use Rattle.answers.specs.declared.reason.Reason.TheVariants.{NoGuess, NoAtom};
ghost use Rattle.source.specs.Sources.{Reads, Within, CheckedBy};

use answers::{Reason, Refusal};
use guess::outline::Outline;
use opened::load;
use sets::{meets, power};
use sheet::open;

pub type Source = Result<Outline, Refusal>;

// Is every in-atom and every out-atom one of so many atoms, and no atom both?
fn masks_fit(ins: u16, outs: u16, atoms: usize) -> bool
    requires { atoms ≤ most_atoms }
    ensures { result ≡ masks_fit ins outs atoms }
{
    let end = power(atoms as u16);
    let ins_fit = ins < end;
    let outs_fit = outs < end;
    let both = meets(ins, outs);
    ins_fit & outs_fit & !both
}

// Reads a sheet, refusals 1 to 7 and 15, and then judges the day's masks, 13. After this no byte of the sheet is looked at.
pub fn of_day(sheet: &[u8], ins: u16, outs: u16, words: &mut [u16]) -> Source
    requires { 8 * program_room ≤ length words.old }
    ensures words_len_unchanged { length words.new ≡ length words.old }
    ensures reads { Reads (of_day sheet.now ins outs) result words.new }
{
    let x = open(sheet)?;
    if !masks_fit(ins, outs, x.atoms) {
        return Err(Refusal {
            reason: Reason::BadDay,
            place: 0,
        });
    }
    let rules = load(sheet, x, &mut words[..]);
    Ok(Outline {
        atoms: x.atoms,
        rules,
        negations: x.negations,
        k_atoms: x.k_atoms,
        m_atoms: x.m_atoms,
        ins,
        outs,
    })
}

// One check more, of a guess: refusal 8. A refusal stays as it is, whatever it is.
pub fn for_guess<E: From<Refusal>>(source: Result<Outline, E>, guess: u32) -> Result<Outline, E>
    requires { Within source }
    ensures { CheckedBy E.from_gives (λ x. 2 ^ x.negations) NoGuess guess source result }
{
    let x = match source {
        Ok(x) => x,
        Err(refusal) => return Err(refusal),
    };
    if power(x.negations as u16) as u32 <= guess {
        return Err(E::from(Refusal {
            reason: Reason::NoGuess,
            place: 0,
        }));
    }
    Ok(x)
}

// One check more, of an atom: refusal 10. A refusal stays as it is, whatever it is.
pub fn for_atom<E: From<Refusal>>(source: Result<Outline, E>, atom: u32) -> Result<Outline, E>
    ensures { CheckedBy E.from_gives (λ x. x.atoms) NoAtom atom source result }
{
    let x = match source {
        Ok(x) => x,
        Err(refusal) => return Err(refusal),
    };
    if x.atoms <= atom as usize {
        return Err(E::from(Refusal {
            reason: Reason::NoAtom,
            place: 0,
        }));
    }
    Ok(x)
}
