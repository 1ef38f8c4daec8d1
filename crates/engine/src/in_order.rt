// The listing in the built-in order, of rules in words and of what was read.
ghost use Rattle.std.specs.Prelude.{◌≡◌, ◌*◌, ◌≤◌, length};
ghost use Rattle.semantics.specs.Definitions.Listing.{tally_of, listing};
ghost use Rattle.semantics.specs.Walk.{records_room};
ghost use Rattle.guess.specs.Programs.{setting_in, Outlines};
ghost use Rattle.records.specs.Records.{views_in};
ghost use Rattle.records.specs.Outcomes.{tally_from};
ghost use Rattle.source.specs.Sources.{Outlined};
ghost use Rattle.engine.specs.Sources.{Lists};

use answers::{Reason, Refusal, Tally};
use guess::outline::Outline;
use listing::walk;
use order::guesses;
use records::write_records;
use source::Source;

// The six counts; and the records of the world views, in the first words of `records`. What the words after them hold then is left open.
pub fn list_in_order(words: &[u16], x: Outline, records: &mut [u16]) -> Tally
    requires { Outlines x words.now × (4 * records_room ≤ length records.old) }
    ensures records_len_unchanged { length records.new ≡ length records.old }
    ensures views_in_bounds { 4 * result.views ≤ length records.old }
    ensures result_value { tally_from result ≡ tally_of (setting_in x words.now) }
    ensures views_after { views_in records.new result.views ≡ listing (setting_in x words.now) }
{
    let order = guesses();
    walk(words, x, &order[..], &mut records[..])
}

// The listing of what was read, into a lent buffer, and the six counts: the refusal that came before, or 9.
pub fn list_from(source: Source, words: &[u16], out: &mut [u16]) -> Result<Tally, Refusal>
    requires { Outlined source words.now }
    ensures out_len_unchanged { length out.new ≡ length out.old }
    ensures lists { Lists source words.now result out.old out.new }
{
    let x = source?;
    let mut records = [0u16; 16384];
    let t = list_in_order(words, x, &mut records[..]);
    if out.len() < 4 * t.views {
        return Err(Refusal {
            reason: Reason::ShortBuffer,
            place: t.views,
        });
    }
    write_records(&records[..], t.views, &mut out[..]);
    Ok(t)
}
