// Counts as words, and words as bytes.
ghost use Rattle.std.specs.Prelude.{◌≡◌, ◌++◌, ◌+◌, ◌*◌, ◌≤◌, length, take};
ghost use Rattle.semantics.specs.Definitions.Returned.{written};
ghost use Rattle.semantics.specs.Definitions.Listing.{six};
ghost use Rattle.semantics.specs.Definitions.Desk.{bytes_of};
ghost use Rattle.semantics.specs.Theorems.Tally.{AtMost};
ghost use Rattle.records.specs.Outcomes.{tally_from};

use answers::Tally;

// The six counts as words.
fn counts(tally: Tally) -> [u16; 6]
    requires { AtMost (tally_from tally) 65535 }
    ensures { result ≡ six (tally_from tally) }
{
    [
        tally.views as u16,
        tally.covered as u16,
        tally.ruled as u16,
        tally.tested as u16,
        tally.empty as u16,
        tally.other as u16,
    ]
}

// Writes the words to the front of a buffer, two bytes each, the low one first; the rest of the buffer keeps its contents.
fn write_bytes(words: &[u16], out: &mut [u8])
    requires { 2 * length words.now ≤ length out.old }
    ensures { out.new ≡ written (bytes_of words.now) out.old }
{
    for (i, word) in words.iter().enumerate() {
        out[2 * i..2 * i + 2].copy_from_slice(&word.to_le_bytes());
    }
}

// Writes the six counts and the records of the views to the front of a buffer; the rest of it keeps its contents.
pub fn write_listing(tally: Tally, records: &[u16], out: &mut [u8])
    requires { AtMost (tally_from tally) 65535 × (4 * tally.views ≤ length records.now) × (2 * (6 + 4 * tally.views) ≤ length out.old) }
    ensures { out.new ≡ written (bytes_of (six (tally_from tally) ++ take (4 * tally.views) records.now)) out.old }
{
    write_bytes(&counts(tally), out);
    write_bytes(&records[..4 * tally.views], &mut out[12..]);
}
