// Lent buffers.
ghost use Rattle.std.specs.Prelude.{◌≡◌, ◌≤◌, length, take};
ghost use Rattle.semantics.specs.Definitions.Returned.{written};

// The first n words, written to the front of a lent buffer; the rest of it keeps its contents.
pub fn write(words: &[u16], n: usize, out: &mut [u16])
    requires { (n ≤ length words.now) × (n ≤ length out.old) }
    ensures { out.new ≡ written (take n words.now) out.old }
{
    out[..n].copy_from_slice(&words[..n]);
}
