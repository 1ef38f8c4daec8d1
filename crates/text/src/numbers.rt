// Numbers, base ten, appended to the first `at` bytes of a buffer; the answer is how many bytes there are then.
ghost use Rattle.std.specs.Prelude.{◌∷◌, ◌+◌, ◌≤◌, length};
ghost use Rattle.semantics.specs.Definitions.Program.{decimal as decimalOf};
ghost use Rattle.text.specs.Appended.{Appended};

use super::bytes::put;

// The digits of n, the last one last; written by hand, since the lines are promised digit by digit.
fn digits(n: usize, at: usize, out: &mut [u8]) -> usize
    requires { at + length (decimalOf n) ≤ length out.old }
    ensures { Appended at (decimalOf n) out.old out.new result }
{
    if n < 10 {
        out[at] = 48 + n as u8;
        return at + 1;
    }
    let last = digits(n / 10, at, out);
    out[last] = 48 + (n % 10) as u8;
    last + 1
}

// The number n: at most twenty digits.
pub fn put_decimal(n: usize, at: usize, out: &mut [u8]) -> usize
    requires { at + 20 ≤ length out.old }
    ensures appended { Appended at (decimalOf n) out.old out.new result }
    ensures upper_bound { result ≤ at + 20 }
{
    digits(n, at, out)
}

// A space and the number n.
pub fn put_field(n: usize, at: usize, out: &mut [u8]) -> usize
    requires { at + 21 ≤ length out.old }
    ensures appended { Appended at (32 ∷ decimalOf n) out.old out.new result }
    ensures upper_bound { result ≤ at + 21 }
{
    let a = put(b" ", at, out);
    put_decimal(n, a, out)
}
