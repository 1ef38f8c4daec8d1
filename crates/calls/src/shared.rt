// Call 7 on the sheets and the cells of its companion, and its line.
ghost use Rattle.std.specs.Prelude.{length};
ghost use Rattle.calls.specs.Within.{Within, AllWithin};

use super::call::Call;
use super::companion::{Part, Parts, read_parts};
use super::fields::shared;
use super::line::number;
use super::output::Line;
use super::request::End;
use engine::share;
use std::io;
use std::io::Stdout;

// The bytes of a sheet.
fn sheet<'a>(p: Part, companion: &'a [u8]) -> &'a [u8]
    requires { Within p (length companion.now) }
{
    &companion[p.from..p.to]
}

// The call on the buffers, each with `first` in its first cell, and its line: after the answer the buffers, one after the other.
fn lend(
    p: Parts,
    companion: &[u8],
    allowance: usize,
    first: u16,
    a: &mut [u16],
    b: &mut [u16],
    c: &mut [u16],
    d: &mut [u16],
    stdout: Stdout,
) -> io::Result<()>
    requires { AllWithin p.each (length companion.now) }
{
    number(a, first);
    number(b, first);
    number(c, first);
    number(d, first);
    let s = sheet(p.each[0], companion);
    let t = sheet(p.each[1], companion);
    let u = sheet(p.each[2], companion);
    let v = sheet(p.each[3], companion);
    let r = share(p.count, s, t, u, v, allowance, a, b, c, d);
    let mut line = Line::new(stdout);
    line.begin(Call::SharedAllowance);
    shared(r, p.count, &mut line)?;
    line.mark(b" :")?;
    line.words(a)?;
    line.words(b)?;
    line.words(c)?;
    line.words(d)?;
    line.end()
}

// If the companion is not whole, nothing is called and nothing printed.
pub fn respond_shared(
    companion: &[u8],
    allowance: usize,
    first: u16,
    stdout: Stdout,
) -> Result<(), End> {
    let Some(p) = read_parts(companion) else {
        return Err(End::NoRequest);
    };
    let mut a = [0u16; 8000];
    let mut b = [0u16; 8000];
    let mut c = [0u16; 8000];
    let mut d = [0u16; 8000];
    lend(
        p,
        companion,
        allowance,
        first,
        &mut a[..p.each[0].cells],
        &mut b[..p.each[1].cells],
        &mut c[..p.each[2].cells],
        &mut d[..p.each[3].cells],
        stdout,
    )?;
    Ok(())
}
