// A request from standard input, field by field.
ghost use Rattle.std.specs.Prelude.{◌≤◌, IfOk};

use super::call::Call;
use super::line::respond;
use super::shared::respond_shared;
use std::io;
use std::io::{ErrorKind, Read, Stdin, Stdout};

// Why no answer follows: the input has no whole request within the bounds, or a read or a write failed.
#[derive(Drop)]
pub enum End {
    NoRequest,
    Failed(io::Error),
}

impl From<io::Error> for End {
    fn from(error: io::Error) -> End {
        End::Failed(error)
    }
}

// The call, and what it takes beside the sheet, the companion and the cells: the argument, and the day's masks.
#[derive(Clone, Copy)]
pub struct Asked {
    pub call: Call,
    pub argument: u32,
    pub ins: u16,
    pub outs: u16,
}

// Fills the slice.
fn fill(mut input: Stdin, buffer: &mut [u8]) -> Result<(), End> {
    match input.read_exact(buffer) {
        Ok(()) => Ok(()),
        Err(e) if e.kind() == ErrorKind::UnexpectedEof => Err(End::NoRequest),
        Err(e) => Err(End::Failed(e)),
    }
}

// A length that is not over its bound.
fn within(low: u8, high: u8, bound: usize) -> Result<usize, End>
    ensures { IfOk result (λ n. n ≤ bound) }
{
    let n = usize::from(u16::from_le_bytes([low, high]));
    if bound < n {
        return Err(End::NoRequest);
    }
    Ok(n)
}

// Reads a request and answers it.
pub fn request(input: Stdin, stdout: Stdout) -> Result<(), End> {
    let mut a = [0u8; 3];
    fill(input, &mut a)?;
    let call = Call::try_from(a[0])?;
    let bytes = within(a[1], a[2], 2048)?;
    let mut sheet = [0u8; 2048];
    fill(input, &mut sheet[..bytes])?;
    let mut b = [0u8; 10];
    fill(input, &mut b)?;
    let asked = Asked {
        call,
        argument: u32::from_le_bytes([b[0], b[1], b[2], b[3]]),
        ins: u16::from_le_bytes([b[4], b[5]]),
        outs: u16::from_le_bytes([b[6], b[7]]),
    };
    let beside = within(b[8], b[9], 12288)?;
    let mut companion = [0u8; 12288];
    fill(input, &mut companion[..beside])?;
    let mut c = [0u8; 4];
    fill(input, &mut c)?;
    let cells = within(c[0], c[1], 33000)?;
    let first = u16::from_le_bytes([c[2], c[3]]);
    if call == Call::SharedAllowance {
        return respond_shared(&companion[..beside], asked.argument as usize, first, stdout);
    }
    respond(
        asked,
        &sheet[..bytes],
        &companion[..beside],
        cells,
        first,
        stdout,
    )?;
    Ok(())
}
