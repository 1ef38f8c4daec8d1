// A line in a buffer of its own: what stands there is written out where the next field may not fit.
ghost use Rattle.std.specs.Prelude.{◌≡◌, ◌+◌, ◌≤◌, length, OnOk};

use super::call::Call;
use std::io;
use std::io::{Stdout, Write};

#[derive(Drop)]
pub struct Line {
    bytes: [u8; 65536],
    at: usize,
    to: Stdout,
    ghost within: { at ≤ 65536 },
}

impl Line {
    // An empty line. What it begins with is written by `begin`, in place: a buffer that has been written would be copied where it is returned.
    pub fn new(to: Stdout) -> Line {
        Line {
            bytes: [0; 65536],
            at: 0,
            to,
        }
    }

    // The line of a call begins with its number.
    pub fn begin(&mut self, call: Call) {
        self.at = text::put_decimal(call as usize, 0, &mut self.bytes);
    }

    // Room for 64 bytes more.
    fn make_room(&mut self) -> io::Result<()>
        ensures { OnOk result (self.new.at + 64 ≤ 65536) }
    {
        if 65536 - self.at < 64 {
            self.flush()?;
        }
        Ok(())
    }

    // A space and a number.
    pub fn field(&mut self, n: usize) -> io::Result<()> {
        self.make_room()?;
        self.at = text::put_field(n, self.at, &mut self.bytes);
        Ok(())
    }

    pub fn fields(&mut self, numbers: &[usize]) -> io::Result<()> {
        for n in numbers {
            self.field(*n)?;
        }
        Ok(())
    }

    pub fn words(&mut self, words: &[u16]) -> io::Result<()> {
        for w in words {
            self.field(usize::from(*w))?;
        }
        Ok(())
    }

    // A few bytes.
    pub fn mark(&mut self, mark: &[u8]) -> io::Result<()>
        requires { length mark.now ≤ 64 }
    {
        self.make_room()?;
        self.at = text::put(mark, self.at, &mut self.bytes);
        Ok(())
    }

    // The end of the line, and what is left of it written out.
    pub fn end(&mut self) -> io::Result<()> {
        self.mark(b"\n")?;
        self.flush()
    }

    fn flush(&mut self) -> io::Result<()>
        ensures { OnOk result (self.new.at ≡ 0) }
    {
        let mut to = self.to;
        let n = self.at;
        to.write_all(&self.bytes[..n])?;
        self.at = 0;
        Ok(())
    }
}
