// The call on the cells lent, and its line.
ghost use Rattle.std.specs.Prelude.{◌≤◌};

use super::fields::answer;
use super::output::Line;
use super::request::Asked;
use std::io;
use std::io::Stdout;

// Cell i holds (first + i) mod 65,536.
pub fn number(cells: &mut [u16], first: u16) {
    let mut next = first;
    for cell in cells.iter_mut() {
        *cell = next;
        next = next.wrapping_add(1);
    }
}

pub fn respond(
    asked: Asked,
    sheet: &[u8],
    companion: &[u8],
    count: usize,
    first: u16,
    stdout: Stdout,
) -> io::Result<()>
    requires { count ≤ 33000 }
{
    let mut cells = [0u16; 33000];
    number(&mut cells[..count], first);
    let mut line = Line::new(stdout);
    line.begin(asked.call);
    answer(asked, sheet, companion, &mut cells[..count], &mut line)?;
    line.mark(b" :")?;
    line.words(&cells[..count])?;
    line.end()
}
