// The companion of call 7: the number of sheets told, and for each of the first four its length, the sheet, and the cells lent.
ghost use Rattle.std.specs.Prelude.{◌≡◌, ◌+◌, ◌≤◌, length, IfSome};
ghost use Rattle.calls.specs.Within.{Within, AllWithin};

// A sheet from its first byte to past its last, and the cells lent.
#[derive(Clone, Copy)]
pub struct Part {
    pub from: usize,
    pub to: usize,
    pub cells: usize,
}

// The number told, and the sheets: those that are not there are empty, with no cells.
#[derive(Clone, Copy)]
pub struct Parts {
    pub count: usize,
    pub each: [Part; 4],
}

// Two bytes at a place, if they are there.
fn word_at(s: &[u8], at: usize) -> Option<usize>
    requires { at ≤ length s.now }
    ensures { IfSome result (λ _. at + 2 ≤ length s.now) }
{
    if s.len() - at < 2 {
        return None;
    }
    Some(usize::from(u16::from_le_bytes([s[at], s[at + 1]])))
}

// The sheet whose length stands at a place, if it is whole and within the bounds.
fn part_at(s: &[u8], at: usize) -> Option<Part>
    requires { at ≤ length s.now }
    ensures { IfSome result (λ p. Within p (length s.now) × (p.to + 2 ≤ length s.now)) }
{
    let bytes = word_at(s, at)?;
    let from = at + 2;
    if 2048 < bytes || s.len() - from < bytes {
        return None;
    }
    let to = from + bytes;
    let cells = word_at(s, to)?;
    if 8000 < cells {
        return None;
    }
    Some(Part { from, to, cells })
}

// What stands in the companion, if each sheet told is there and no byte is left.
pub fn read_parts(s: &[u8]) -> Option<Parts>
    ensures { IfSome result (λ p. AllWithin p.each (length s.now)) }
{
    let count = usize::from(*s.first()?);
    let mut each = [Part {
        from: 0,
        to: 0,
        cells: 0,
    }; 4];
    let mut at = 1;
    for p in 0..count.min(4) {
        let part = part_at(s, at)?;
        each[p] = part;
        at = part.to + 2;
    }
    if at != s.len() {
        return None;
    }
    Some(Parts { count, each })
}
