// What a reading step takes and answers.

use answers::Refusal;

// Where a reading stands, and what it has read so far. `Contents` in it would hold a number of negations that no step knows.
#[derive(Clone, Copy)]
pub struct Cursor {
    // the next place
    pub at: usize,
    pub atoms: usize,
    pub rules: usize,
    pub pairs: usize,
    // where the rules begin
    pub rules_at: usize,
    // the atoms under K or "not K", and under M or "not M"
    pub k_atoms: u16,
    pub m_atoms: u16,
}

// What a reading step answers: a field, as the number that it holds or counts, and the cursor after it; or a refusal. Each caller takes it
// apart by `let .. else` and hands a refusal on as it is.
// The loops over names, rules, masks and pairs stay four: each takes its own field apart, as the documents have it.
pub type Field = Result<(usize, Cursor), Refusal>;
