// Why a call is refused.
ghost use Rattle.std.specs.Prelude.{◌≡◌};

// In the order of the documents' numbers, 1 to 15.
#[derive(Clone, Copy, Debug, PartialEq, Eq)]
pub enum Reason {
    // the bytes end too soon
    EndsTooSoon,
    // over 15 atoms, 64 rules, 7 pairs or 64 entries
    OverLimit,
    // a name's length or one of its bytes
    BadName,
    // a name equals an earlier one
    RepeatedName,
    // a mask has a bit that is no atom
    BadMask,
    // bytes after the last section
    ExtraBytes,
    // over 12 epistemic negations
    ManyNegations,
    // the guess is not below 2^k
    NoGuess,
    // fewer words are lent than are needed
    ShortBuffer,
    // the atom is none of the sheet's
    NoAtom,
    // an entry of the calendar
    BadEntry,
    // the minute is none of the week's
    NoMinute,
    // the day's masks
    BadDay,
    // no sheet or more than four
    BadCount,
    // a pair of opposites
    BadPair,
}

impl Reason {
    ghost use Rattle.answers.specs.Refusals.{number_of};

    // The documents' number.
    pub fn number(self) -> u8
        ensures { result ≡ number_of self }
    {
        match self {
            Reason::EndsTooSoon => 1,
            Reason::OverLimit => 2,
            Reason::BadName => 3,
            Reason::RepeatedName => 4,
            Reason::BadMask => 5,
            Reason::ExtraBytes => 6,
            Reason::ManyNegations => 7,
            Reason::NoGuess => 8,
            Reason::ShortBuffer => 9,
            Reason::NoAtom => 10,
            Reason::BadEntry => 11,
            Reason::NoMinute => 12,
            Reason::BadDay => 13,
            Reason::BadCount => 14,
            Reason::BadPair => 15,
        }
    }
}
