// The calls, by the numbers that requests give them.
use super::request::End;

#[derive(Clone, Copy, Debug, PartialEq, Eq)]
pub enum Call {
    Check,
    Verdict,
    BeliefSets,
    List,
    Query,
    ListAtMinute,
    MinutesOfChange,
    SharedAllowance,
}

impl TryFrom<u8> for Call {
    type Error = End;

    fn try_from(number: u8) -> Result<Call, End> {
        match number {
            0 => Ok(Call::Check),
            1 => Ok(Call::Verdict),
            2 => Ok(Call::BeliefSets),
            3 => Ok(Call::List),
            4 => Ok(Call::Query),
            5 => Ok(Call::ListAtMinute),
            6 => Ok(Call::MinutesOfChange),
            7 => Ok(Call::SharedAllowance),
            _ => Err(End::NoRequest),
        }
    }
}
