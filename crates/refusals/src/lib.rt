// Why a call is refused: the checks of document 01, "What stops a call", and of document 02, each with its fixed number. C gets the number, and 0
// where nothing stopped the call; specs/Numbers.antt has which number is whose.
#![tactic(auto)]

ghost use Rattle.std.specs.Prelude.{◌≡◌};
ghost use Rattle.refusals.specs.Numbers.{number_of, number_given};

// The checks, in the order of their numbers.
#[derive(Clone, Copy, Debug, PartialEq, Eq)]
pub enum Refusal {
    BadHeader,
    TooFewBytes,
    BadGroup,
    BadKey,
    NotOpen,
    TooLong,
    BadTagLength,
    NoRoom,
    IndexFull,
    Allowance,
    WrongTag,
    NoCode,
    BadLine,
    Pooled,
    PoolFull,
    NoSuchDay,
    OutOfSeason,
    ReadOnly,
    NotSold,
    TillFull,
}

// The number of a check.
impl From<Refusal> for u32 {
    ghost from_gives = { λ e n. n ≡ number_of e };

    fn from(e: Refusal) -> u32 {
        match e {
            Refusal::BadHeader => 1,
            Refusal::TooFewBytes => 2,
            Refusal::BadGroup => 3,
            Refusal::BadKey => 4,
            Refusal::NotOpen => 5,
            Refusal::TooLong => 6,
            Refusal::BadTagLength => 7,
            Refusal::NoRoom => 8,
            Refusal::IndexFull => 9,
            Refusal::Allowance => 10,
            Refusal::WrongTag => 11,
            Refusal::NoCode => 12,
            Refusal::BadLine => 13,
            Refusal::Pooled => 14,
            Refusal::PoolFull => 15,
            Refusal::NoSuchDay => 16,
            Refusal::OutOfSeason => 17,
            Refusal::ReadOnly => 18,
            Refusal::NotSold => 19,
            Refusal::TillFull => 22,
        }
    }
}

// The number of what some checks gave: 0 where none was met.
pub fn number_given(r: Result<(), Refusal>) -> u32
    ensures { result ≡ number_given r }
{
    match r {
        Ok(()) => 0,
        Err(e) => u32::from(e),
    }
}
