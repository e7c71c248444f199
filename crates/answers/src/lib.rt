// 01's numbered refusals, and the number that an answer tells.
#![tactic(auto)]

ghost use Rattle.std.specs.Prelude.{◌≡◌};
ghost use Rattle.answers.specs.Refusals.{number as number_of};
ghost use Rattle.answers.specs.Answers.{number_told, exactly};

// Why a call is refused, with the papers' numbers.
#[derive(Clone, Copy, Debug, PartialEq, Eq)]
pub enum Refusal {
    Input = 1,
    CardNumber = 2,
    NoRoom = 3,
    ShapeWrong = 4,
    NotListed = 5,
    PhaseWrong = 6,
    CounterFull = 7,
    CodeDiffers = 8,
    PinFormat = 9,
    SpoiltClosed = 10,
    ArpcDiffers = 11,
    PinDigits = 12,
    Unreadable = 13,
    WrongPin = 14,
    NoTries = 15,
    BadObject = 16,
    TooDeep = 17,
    TooMany = 18,
    UnknownCard = 19,
    AlreadyHeld = 20,
    TableFull = 21,
    ArqcDiffers = 22,
    CounterNotAbove = 23,
}

impl Refusal {
    // Its number.
    pub fn number(self) -> u8
        ensures { result ≡ number_of self }
    {
        self as u8
    }
}

// The number that an answer tells: 0 where it is accepted.
pub fn number_told<T>(answer: &Result<T, Refusal>) -> u8
    ensures { result ≡ number_told answer.now }
{
    match answer {
        Ok(_) => 0,
        Err(why) => why.number(),
    }
}

// What is lent, where it has the length asked for; else 1.
pub fn exactly<const N: usize>(lent: &[u8]) -> Result<[u8; N], Refusal>
    ensures { result ≡ exactly N lent.now }
{
    <[u8; N]>::try_from(lent).map_err(|_| Refusal::Input)
}
