// What every call above answers where it is refused: a row of document 01's table. The definitions are in specs/.
#![tactic(auto)]

ghost use Rattle.std.specs.Prelude.{◌≡◌};
ghost use Rattle.outcome.specs.Refusal.{number_of_refusal};

use std::error::Error;
use std::fmt;

// The rows of document 01's table, each with its number.
#[derive(Clone, Copy, Debug, PartialEq, Eq, Hash)]
pub enum Refusal {
    EndsEarly = 1,
    TooManyBits = 2,
    ShortOutput = 3,
    NoNumber = 4,
    BackwardRange = 5,
    OtherFragmentSize = 6,
    ShortSample = 7,
    LongSample = 8,
    ManyFragments = 9,
    EmptyRun = 10,
    StartZero = 11,
    RunPastEnd = 12,
    ShortArea = 13,
    BadSetUp = 14,
    NotRising = 15,
}

impl Refusal {
    // The row's number.
    pub fn number(self) -> u8
        ensures { result ≡ number_of_refusal self }
    {
        self as u8
    }
}

impl From<Refusal> for u32 {
    ghost from_gives = { λ refusal n. n ≡ number_of_refusal refusal };

    fn from(refusal: Refusal) -> u32 {
        refusal.number() as u32
    }
}

// For people to read, so no clause says what is written.
impl fmt::Display for Refusal {
    fn fmt<W: fmt::Write>(&self, f: &mut fmt::Formatter<W>) -> fmt::Result {
        write!(f, "refused {}", self.number())
    }
}

impl Error for Refusal {}
