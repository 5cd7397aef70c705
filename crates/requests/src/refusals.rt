// Why a call is refused.
ghost use Rattle.std.specs.Prelude.{◌≡◌};
ghost use Rattle.requests.specs.Answers.{number_of};
ghost use Rattle.requests.specs.declared.refusals.Refusal.TheVariants as Refusals;

use segv::OutOfSteps;

// By document 01's numbers, in its order of checking; from 11 on they are the cards'.
#[derive(Clone, Copy, Debug, PartialEq, Eq)]
pub enum Refusal {
    // The stream ends inside a record.
    CutShort = 1,
    // A record does not begin with a mark.
    WrongMark = 2,
    // The operation is not 1 to 8.
    UnknownOperation = 3,
    // m, n or n - m.
    OutOfRange = 4,
    // c is NaN, infinite or below zero.
    SizeParameter = 5,
    // H, or for a radial function N + m.
    TooLarge = 6,
    // cv is NaN or infinite.
    CharacteristicValue = 7,
    // x is not one that the function takes.
    Argument = 8,
    // A slice has too few places.
    ShortSlice = 9,
    // A place of a row used up its allowance.
    OutOfSteps = 10,
    // Off the disc, 2N + m or c * x.
    TooFar = 11,
    // No order to start a Bessel recurrence from.
    NoOrder = 12,
    // A sheet has too many c or x, or too few places for its pairs.
    SheetTooLarge = 13,
}

impl Refusal {
    // Document 01's number. A method, not `From`, whose name says which number it is.
    pub fn number(self) -> u8
        ensures { result ≡ number_of self }
    {
        self as u8
    }
}

impl From<OutOfSteps> for Refusal {
    ghost from_gives = { λ stopped refusal. refusal ≡ Refusals.OutOfSteps };

    fn from(_stopped: OutOfSteps) -> Refusal {
        Refusal::OutOfSteps
    }
}
