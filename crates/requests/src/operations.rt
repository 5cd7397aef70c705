// What an operation's number in a record asks for.
ghost use Rattle.std.specs.Prelude.{◌≡◌};
ghost use Rattle.requests.specs.Operations.{operation_of};

use super::checking::Kind;
use super::refusals::Refusal;

#[derive(Clone, Copy, Debug, PartialEq, Eq)]
pub enum Operation {
    Row(Kind),
    Angular(Kind),
    Radial,
    DlmfRow(Kind),
    FirstKind,
}

impl TryFrom<u8> for Operation {
    type Error = Refusal;

    ghost try_from_gives = { λ number asked. asked ≡ operation_of number };

    // Refused where the number is not 1 to 8.
    #[tactic(auto, unfolding(crate::specs::Operations::operation_of))]
    fn try_from(number: u8) -> Result<Operation, Refusal> {
        match number {
            1 => Ok(Operation::Row(Kind::Prolate)),
            2 => Ok(Operation::Row(Kind::Oblate)),
            3 => Ok(Operation::Angular(Kind::Prolate)),
            4 => Ok(Operation::Angular(Kind::Oblate)),
            5 => Ok(Operation::Radial),
            6 => Ok(Operation::DlmfRow(Kind::Prolate)),
            7 => Ok(Operation::DlmfRow(Kind::Oblate)),
            8 => Ok(Operation::FirstKind),
            _ => Err(Refusal::UnknownOperation),
        }
    }
}
