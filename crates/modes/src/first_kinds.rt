// The first oblate radial function of a mode, on the disc and off it.
ghost use Rattle.std.specs.Prelude.{◌≡◌};
ghost use Rattle.requests.specs.Answers.{pair_answer};
ghost use Rattle.modes.specs.FirstKind as FirstKind;

use super::radial_functions::usable;
use expansion::values::Pair;
use requests::{Mode, Refusal};

// The first oblate radial function of a mode with the characteristic value cv, and its derivative, at
// a finite x not below zero. Refusals 4 to 8, 11 and 12.
#[tactic(auto, using(requests::proofs::Laws::some_number), unfolding(crate::specs::FirstKind::first_of, crate::specs::FirstKind::pair_or_refusal))]
pub fn first_kind(mode: Mode, cv: f64, x: f64) -> Result<Pair, Refusal>
    ensures { pair_answer result ≡ FirstKind.first_of mode cv x }
{
    let mode = usable(mode, cv, x)?;
    radial::rswfo::first_kind(mode, cv, x).ok_or(Refusal::NoOrder)
}
