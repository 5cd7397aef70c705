// The oblate radial functions of a mode, on the disc and off it.
ghost use Rattle.std.specs.Prelude.{◌≡◌, IfOk};
ghost use Rattle.requests.specs.Answers.{code};
ghost use Rattle.requests.specs.Refusals.{asked};
ghost use Rattle.modes.specs.Radial.{radial_refusal, radial_of, quadruple_answer};

use expansion::terms;
use radial::rswfo::Radial;
use requests::{Mode, Refusal};

// The mode as the routines take it. The first of 4 to 8 and 11 that applies: for both kinds and for the
// first alone.
#[tactic(auto, using(requests::proofs::Laws::some_number), unfolding(crate::specs::Radial::radial_refusal))]
pub(crate) fn usable(mode: Mode, cv: f64, x: f64) -> Result<terms::Mode, Refusal>
    ensures refused { code result ≡ radial_refusal mode cv x }
    ensures same { IfOk result (λ usable. asked usable ≡ mode) }
{
    let usable = mode.usable_radial(cv)?;
    if requests::no_parameter(x) {
        return Err(Refusal::Argument);
    }
    if requests::too_far(mode, x) {
        return Err(Refusal::TooFar);
    }
    Ok(usable)
}

// Both oblate radial functions of a mode with the characteristic value cv, with their derivatives, at a
// finite x not below zero. Refusals 4 to 8, 11 and 12.
#[tactic(auto, using(requests::proofs::Laws::some_number), unfolding(crate::specs::Radial::radial_of, crate::specs::Radial::quadruple_or_refusal))]
pub fn radial(mode: Mode, cv: f64, x: f64) -> Result<Radial, Refusal>
    ensures { quadruple_answer result ≡ radial_of mode cv x }
{
    let mode = usable(mode, cv, x)?;
    radial::rswfo::rswfo(mode, cv, x).ok_or(Refusal::NoOrder)
}
