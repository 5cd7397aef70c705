// The angular pair of a mode.
ghost use Rattle.std.specs.Prelude.{◌≡◌, IfOk};
ghost use Rattle.requests.specs.Answers.{code, pair_answer};
ghost use Rattle.requests.specs.Refusals.{asked};
ghost use Rattle.modes.specs.Angular as Angular;

use expansion::terms;
use expansion::values::Pair;
use requests::{Kind, Mode, Refusal};

// Whether x is NaN or greater than 1 in size.
#[tactic(auto, using(crate::proofs::Laws::nan_outside, crate::proofs::Laws::size_outside))]
pub fn outside(x: f64) -> bool
    ensures { result ≡ Angular.outside x }
{
    x.is_nan() || 1.0 < arith::abs(x)
}

// The mode as the routines take it. The first of 4 to 8 that applies.
#[tactic(auto, using(requests::proofs::Laws::some_number), unfolding(crate::specs::Angular::angular_refusal))]
fn usable(mode: Mode, cv: f64, x: f64) -> Result<terms::Mode, Refusal>
    ensures refused { code result ≡ Angular.angular_refusal mode cv x }
    ensures same { IfOk result (λ usable. asked usable ≡ mode) }
{
    let usable = mode.usable()?;
    if requests::not_finite(cv) {
        return Err(Refusal::CharacteristicValue);
    }
    if outside(x) {
        return Err(Refusal::Argument);
    }
    Ok(usable)
}

// The angular function of a mode with the characteristic value cv, and its derivative, at x. Refusals
// 4 to 8.
#[tactic(auto, using(requests::proofs::Laws::some_number), unfolding(crate::specs::Angular::angular_of, crate::specs::Angular::angular_pair))]
pub fn angular(kind: Kind, mode: Mode, cv: f64, x: f64) -> Result<Pair, Refusal>
    ensures { pair_answer result ≡ Angular.angular_of kind mode cv x }
{
    let mode = usable(mode, cv, x)?;
    Ok(angular::aswfa::aswfa(mode, cv, requests::sign(kind), x))
}
