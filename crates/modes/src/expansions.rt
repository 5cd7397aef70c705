// The expansion coefficients of a mode.
ghost use Rattle.std.specs.Prelude.{◌≡◌};
ghost use Rattle.segv.specs.Row.{answer};
ghost use Rattle.requests.specs.Answers.{code};
ghost use Rattle.modes.specs.Coefficients.{coefficients_of};

use requests::{Kind, Mode, Refusal};

// The expansion coefficients for a characteristic value cv, into the first 200 places. Refusals 4, 5,
// 6, 7 and 9.
#[tactic(auto, using(requests::proofs::Laws::some_number), unfolding(crate::specs::Coefficients::coefficients_of))]
pub fn coefficients(kind: Kind, mode: Mode, cv: f64, out: &mut [f64]) -> Result<(), Refusal>
    ensures { answer (code result) out.new ≡ coefficients_of kind mode cv out.old }
{
    let mode = mode.usable()?;
    if requests::not_finite(cv) {
        return Err(Refusal::CharacteristicValue);
    }
    if out.len() < 200 {
        return Err(Refusal::ShortSlice);
    }
    let df = expansion::sdmn::sdmn(mode, cv, requests::sign(kind));
    out[..200].copy_from_slice(&df);
    Ok(())
}
