// What the sums over expansion coefficients share.
ghost use Rattle.std.specs.Prelude.{◌≡◌};
ghost use Rattle.expansion.specs.Sums as Sums;

// The stopping test of a sum: it differs from the sum remembered, sw, by less than 1e-14 of itself.
#[tactic(auto, unfolding(crate::specs::Sums::settled))]
pub fn settled(sum: f64, sw: f64) -> bool
    ensures { result ≡ Sums.settled sum sw }
{
    arith::abs(sum - sw) < arith::abs(sum) * 1e-14
}

// Room for the coefficients of a mode.
pub type Places = [f64; 200];
