// The source's `msta1`.
ghost use Rattle.std.specs.Prelude.{◌≡◌, ◌≤◌, ◌<◌, unwrap_or, IfSome};
ghost use Rattle.bessel.specs.Msta1 as Msta1;

// The order from which the search starts where nothing else is known.
pub(crate) fn first_order(a0: f64) -> u32
    ensures { result ≡ Msta1.first_order a0 }
{
    arith::whole_part(1.1 * a0) + 1
}

// The order at which the Bessel function at x is about 10^-mp, or none where an order outside 1 to
// 100,000 would have to be tried.
pub fn msta1(x: f64, mp: u32) -> Option<u32>
    ensures value { unwrap_or result 0 ≡ Msta1.msta1 x mp }
    ensures some_bounds { IfSome result (λ k. (0 < k) × (k ≤ 100000)) }
{
    let a0 = arith::abs(x);
    super::secant::searched(a0, mp as f64, first_order(a0))
}
