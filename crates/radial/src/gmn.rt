// The source's `gmn`: the function g of the second radial kind near the disc, and its derivative, from
// the disc's coefficients bk. The power of x is carried from term to term.
ghost use Rattle.std.specs.Prelude.{◌≡◌, ℕ, ◌-◌, ◌*◌, ◌<◌, ◌≤◌, Float};
ghost use Rattle.arith.specs.Double.{#0};
ghost use Rattle.arith.specs.Powers.{power};
ghost use Rattle.radial.specs.Gmn as Gmn;

use expansion::sckb::Partial;
use expansion::terms::Mode;
use expansion::values::Pair;

// The stopping test of a sum after its k-th term; gw is the sum remembered.
#[tactic(auto, unfolding(crate::specs::Gmn::ends))]
fn ends(k: u32, sum: f64, gw: f64) -> bool
    ensures { result ≡ Gmn.ends k sum gw }
{
    if k < 10 {
        return false;
    }
    arith::abs((sum - gw) / sum) < 1e-14
}

// The k-th term of the derivative, from p, x to the power 2k - 2. For odd n - m the power is one more.
#[tactic(auto, using(crate::proofs::GmnLaws::odd_power), unfolding(crate::specs::Gmn::slope_term))]
fn slope_term(bk: &[f64; 200], ip: u32, x: f64, k: u32, p: f64) -> f64
    requires { (1 ≤ k) × (k < 200) × (p ≡ power x (2 * k - 2)) }
    ensures { result ≡ Gmn.slope_term bk.now ip x k }
{
    if ip == 0 {
        return (2.0 * (k as f64) - 1.0) * bk[(k - 1) as usize] * p;
    }
    2.0 * (k as f64) * bk[k as usize] * (p * x)
}

// The sum of the terms for k from 1 to `last`, each formed from k and x to the power 2k - 2; gw0 is the sum
// remembered at first.
fn sum<F: Fn(u32, f64) -> f64>(term: F, x: f64, last: u32, gw0: f64) -> Partial
    requires { (k : ℕ) → 1 ≤ k → k ≤ last → F.pre term k (power x (2 * k - 2)) }
    ensures { (t : ℕ → Float) → ((k : ℕ) (r : Float) → 1 ≤ k → k ≤ last → F.post term k (power x (2 * k - 2)) r → r ≡ t k) → result ≡ Gmn.sum_on t last 1 #0 gw0 }
{
    let mut sum = 0.0;
    let mut gw = gw0;
    let mut p = 1.0;
    for j in 0..last {
        sum = sum + term(j + 1, p);
        if ends(j + 1, sum, gw) {
            return Partial { sum, sw: gw };
        }
        gw = sum;
        p = p * x * x;
    }
    Partial { sum, sw: gw }
}

// The function g of a mode, and its derivative, at x.
pub(crate) fn gmn(bk: &[f64; 200], mode: Mode, x: f64) -> Pair
    ensures { result ≡ Gmn.gmn bk.now mode.m mode.n mode.c x }
{
    let m = mode.m;
    let ip = mode.parity();
    let nm = mode.terms();
    let w = 1.0 + x * x;
    let xm = 1.0 / expansion::products::half_of_m(w, m);
    let f = sum(|k, p| bk[(k - 1) as usize] * p, x, nm, 0.0);
    let gf = xm * f.sum * arith::power(x, 1 - ip);
    // -m as a whole number: of 0 it is +0
    let gd1 = (0.0 - m as f64) * x / w * gf;
    let d = sum(|k, p| slope_term(bk, ip, x, k, p), x, nm - 1, f.sw);
    Pair {
        value: gf,
        derivative: gd1 + xm * d.sum,
    }
}
