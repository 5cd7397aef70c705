// The source's `rmn2so`: the second radial kind from the disc's coefficients.
ghost use Rattle.std.specs.Prelude.{◌≡◌};
ghost use Rattle.radial.specs.Rmn2so as Rmn2so;

use expansion::terms::Mode;
use expansion::values::Pair;

// At x = 0, from the first kind there, qs and the disc's first coefficient. The factor is the double
// nearest to pi/2.
#[tactic(auto, unfolding(crate::specs::Rmn2so::combined))]
fn combined(ip: u32, r1: f64, qs: f64, bk0: f64) -> Pair
    ensures { result ≡ Rmn2so.combined ip r1 qs bk0 }
{
    let joined = -1.5707963267948966 * qs * r1;
    if ip == 0 {
        return Pair {
            value: joined,
            derivative: qs * r1 + bk0,
        };
    }
    Pair {
        value: bk0,
        derivative: joined,
    }
}

// At an x other than zero, from the first kind, qs and g.
#[tactic(auto, unfolding(crate::specs::Rmn2so::turned))]
fn turned(x: f64, qs: f64, r1: Pair, g: Pair) -> Pair
    ensures { result ≡ Rmn2so.turned x qs r1 g }
{
    let h0 = elementary::arctangent(x) - 1.5707963267948966;
    Pair {
        value: qs * r1.value * h0 + g.value,
        derivative: qs * (r1.derivative * h0 + r1.value / (1.0 + x * x)) + g.derivative,
    }
}

// The second kind of a mode at x, from its expansion coefficients df, its power coefficients ck and its
// first kind at x: 1e300 twice where the first coefficient is too small to divide by. df goes to
// `kmn`, and ck to `qstar` and `cbk`: they are no parts of one value.
pub(crate) fn rmn2so(
    df: &[f64; 200],
    ck: &[f64; 200],
    mode: Mode,
    cv: f64,
    x: f64,
    r1: Pair,
) -> Pair
    ensures { result ≡ Rmn2so.rmn2so df.now ck.now mode.m mode.n mode.c cv x r1 }
{
    if arith::abs(df[0]) <= 1e-280 {
        return Pair {
            value: 1e300,
            derivative: 1e300,
        };
    }
    let ck1 = joining::kmn::kmn(df, mode);
    let factors = joining::qstar::qstar(ck, mode.m, mode.n, mode.c, ck1);
    let bk = joining::cbk::cbk(ck, mode, cv, factors.qt);
    if x == 0.0 {
        let nm = radial_sums::limits::second_terms(mode.offset(), mode.c);
        let sum = radial_sums::rmn1::powers_sum(ck, nm);
        return combined(mode.parity(), sum / ck1, factors.qs, bk[0]);
    }
    let g = super::gmn::gmn(&bk, mode, x);
    turned(x, factors.qs, r1, g)
}
