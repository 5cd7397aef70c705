// The source's `rmn1`: the oblate radial function of the first kind, on the disc and off it.
ghost use Rattle.std.specs.Prelude.{◌≡◌, false, ◌+◌, ◌-◌, ◌*◌, ◌<◌, ◌≤◌};
ghost use Rattle.std.specs.Float.Ieee.{eq};
ghost use Rattle.arith.specs.Double.{#0};
ghost use Rattle.expansion.specs.Terms.{terms_of};
ghost use Rattle.radial_sums.specs.Rmn1 as Rmn1;

use super::off_disc::OffDisc;
use bessel::sphj::Places;
pub use expansion::products::half_of_m;
use expansion::terms::Mode;
pub use expansion::values::Pair;
use joining::sums::Test;

// The sum of the first nm power coefficients, until it has settled.
pub fn powers_sum(ck: &[f64; 200], nm: u32) -> f64
    requires { nm < 200 }
    ensures { result ≡ Rmn1.powers_sum ck.now nm }
{
    let mut sum = 0.0;
    let mut sw = 0.0;
    for j in 0..nm {
        sum = sum + ck[j as usize];
        if expansion::sums::settled(sum, sw) {
            return sum;
        }
        sw = sum;
    }
    sum
}

// The product of 2 c j for j from 1 to m. No twin of the one in `joining::kmn`: the source multiplies in
// another order there, and rounds otherwise.
fn r2_of(c: f64, m: u32) -> f64
    requires { m < 1000 }
    ensures { result ≡ Rmn1.r2_of c m }
{
    let mut r2 = 1.0;
    for j in 0..m {
        r2 = r2 * (2.0 * c * ((j + 1) as f64));
    }
    r2
}

// The value where n - m is even and the derivative where it is odd; the other is zero.
#[tactic(auto, unfolding(crate::specs::Rmn1::placed))]
fn placed(ip: u32, v: f64) -> Pair
    ensures { result ≡ Rmn1.placed ip v }
{
    if ip == 0 {
        return Pair {
            value: v,
            derivative: 0.0,
        };
    }
    Pair {
        value: 0.0,
        derivative: v,
    }
}

// At x = 0, from the expansion coefficients df and the power coefficients ck, which are
// summed apart, each sum until it has settled: no array of pairs.
pub fn on_disc(df: &[f64; 200], ck: &[f64; 200], mode: Mode) -> Pair
    ensures { result ≡ Rmn1.on_disc df.now ck.now mode.m mode.n mode.c }
{
    let m = mode.m;
    let n = mode.n;
    let c = mode.c;
    let ip = mode.parity();
    let half = mode.offset() / 2;
    let nm = super::limits::first_terms(mode.offset(), mode.c);
    let reg = expansion::sckb::regulator(m, nm);
    // The source calls it suc.
    let df_sum = joining::sums::expansion_sum(Test::Product, df, m, ip, half, nm, reg);
    let sum = powers_sum(ck, nm);
    let below = joining::sums::sa0_below(m, n, ip, c, r2_of(c, m));
    let sa0 = joining::sums::sa0_above(m, n, ip) / below;
    placed(ip, sum / (sa0 * df_sum) * df[0] * reg)
}

// The pair, from the sums over the expansion coefficients with the Bessel functions and with their
// derivatives.
pub(crate) fn joined(at: &OffDisc, sum: f64, sud: f64) -> Pair
    ensures { result ≡ Rmn1.joined at.now.mode.m at.now.mode.c at.now.x at.now.common.suc sum sud }
{
    let m = at.mode.m;
    let c = at.mode.c;
    let x = at.x;
    let w = 1.0 - -1.0 / (x * x);
    let a0 = half_of_m(w, m) / at.common.suc;
    let value = sum * a0;
    // -m as a whole number: of 0 it is +0
    let b0 = (0.0 - m as f64) / arith::power(x, 3) / w * value;
    Pair {
        value,
        derivative: b0 + a0 * c * sud,
    }
}

// At an x other than zero: none where the orders of the Bessel functions were not found.
pub fn off_disc(at: &OffDisc) -> Option<Pair>
    ensures { result ≡ Rmn1.off_disc at.now.df.now at.now.mode.m at.now.mode.n at.now.mode.c at.now.x }
{
    let cx = at.mode.c * at.x;
    let top = at.top();
    let orders = bessel::sphj::find_orders(cx, top);
    if orders.from == 0 {
        return None;
    }
    let mut sj: Places = arith::filled(0.0);
    let mut dj: Places = arith::filled(0.0);
    bessel::sphj::sphj(cx, top, orders, &mut sj, &mut dj);
    let sums = super::bessel_sums::both_sums(at.df, &sj, &dj, at.series());
    Some(joined(at, sums.value, sums.derivative))
}

// The first kind of a mode at x, from its expansion coefficients df: none where the orders of the Bessel
// functions were not found. What is asked is asked off the disc only, so that no type holds it for every x:
// there `OffDisc` does.
pub fn rmn1(df: &[f64; 200], mode: Mode, x: f64) -> Option<Pair>
    requires { eq x #0 ≡ false → 2 * terms_of (mode.n - mode.m) mode.c + mode.m ≤ 251 }
    ensures { result ≡ Rmn1.rmn1 df.now mode.m mode.n mode.c x }
{
    if x == 0.0 {
        let ck = expansion::sckb::sckb(df, mode);
        return Some(on_disc(df, &ck, mode));
    }
    let at = OffDisc::at(df, mode, x);
    off_disc(&at)
}
