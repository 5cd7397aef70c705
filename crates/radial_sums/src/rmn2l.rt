// The source's `rmn2l`: the oblate radial function of the second kind, off the disc, where c x is not
// small.
ghost use Rattle.std.specs.Prelude.{◌≡◌};
ghost use Rattle.radial_sums.specs.Rmn2l as Rmn2l;

use super::bessel_sums::Series;
use super::off_disc::OffDisc;
use bessel::sphj::Places;
use expansion::values::Pair;

// A sum with the sum remembered, by how much its last term changed it, and the order of that term.
#[derive(Clone, Copy)]
struct Reached {
    sum: f64,
    sw: f64,
    eps: f64,
    np: u32,
}

// The sum, from the sum sw0 remembered. Its loop is not that of `both_sums`: each sum remembers what the
// one before left, so that they go one after the other, and the product stands in brackets. df and bs
// are two arrays as in `rest`.
fn large_sum(df: &[f64; 200], bs: &[f64; 252], t: Series, sw0: f64) -> Reached
    ensures { result ≡ Rmn2l.large_sum df.now bs.now t.m t.ip t.half t.nm t.r0 sw0 }
{
    let mut r = t.r0;
    let mut sum = 0.0;
    let mut sw = sw0;
    let mut eps = 0.0;
    let mut np: u32 = 0;
    for j in 0..t.nm {
        r = t.factor(j, r);
        np = t.m + 2 * j + t.ip;
        sum = sum + t.lg(j) * r * (df[j as usize] * bs[np as usize]);
        eps = arith::abs(sum - sw);
        if t.stops(j, sum, sw) {
            return Reached { sum, sw, eps, np };
        }
        sw = sum;
    }
    Reached { sum, sw, eps, np }
}

// The source's `int_x86`: x truncated, and the least whole number of 32 bits where x is NaN or beyond
// them.
fn int_x86(x: f64) -> i32
    ensures { result ≡ Rmn2l.int_x86 x }
{
    if -2147483649.0 < x && x < 2147483648.0 {
        return arith::truncate(x);
    }
    i32::MIN
}

impl Reached {
    // Whether the last term changed the sum by more than a tenth. Where that is no number the source keeps
    // the sum.
    fn lost(self) -> bool
        ensures { result ≡ Rmn2l.lost self.sum self.eps }
    {
        -1 < int_x86(elementary::log10(self.eps / arith::abs(self.sum) + 1e-14))
    }
}

// The second kind: none where too many digits were lost or too few orders are known.
pub fn rmn2l(at: &OffDisc) -> Option<Pair>
    ensures { result ≡ Rmn2l.rmn2l at.now.df.now at.now.mode.m at.now.mode.n at.now.mode.c at.now.x }
{
    let t = at.series();
    let mut sy: Places = arith::filled(0.0);
    let mut dy: Places = arith::filled(0.0);
    let highest = bessel::sphy::sphy(at.mode.c * at.x, at.top(), &mut sy, &mut dy);
    let f = large_sum(at.df, &sy, t, at.common.sw);
    if highest <= f.np {
        return None;
    }
    if f.lost() {
        return None;
    }
    let d = large_sum(at.df, &dy, t, f.sw);
    if d.lost() {
        return None;
    }
    Some(super::rmn1::joined(at, f.sum, d.sum))
}
