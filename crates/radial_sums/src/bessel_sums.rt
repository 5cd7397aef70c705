// The two sums of `rmn1` off the disc, over expansion coefficients with Bessel functions and with their
// derivatives. Their terms share a factor, so that they are formed side by side until one has settled.
ghost use Rattle.std.specs.Prelude.{◌≡◌, ◌+◌, ◌*◌, ◌<◌, ◌≤◌};
ghost use Rattle.joining.specs.declared.sums.Test.TheVariants.{Product};
ghost use Rattle.joining.specs.Sums as Joining;
ghost use Rattle.radial_sums.specs.BesselSums as BesselSums;

use expansion::values::Pair;
use joining::sums::Test;

// What the terms of a sum depend on besides coefficients and Bessel functions: the order m, the parity ip
// and the half of n - m, how many terms there are, and the factor of the first one.
#[derive(Clone, Copy)]
pub(crate) struct Series {
    pub m: u32,
    pub ip: u32,
    pub half: u32,
    pub nm: u32,
    pub r0: f64,
    ghost bounded: { (m < 200) × (ip < 2) × (half < 200) × (nm < 200) × (2 * nm + m ≤ 251) },
}

impl Series {
    // The sign of the term for j.
    #[tactic(auto, unfolding(crate::specs::BesselSums::lg))]
    pub(crate) fn lg(self, j: u32) -> f64
        requires { j < 1000 }
        ensures { result ≡ BesselSums.lg self.half j }
    {
        if (self.half + j) % 2 == 0 {
            return 1.0;
        }
        -1.0
    }

    // The factor of the coefficient with index j, from that of the one before, or r itself for the first.
    #[tactic(auto, unfolding(crate::specs::BesselSums::factor))]
    pub(crate) fn factor(self, j: u32, r: f64) -> f64
        requires { j < 200 }
        ensures { result ≡ BesselSums.factor self.m self.ip j r }
    {
        if j == 0 {
            return r;
        }
        joining::sums::next_factor(self.m, self.ip, j + 1, r)
    }

    // Whether a sum may stop after its term for j.
    pub(crate) fn stops(self, j: u32, sum: f64, sw: f64) -> bool
        requires { j < 200 }
        ensures { result ≡ Joining.stops Product self.half (j + 1) sum sw }
    {
        joining::sums::stops(Test::Product, self.half, j + 1, sum, sw)
    }
}

// The rest of one sum from index j0 on, after a term with the factor r0. df and bs are read at different
// places: that of bs depends on m and ip too.
fn rest(df: &[f64; 200], bs: &[f64; 252], t: Series, j0: u32, r0: f64, s0: f64) -> f64
    requires { j0 ≤ t.nm }
    ensures { result ≡ BesselSums.sum_from df.now bs.now t.m t.ip t.half t.nm j0 r0 s0 s0 }
{
    let mut r = r0;
    let mut sum = s0;
    let mut sw = s0;
    for j in j0..t.nm {
        r = t.factor(j, r);
        sum = sum + t.lg(j) * r * df[j as usize] * bs[(t.m + 2 * j + t.ip) as usize];
        if t.stops(j, sum, sw) {
            return sum;
        }
        sw = sum;
    }
    sum
}

// Both sums. One loop over both, and for the one that goes on after the other `rest`: a loop for each
// would form every term's factor twice. sj and dj are two arrays, since `rest` goes over either.
pub(crate) fn both_sums(df: &[f64; 200], sj: &[f64; 252], dj: &[f64; 252], t: Series) -> Pair
    ensures { result ≡ record { value = BesselSums.bessel_sum df.now sj.now t.m t.ip t.half t.nm t.r0; derivative = BesselSums.bessel_sum df.now dj.now t.m t.ip t.half t.nm t.r0 } }
{
    let mut r = t.r0;
    let mut value = 0.0;
    let mut derivative = 0.0;
    let mut value0 = 0.0;
    let mut derivative0 = 0.0;
    for j in 0..t.nm {
        r = t.factor(j, r);
        let term = t.lg(j) * r * df[j as usize];
        let at = (t.m + 2 * j + t.ip) as usize;
        value = value + term * sj[at];
        derivative = derivative + term * dj[at];
        if t.stops(j, value, value0) {
            if t.stops(j, derivative, derivative0) {
                return Pair { value, derivative };
            }
            let derivative = rest(df, dj, t, j + 1, r, derivative);
            return Pair { value, derivative };
        }
        if t.stops(j, derivative, derivative0) {
            let value = rest(df, sj, t, j + 1, r, value);
            return Pair { value, derivative };
        }
        value0 = value;
        derivative0 = derivative;
    }
    Pair { value, derivative }
}
