// The source's `sphj`: spherical Bessel functions of the first kind and their derivatives.
ghost use Rattle.std.specs.Prelude.{◌≡◌, ◌≤◌, ◌<◌};
ghost use Rattle.bessel.specs.Sphj as Sphj;

// Room for orders up to 251.
pub type Places = [f64; 252];

// Whether x is so small that the source takes it for zero.
fn tiny(x: f64) -> bool
    ensures { result ≡ Sphj.tiny x }
{
    arith::abs(x) < 1e-100
}

// The highest order that is computed, and the one from which backward recurrence starts. Where that was
// not found it is 0 and no Option: the recurrence runs from 0 then too, and the contract of
// `routines_sphj` says what it gives.
#[derive(Clone, Copy)]
pub struct Orders {
    pub nm: u32,
    pub from: u32,
}

// Where x is not tiny.
fn searched_orders(x: f64, n: u32) -> Orders
    ensures value { result ≡ Sphj.searched_orders x n }
    ensures nm_le_n { (result.nm ≤ n) × (result.from ≤ 100010) }
{
    let m = super::msta1::msta1(x, 200).unwrap_or(0);
    if m < n {
        return Orders { nm: m, from: m };
    }
    let from = super::msta2::msta2(x, n, 15).unwrap_or(0);
    Orders { nm: n, from }
}

// The orders for the functions of order 0 to n at x.
pub fn find_orders(x: f64, n: u32) -> Orders
    ensures value { result ≡ Sphj.orders x n }
    ensures nm_le_n { (result.nm ≤ n) × (result.from ≤ 100010) }
{
    if tiny(x) {
        return Orders { nm: n, from: 1 };
    }
    searched_orders(x, n)
}

// The functions of order 0 and 1, and the derivative of the first.
#[derive(Clone, Copy)]
pub(crate) struct Lowest {
    pub sa: f64,
    pub sb: f64,
    pub da: f64,
}

fn lowest_orders(x: f64) -> Lowest
    ensures { result ≡ Sphj.lowest x }
{
    let s = elementary::sine(x);
    let c = elementary::cosine(x);
    let sa = s / x;
    Lowest {
        sa,
        sb: (sa - c) / x,
        da: (c - sa) / x,
    }
}

// The last two numbers of the recurrence, which belong to order 1 and 0.
#[derive(Clone, Copy)]
struct Last {
    f0: f64,
    f1: f64,
}

// The recurrence from the order `from` down to 0. Numbers up to order nm are kept: they are the functions
// up to a common factor.
fn recur(x: f64, nm: u32, from: u32, sj: &mut [f64; 252]) -> Last
    requires { (nm < 252) × (from ≤ 100010) }
    ensures { record { f0 = result.f0; f1 = result.f1; sj = sj.new } ≡ Sphj.recurred x nm from sj.old }
{
    let mut f0 = 0.0;
    let mut f1 = 1e-100;
    for k in (0..from + 1).rev() {
        let f = (2.0 * (k as f64) + 3.0) * f1 / x - f0;
        if k <= nm {
            sj[k as usize] = f;
        }
        f0 = f1;
        f1 = f;
    }
    Last { f0, f1 }
}

// The common factor, from the greater of the functions of order 0 and 1.
fn factor(sa: f64, sb: f64, f0: f64, f1: f64) -> f64
    ensures { result ≡ Sphj.factor sa sb f0 f1 }
{
    if arith::abs(sb) < arith::abs(sa) {
        return sa / f1;
    }
    sb / f0
}

// The first n places, each times cs.
fn scale(cs: f64, n: u32, sj: &mut [f64; 252])
    requires { n ≤ 252 }
    ensures { sj.new ≡ Sphj.scaled cs n sj.old }
{
    for f in &mut sj[..n as usize] {
        *f = *f * cs;
    }
}

// The derivatives of order 1 to nm, from the functions.
pub(crate) fn derive(x: f64, nm: u32, sj: &[f64; 252], dj: &mut [f64; 252])
    requires { nm < 252 }
    ensures { dj.new ≡ Sphj.derived x sj.now nm dj.old }
{
    for k in 1..nm + 1 {
        let here = k as usize;
        dj[here] = sj[here - 1] - (k as f64 + 1.0) * sj[here] / x;
    }
}

// The functions of order 0 to n at x into sj and their derivatives into dj, which are zero before, up
// to the highest order that `find_orders` gives; above it both stay zero. Two arrays and a number, and
// no struct of them: C lends them apart (`routines_sphj`), and n has the bounds of an index there.
pub fn sphj(x: f64, n: u32, o: Orders, sj: &mut [f64; 252], dj: &mut [f64; 252])
    requires le_n { (2 ≤ n) × (n < 252) × (o ≡ Sphj.orders x n) }
    requires nm_le_n { (o.nm ≤ n) × (o.from ≤ 100010) }
    requires sj_value { (sj.old ≡ Sphj.blank) × (dj.old ≡ Sphj.blank) }
    ensures sj_after { sj.new ≡ Sphj.sj x n }
    ensures dj_after { dj.new ≡ Sphj.dj x n }
{
    if tiny(x) {
        sj[0] = 1.0;
        dj[1] = 1.0 / 3.0;
        return;
    }
    let b = lowest_orders(x);
    let last = recur(x, o.nm, o.from, sj);
    scale(factor(b.sa, b.sb, last.f0, last.f1), o.nm + 1, sj);
    dj[0] = b.da;
    derive(x, o.nm, sj, dj);
}
