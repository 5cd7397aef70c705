// The source's `sphy`: spherical Bessel functions of the second kind and their derivatives.
ghost use Rattle.std.specs.Prelude.{◌≡◌, ◌-◌, ◌≤◌, ◌<◌, is_ok};
ghost use Rattle.bessel.specs.Sphj.{blank};
ghost use Rattle.bessel.specs.Sphy as Sphy;

use super::sphj::Lowest;

// Whether x is so small that the source takes all functions for infinite.
fn near_zero(x: f64) -> bool
    ensures { result ≡ Sphy.near_zero x }
{
    x < 1e-60
}

// The functions of order 0 and 1, and the derivative of the first.
fn lowest_orders(x: f64) -> Lowest
    ensures { result ≡ Sphy.lowest x }
{
    let s = elementary::sine(x);
    let c = elementary::cosine(x);
    let sa = -c / x;
    Lowest {
        sa,
        sb: (sa - s) / x,
        da: (s + c / x) / x,
    }
}

// The recurrence from order 2 to n, from the functions of order 0 and 1, and the highest order that
// counts as computed: an `Err` where it ended before n, at a function that reaches 1e300.
fn recur(x: f64, n: u32, sa: f64, sb: f64, sy: &mut [f64; 252]) -> Result<u32, u32>
    requires { (2 ≤ n) × (n < 252) }
    ensures { record { sy = sy.new; nm = Sphy.order_of result; whole = is_ok result } ≡ Sphy.steps_up x n (n - 1) 2 sa sb sy.old }
{
    let mut f0 = sa;
    let mut f1 = sb;
    for k in 2..n + 1 {
        let f = (2.0 * (k as f64) - 1.0) * f1 / x - f0;
        sy[k as usize] = f;
        if 1e300 <= arith::abs(f) {
            return Err(k - 1);
        }
        f0 = f1;
        f1 = f;
    }
    Ok(n - 1)
}

// The functions of order 0 to n at x into sy and their derivatives into dy, which are zero before, and
// the highest order that counts as computed. Two arrays and a number, and no struct of them: C lends
// them apart (`routines_sphy`), and n has the bounds of an index there.
pub fn sphy(x: f64, n: u32, sy: &mut [f64; 252], dy: &mut [f64; 252]) -> u32
    requires le_n { (2 ≤ n) × (n < 252) }
    requires sy_value { (sy.old ≡ blank) × (dy.old ≡ blank) }
    ensures value { result ≡ Sphy.highest x n }
    ensures sy_after { sy.new ≡ Sphy.sy x n }
    ensures dy_after { dy.new ≡ Sphy.dy x n }
{
    if near_zero(x) {
        sy[..=n as usize].fill(-1e300);
        dy[..=n as usize].fill(1e300);
        return n;
    }
    let b = lowest_orders(x);
    sy[0] = b.sa;
    sy[1] = b.sb;
    dy[0] = b.da;
    match recur(x, n, b.sa, b.sb, sy) {
        Ok(nm) => {
            super::sphj::derive(x, n - 1, sy, dy);
            nm
        }
        Err(nm) => nm,
    }
}
