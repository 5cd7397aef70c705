// The source's `kmn`, as far as the disc needs it: the joining factor ck1 with kd = -1.
ghost use Rattle.std.specs.Prelude.{◌≡◌, ◌-◌, ◌%◌, ◌<◌};
ghost use Rattle.joining.specs.Kmn as Kmn;

use super::sums::Test;
use expansion::terms::Mode;

// The product of 2 c j for j from 1 to m, in the order of `kmn`.
fn r2_of(c: f64, m: u32) -> f64
    requires { m < 1000 }
    ensures { result ≡ Kmn.r2_of c m }
{
    let mut r2 = 1.0;
    for j in 1..m + 1 {
        r2 = 2.0 * c * r2 * (j as f64);
    }
    r2
}

fn sa0_of(df: &[f64; 200], mode: Mode) -> f64
    ensures { result ≡ Kmn.sa0_of df.now mode.m mode.n ((mode.n - mode.m) % 2) mode.c }
{
    let Mode { m, n, c } = mode;
    let ip = mode.parity();
    let below = super::sums::sa0_below(m, n, ip, c, r2_of(c, m)) * df[0];
    super::sums::sa0_above(m, n, ip) / below
}

// The joining factor of a mode with these expansion coefficients.
pub fn kmn(df: &[f64; 200], mode: Mode) -> f64
    ensures { result ≡ Kmn.kmn df.now mode.m mode.n mode.c }
{
    let ip = mode.parity();
    let half = mode.offset() / 2;
    let su0 = super::sums::expansion_sum(Test::Quotient, df, mode.m, ip, half, mode.terms(), 1.0);
    sa0_of(df, mode) * su0
}
