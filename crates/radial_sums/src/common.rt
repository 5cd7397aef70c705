// What `rmn1` off the disc and `rmn2l` share.
ghost use Rattle.std.specs.Prelude.{◌≡◌, ◌-◌, ◌<◌, ◌≤◌};
ghost use Rattle.expansion.specs.Terms.{terms_of};
ghost use Rattle.radial_sums.specs.Common.{common};

use expansion::terms::Mode;
use joining::sums::Test;

// How many terms the sums with Bessel functions have, the factor of their first term, and the sum over
// the expansion coefficients alone with the sum remembered.
#[derive(Clone, Copy)]
pub struct Common {
    pub nm: u32,
    pub r0: f64,
    pub suc: f64,
    pub sw: f64,
}

pub fn find_common(df: &[f64; 200], mode: Mode) -> Common
    ensures value { result ≡ common df.now mode.m mode.n mode.c }
    ensures le_nm { (25 ≤ result.nm) × (result.nm < 200) × (result.nm ≤ terms_of (mode.n - mode.m) mode.c) }
{
    let m = mode.m;
    let ip = mode.parity();
    let half = mode.offset() / 2;
    let nm = super::limits::first_terms(mode.offset(), mode.c);
    let reg = expansion::sckb::regulator(m, nm);
    let p = joining::sums::expansion_partial(Test::Product, df, m, ip, half, nm, reg);
    let r0 = expansion::products::rise(reg, 1, 2 * m + ip);
    Common {
        nm,
        r0,
        suc: p.sum,
        sw: p.sw,
    }
}
