// What `kmn`, `cbk` and the disc share.
ghost use Rattle.std.specs.Prelude.{◌≡◌, ◌+◌, ◌<◌, ◌≤◌};
ghost use Rattle.joining.specs.Sums as Sums;

use expansion::sckb::Partial;

// How a sum over the expansion coefficients is held against the one before. An enum and no closure: the
// definitions go by these two names.
#[derive(Clone, Copy, Debug, PartialEq, Eq)]
pub enum Test {
    // By their difference over the sum: `kmn`.
    Quotient,
    // By their difference against the sum times 1e-14: `rmn1`.
    Product,
}

fn settled_by(test: Test, sum: f64, sw: f64) -> bool
    ensures { result ≡ Sums.settled_by test sum sw }
{
    match test {
        Test::Quotient => arith::abs((sum - sw) / sum) < 1e-14,
        Test::Product => expansion::sums::settled(sum, sw),
    }
}

// m, ip, k and nm are numbers with bounds here and below, and no mode: these functions are public, and
// ask less than a mode does.

// The factor of the k-th coefficient in these sums, from that of the one before.
pub fn next_factor(m: u32, ip: u32, k: u32, r: f64) -> f64
    requires { (m < 1000) × (ip < 2) × (k < 1000) }
    ensures { result ≡ Sums.next_factor m ip k r }
{
    r * ((m + k) as f64 - 1.0) * ((m + k + ip) as f64 - 1.5)
        / (k as f64 - 1.0)
        / ((k + ip) as f64 - 1.5)
}

// Whether the sum may stop after its k-th term. `half` is the place of the mode's own coefficient.
pub fn stops(test: Test, half: u32, k: u32, sum: f64, sw: f64) -> bool
    ensures { result ≡ Sums.stops test half k sum sw }
{
    half < k && settled_by(test, sum, sw)
}

// The sum over nm expansion coefficients, and the sum remembered; reg is the regulator. A sum that has
// settled is not remembered.
pub fn expansion_partial(
    test: Test,
    df: &[f64; 200],
    m: u32,
    ip: u32,
    half: u32,
    nm: u32,
    reg: f64,
) -> Partial
    requires { (m < 1000) × (ip < 2) × (nm < 200) }
    ensures { result ≡ Sums.expansion_partial test df.now m ip half nm reg }
{
    let mut r = expansion::products::rise(reg, 1, 2 * m + ip);
    let mut sum = r * df[0];
    let mut sw = 0.0;
    for k in 2..nm + 1 {
        r = next_factor(m, ip, k, r);
        sum = sum + r * df[(k - 1) as usize];
        if stops(test, half, k, sum, sw) {
            return Partial { sum, sw };
        }
        sw = sum;
    }
    Partial { sum, sw }
}

// The sum alone.
pub fn expansion_sum(
    test: Test,
    df: &[f64; 200],
    m: u32,
    ip: u32,
    half: u32,
    nm: u32,
    reg: f64,
) -> f64
    requires { (m < 1000) × (ip < 2) × (nm < 200) }
    ensures { result ≡ Sums.expansion_sum test df.now m ip half nm reg }
{
    expansion_partial(test, df, m, ip, half, nm, reg).sum
}

// c to the power ip.
fn parity_power(c: f64, ip: u32) -> f64
    ensures { result ≡ Sums.parity_power c ip }
{
    if ip == 0 {
        return 1.0;
    }
    c
}

// Of the quotient sa0 what stands above the stroke.
pub fn sa0_above(m: u32, n: u32, ip: u32) -> f64
    requires { (ip < 2) × (m ≤ n) × (n ≤ 400) }
    ensures { result ≡ Sums.sa0_above m n ip }
{
    let r1 = expansion::products::rise_by(1.0, 1, 0.5 * ((n + m + ip) as f64), (m + n + ip) / 2);
    (2.0 * ((m + ip) as f64) + 1.0) * r1
}

// What stands below it; r2 is the product of 2 c j for j from 1 to m.
pub fn sa0_below(m: u32, n: u32, ip: u32, c: f64, r2: f64) -> f64
    requires { (m + ip ≤ n) × (n ≤ 400) }
    ensures { result ≡ Sums.sa0_below m n ip c r2 }
{
    let r3 = expansion::products::rise(1.0, 1, (n - m - ip) / 2);
    arith::power(2.0, n) * parity_power(c, ip) * r2 * r3
}
