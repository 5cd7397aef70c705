// The source's `qstar`. Each inner sum sk depends on l alone, so it is formed once and kept; the
// source forms it anew for every i. The product of each l is that of the l before with a factor more.
ghost use Rattle.std.specs.Prelude.{◌≡◌, ℕ, ◌<◌, ◌≤◌};
ghost use Rattle.arith.specs.Double.{at};
ghost use Rattle.joining.specs.Qstar as Qstar;

use expansion::sums::Places;

#[derive(Clone, Copy)]
pub struct Factors {
    pub qs: f64,
    pub qt: f64,
}

// The bounds of l, m and i are those of an index: `qstar` takes m as a number.

// The sum over k from 0 to l of ck[k] ck[l - k].
fn sk_of(ck: &[f64; 200], l: u32) -> f64
    requires { l < 200 }
    ensures { result ≡ Qstar.sk_of ck.now l }
{
    let mut sk = 0.0;
    for k in 0..l + 1 {
        sk = sk + ck[k as usize] * ck[(l - k) as usize];
    }
    sk
}

// These sums for l from 0 to m.
fn inner_sums(ck: &[f64; 200], m: u32) -> Places
    requires { m < 200 }
    ensures { (l : ℕ) → l ≤ m → at result l ≡ Qstar.sk_of ck.now l }
{
    let mut sk = arith::filled(0.0);
    for l in 0..m + 1 {
        sk[l as usize] = sk_of(ck, l);
    }
    sk
}

// The sum over l from 1 to i of sk[l] ap[i - l]. Two arrays: the places that meet are not the same.
fn s_of(sk: &[f64; 200], ap: &[f64; 200], i: u32) -> f64
    requires { i < 200 }
    ensures { result ≡ Qstar.s_at (λ l. at sk.now l) ap.now i i }
{
    let mut s = 0.0;
    for l in 1..i + 1 {
        s = s + sk[l as usize] * ap[(i - l) as usize];
    }
    s
}

fn ap_of(ck: &[f64; 200], m: u32) -> Places
    requires { m < 200 }
    ensures { result ≡ Qstar.ap_up_to ck.now m }
{
    let sk = inner_sums(ck, m);
    let r = 1.0 / (ck[0] * ck[0]);
    let mut ap = arith::filled(0.0);
    ap[0] = r;
    for i in 1..m + 1 {
        let s = s_of(&sk, &ap, i);
        ap[i as usize] = -r * s;
    }
    ap
}

fn next_product(ip: u32, k: u32, r: f64) -> f64
    ensures { result ≡ Qstar.next_product ip k r }
{
    r * (2.0 * (k as f64) + (ip as f64)) * (2.0 * (k as f64) - 1.0 + (ip as f64))
        / (2.0 * (k as f64) * (2.0 * (k as f64)))
}

fn qs0_of(ap: &[f64; 200], m: u32, ip: u32) -> f64
    requires { m < 200 }
    ensures { result ≡ Qstar.qs0_at ap.now m ip m }
{
    let mut qs0 = ap[m as usize];
    let mut r = 1.0;
    for l in 1..m + 1 {
        r = next_product(ip, l, r);
        qs0 = qs0 + ap[(m - l) as usize] * r;
    }
    qs0
}

// -1 to the power ip.
fn parity_sign(ip: u32) -> f64
    ensures { result ≡ Qstar.parity_sign ip }
{
    if ip == 0 {
        return 1.0;
    }
    -1.0
}

// qs and qt of the mode of order m and degree n; ck are its power coefficients and ck1 is its joining
// factor. Numbers and no mode: `routines_qstar` lets C ask for more than the usable modes.
pub fn qstar(ck: &[f64; 200], m: u32, n: u32, c: f64, ck1: f64) -> Factors
    requires { (m < 200) × (m ≤ n) }
    ensures { result ≡ Qstar.qstar ck.now m n c ck1 }
{
    let ip = (n - m) % 2;
    let ap = ap_of(ck, m);
    let qs0 = qs0_of(&ap, m, ip);
    let qs = parity_sign(ip) * ck1 * (ck1 * qs0) / c;
    Factors {
        qs,
        qt: -2.0 / ck1 * qs,
    }
}
