// The source's `sckb`: the coefficients of the powers of 1 - x^2, from the expansion coefficients.
ghost use Rattle.std.specs.Prelude.{◌≡◌, ◌+◌, ◌-◌, ◌%◌, ◌<◌, ◌≤◌, suc, min, max, set};
ghost use Rattle.std.specs.Float.Ieee.{neg};
ghost use Rattle.arith.specs.Double.{#0};
ghost use Rattle.arith.specs.Powers.{half_to};
ghost use Rattle.expansion.specs.Terms as Terms;
ghost use Rattle.expansion.specs.Sckb as Sckb;
ghost use Rattle.expansion.specs.Inside.Carried.{Stands, StandsFor};

use super::four::Term;
use super::sums::Places;
use super::terms::Mode;

// A sum, and the sum remembered before it.
#[derive(Clone, Copy)]
pub struct Partial {
    pub sum: f64,
    pub sw: f64,
}

// reg times n!.
#[tactic(auto, unfolding(crate::specs::Sckb::factorial))]
fn factorial(reg: f64, n: u32) -> f64
    requires { n < 4000 }
    ensures { result ≡ Sckb.factorial reg n }
{
    super::products::rise(reg, 2, n.saturating_sub(1))
}

// reg times (n + 1)!, from reg times n!.
fn next_factorial(reg: f64, n: u32, r1: f64) -> f64
    requires { (n < 4000) × (r1 ≡ Sckb.factorial reg n) }
    ensures { result ≡ Sckb.factorial reg (n + 1) }
{
    if n == 0 {
        return r1;
    }
    r1 * ((n + 1) as f64)
}

// 1e-200 for large orders, and else 1.
#[tactic(auto, unfolding(crate::specs::Sckb::regulator))]
pub fn regulator(m: u32, nm: u32) -> f64
    requires { m + nm < 4096 }
    ensures { result ≡ Sckb.regulator m nm }
{
    if 80 < m + nm {
        return 1e-200;
    }
    1.0
}

// What goes from coefficient to coefficient: k is the next one's number, r1 is reg times (m + k)!.
#[derive(Clone, Copy)]
pub struct Carried {
    pub k: u32,
    pub fac: f64,
    pub r1: f64,
    pub sw: f64,
}

// What the sums of all power coefficients of a mode share: its order and parity, the number of the last
// term, and the regulator. df and k are no fields: df is lent, so that every clause would name it through
// a reference, and k is another number at each call.
#[derive(Clone, Copy)]
pub(crate) struct PowerSums {
    pub(crate) m: u32,
    pub(crate) ip: u32,
    pub(crate) nm: u32,
    pub(crate) reg: f64,
    ghost small: { (m < 200) × (ip < 2) × (nm < 200) },
    ghost regular: { reg ≡ Sckb.regulator m nm },
}

impl PowerSums {
    // Those of a mode.
    fn of(mode: Mode) -> PowerSums
        ensures { (result.m ≡ mode.m) × (result.ip ≡ (mode.n - mode.m) % 2) × (result.nm ≡ Terms.power_terms_of (mode.n - mode.m) mode.c) }
    {
        let m = mode.m;
        let nm = mode.power_terms();
        PowerSums {
            m,
            ip: mode.parity(),
            nm,
            reg: regulator(m, nm),
        }
    }

    // The factor of term i of coefficient k, from that of the term before.
    pub(crate) fn next_factor(self, k: u32, r: f64, i: u32) -> f64
        requires { (k ≤ i) × (i < 200) }
        ensures { result ≡ Sckb.next_factor self.m self.ip k r i }
    {
        let d1 = 2.0 * (i as f64) + (self.ip as f64);
        let d2 = 2.0 * (self.m as f64) + d1;
        let d3 = ((i + self.m + self.ip) as f64) - 0.5;
        r * d2 * (d2 - 1.0) * (i as f64) * (d3 + (k as f64))
            / (d1 * (d1 - 1.0) * ((i - k) as f64) * d3)
    }

    // The terms of coefficient k from term i on, t before it, until the sum has settled. A sum that has
    // settled is not remembered: sw stays as it was.
    pub(crate) fn sum_terms(self, df: &[f64; 200], k: u32, from: u32, t: Term, sw0: f64) -> Partial
        requires { (k < from) × (from ≤ suc self.nm) }
        ensures { result ≡ Sckb.terms df.now self.m self.ip k (suc self.nm - from) from t.r t.sum sw0 }
    {
        let mut r = t.r;
        let mut sum = t.sum;
        let mut sw = sw0;
        for i in from..self.nm + 1 {
            r = self.next_factor(k, r, i);
            sum += r * df[i as usize];
            if super::sums::settled(sum, sw) {
                return Partial { sum, sw };
            }
            sw = sum;
        }
        Partial { sum, sw }
    }

    // The sum of coefficient k; sw is the sum remembered from the coefficient before.
    fn sum_of(self, df: &[f64; 200], k: u32, sw: f64) -> Partial
        requires { k ≤ self.nm }
        ensures { result ≡ Sckb.sum_of df.now self.m self.ip self.nm self.reg k sw }
    {
        let whole = super::products::rise(self.reg, 2 * k + self.ip + 1, 2 * self.m);
        let r = super::products::rise_by(whole, k + self.m + self.ip, 0.5, k);
        let first = Term {
            r,
            sum: r * df[k as usize],
        };
        self.sum_terms(df, k, k + 1, first, sw)
    }

    // Puts the coefficient that is next into its place, from its sum.
    fn put(self, at: Carried, p: Partial, ck: &mut [f64; 200]) -> Carried
        requires { (at.k < 200) × (at.r1 ≡ Sckb.factorial self.reg (self.m + at.k)) }
        ensures ck_after { ck.new ≡ set ck.old at.k (Sckb.value_of self.reg self.m at.k (neg at.fac) p.sum) }
        ensures k_value { (result.k ≡ at.k + 1) × (result.fac ≡ neg at.fac) × (result.sw ≡ p.sw) × (result.r1 ≡ Sckb.factorial self.reg (self.m + result.k)) }
    {
        let fac = -at.fac;
        ck[at.k as usize] = fac * p.sum / at.r1;
        Carried {
            k: at.k + 1,
            fac,
            r1: next_factorial(self.reg, self.m + at.k, at.r1),
            sw: p.sw,
        }
    }

    // Coefficients in fours, as long as four are left of `count`.
    fn fill_fours(self, df: &[f64; 200], count: u32, start: Carried, ck: &mut [f64; 200]) -> Carried
        requires { (count ≤ self.nm) × Stands df.now self.m self.ip self.nm start ck.old }
        ensures stands { Stands df.now self.m self.ip self.nm result ck.new }
        ensures k_le_k { (start.k ≤ result.k) × (result.k ≤ max start.k count) }
    {
        let mut at = start;
        // A `while`: `put` counts.
        while at.k + 4 <= count {
            let s = self.four_sums(df, at.k, at.sw);
            let at1 = self.put(at, s.a, ck);
            let at2 = self.put(at1, s.b, ck);
            let at3 = self.put(at2, s.c, ck);
            at = self.put(at3, s.d, ck);
        }
        at
    }

    // Coefficients one by one, up to `count`.
    fn fill_rest(self, df: &[f64; 200], count: u32, start: Carried, ck: &mut [f64; 200]) -> Carried
        requires { (count ≤ self.nm) × Stands df.now self.m self.ip self.nm start ck.old }
        ensures stands { Stands df.now self.m self.ip self.nm result ck.new }
        ensures k_value { result.k ≡ max start.k count }
    {
        let mut at = start;
        // A `while`: `put` counts.
        while at.k < count {
            let p = self.sum_of(df, at.k, at.sw);
            at = self.put(at, p, ck);
        }
        at
    }
}

// What is carried to the first coefficient.
pub fn start(mode: Mode) -> Carried
    ensures { (result.k ≡ 0) × (result.fac ≡ neg (half_to mode.m)) × (result.sw ≡ #0) × (result.r1 ≡ Sckb.factorial (Sckb.regulator mode.m (Terms.power_terms_of (mode.n - mode.m) mode.c)) mode.m) }
{
    let sums = PowerSums::of(mode);
    Carried {
        k: 0,
        fac: -arith::power(0.5, mode.m),
        r1: factorial(sums.reg, mode.m),
        sw: 0.0,
    }
}

// Goes on to the first `count` coefficients, or to all where there are fewer. They are formed in
// order, so that a caller who needs few of them forms few. df is read and ck is filled, at other places:
// they are no parts of one value.
pub fn go_on(df: &[f64; 200], mode: Mode, at: Carried, count: u32, ck: &mut [f64; 200]) -> Carried
    requires { StandsFor df.now mode.m mode.n mode.c at ck.old }
    ensures stands_for { StandsFor df.now mode.m mode.n mode.c result ck.new }
    ensures k_value { result.k ≡ max at.k (min count (Terms.power_terms_of (mode.n - mode.m) mode.c)) }
{
    let sums = PowerSums::of(mode);
    let goal = count.min(sums.nm);
    let rest = sums.fill_fours(df, goal, at, ck);
    sums.fill_rest(df, goal, rest, ck)
}

// The coefficients of the powers of 1 - x^2 for a mode.
pub fn sckb(df: &[f64; 200], mode: Mode) -> Places
    ensures { result ≡ Sckb.sckb df.now mode.m mode.n mode.c }
{
    let mut ck = arith::filled(0.0);
    go_on(df, mode, start(mode), mode.power_terms(), &mut ck);
    ck
}
