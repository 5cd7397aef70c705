// The source's `sdmn`: expansion coefficients d of a mode, by a recurrence that is run downward from
// the last place to the joint and upward from the first place to it.
ghost use Rattle.std.specs.Prelude.{◌≡◌, ◌+◌, ◌-◌, ◌<◌, ◌≤◌};
ghost use Rattle.arith.specs.Double.{#0};
ghost use Rattle.expansion.specs.Sdmn as Sdmn;

use super::sums::Places;
use super::terms::Mode;

// The places from index `from` up to `to`, the last left out, times x. By index, as the definition
// counts: in a slice from `from` to `to` each place would have another number.
#[tactic(auto, unfolding(crate::specs::Sdmn::scaled))]
fn scale(df: &mut [f64; 200], x: f64, from: u32, to: u32)
    requires { (from ≤ to) × (to ≤ 200) }
    ensures { df.new ≡ Sdmn.scaled x (to - from) from df.old }
{
    for i in from..to {
        df[i as usize] *= x;
    }
}

// Whether coefficients are to be taken down by 1e-100 after f.
#[tactic(auto, unfolding(crate::specs::Sdmn::too_large))]
fn too_large(f: f64) -> bool
    ensures { result ≡ Sdmn.too_large f }
{
    1e100 < arith::abs(f)
}

// x as it is after f: times 1e-100 where f is too large.
#[tactic(auto, unfolding(crate::specs::Sdmn::reduced))]
fn reduced(f: f64, x: f64) -> f64
    ensures { result ≡ Sdmn.reduced f x }
{
    if too_large(f) {
        return x * 1e-100;
    }
    x
}

// The same for the places from index `from` up to `to`, the last left out.
#[tactic(auto, unfolding(crate::specs::Sdmn::reduced_places))]
fn reduce(df: &mut [f64; 200], f: f64, from: u32, to: u32)
    requires { (from ≤ to) × (to ≤ 200) }
    ensures { df.new ≡ Sdmn.reduced_places f (to - from) from df.old }
{
    if too_large(f) {
        scale(df, 1e-100, from, to);
    }
}

// Whether f is greater in size than x.
#[tactic(auto, unfolding(crate::specs::Sdmn::exceeds))]
fn exceeds(f: f64, x: f64) -> bool
    ensures { result ≡ Sdmn.exceeds f x }
{
    arith::abs(x) < arith::abs(f)
}

// f at index i where that is below kb.
#[tactic(auto, unfolding(crate::specs::Sdmn::stored_below))]
fn store_below(df: &mut [f64; 200], kb: u32, i: u32, f: f64)
    requires { kb ≤ 200 }
    ensures { df.new ≡ Sdmn.stored_below kb i f df.old }
{
    if i < kb {
        df[i as usize] = f;
    }
}

// The product of -4 j for j from 1 to n.
#[tactic(auto, unfolding(crate::specs::Sdmn::r4_of))]
fn r4_of(n: u32) -> f64
    requires { n < 1000 }
    ensures { result ≡ Sdmn.r4_of n }
{
    let mut p = 1.0;
    for j in 0..n {
        p *= -4.0 * ((j + 1) as f64);
    }
    p
}

// Where the downward pass ended: the joint, or 0 where it came through, and the coefficient there. No
// Option: the sums and the upward pass reckon with a joint at 0 as with any other.
#[derive(Clone, Copy)]
struct Joint {
    kb: u32,
    fl: f64,
}

// A sum and the factor of its last term.
#[derive(Clone, Copy)]
struct Sum {
    r1: f64,
    su1: f64,
}

// The recurrence by which the coefficients of one parity are formed.
#[derive(Clone, Copy)]
pub struct Recurrence {
    pub m: u32,
    // The parity of n - m.
    pub ip: u32,
    pub cs: f64,
    pub cv: f64,
    ghost small: { (m < 1000) × (ip < 2) },
}

impl Recurrence {
    ghost use Rattle.expansion.specs.Inside.Recurrences.{defined};

    // The bounds of k, kb, n and nm are asked where they are needed: k and kb are other numbers at each
    // call, and the definitions' record has no n and nm.

    // The coefficient below place k, from f0 at k and f1 above it. No twin of `above`: which of the
    // entries a and g is multiplied by and which is divided by differs.
    #[tactic(auto, unfolding(crate::specs::Sdmn::below))]
    fn below(self, k: u32, f1: f64, f0: f64) -> f64
        requires { k < 1000 }
        ensures { result ≡ Sdmn.below (defined self) k f1 f0 }
    {
        let i = 2 * k + self.ip;
        let d = sturm::entry_d(self.m, i, self.cs);
        let a = sturm::entry_a(self.m, i, self.cs);
        let g = sturm::entry_g(self.m, i, self.cs);
        -((d - self.cv) * f0 + a * f1) / g
    }

    // The coefficient above place k, from f2 at k and f1 below it.
    #[tactic(auto, unfolding(crate::specs::Sdmn::above))]
    fn above(self, k: u32, f1: f64, f2: f64) -> f64
        requires { k < 1000 }
        ensures { result ≡ Sdmn.above (defined self) k f1 f2 }
    {
        let i = 2 * k + self.ip;
        let d = sturm::entry_d(self.m, i, self.cs);
        let g = sturm::entry_g(self.m, i, self.cs);
        let a = sturm::entry_a(self.m, i, self.cs);
        -((d - self.cv) * f2 + g * f1) / a
    }

    // The second coefficient, from the first.
    #[tactic(auto, unfolding(crate::specs::Sdmn::second))]
    fn second(self, f1: f64) -> f64
        ensures { result ≡ Sdmn.second (defined self) f1 }
    {
        let d = sturm::entry_d(self.m, self.ip, self.cs);
        let a = sturm::entry_a(self.m, self.ip, self.cs);
        -((d - self.cv) / a) * f1
    }

    // Downward from place nm, as long as the coefficients grow.
    fn descend(self, nm: u32, df: &mut [f64; 200]) -> Joint
        requires { nm < 200 }
        ensures df_after { Sdmn.downward result.kb result.fl df.new ≡ Sdmn.descended (defined self) nm df.old }
        ensures kb_le_nm { result.kb ≤ nm }
    {
        let mut f1 = 0.0;
        let mut f0 = 1e-100;
        for k in (0..nm).rev() {
            let f = self.below(k + 1, f1, f0);
            let fl = df[(k + 1) as usize];
            if !exceeds(f, fl) {
                return Joint { kb: k + 1, fl };
            }
            df[k as usize] = f;
            reduce(df, f, k, nm);
            f1 = reduced(f, f0);
            f0 = reduced(f, f);
        }
        Joint { kb: 0, fl: 0.0 }
    }

    // Upward from place 1 to the joint: the coefficient there.
    fn climb(self, kb: u32, first: f64, second: f64, df: &mut [f64; 200]) -> f64
        requires { (0 < kb) × (kb < 200) }
        ensures { Sdmn.upward result df.new ≡ Sdmn.climbed (defined self) kb (kb - 1) 1 first second df.old }
    {
        let mut f1 = first;
        let mut f2 = second;
        for i in 1..kb {
            let f = self.above(i, f1, f2);
            store_below(df, kb, i + 1, f);
            reduce(df, f, 0, i + 2);
            f1 = reduced(f, f2);
            f2 = reduced(f, f);
        }
        f2
    }

    // The coefficient at the joint as the upward pass gives it.
    #[tactic(auto, unfolding(crate::specs::Sdmn::ascended))]
    fn ascend(self, kb: u32, df: &mut [f64; 200]) -> f64
        requires { kb < 200 }
        ensures { Sdmn.upward result df.new ≡ Sdmn.ascended (defined self) kb df.old }
    {
        if kb == 0 {
            return 1.0;
        }
        let f1 = 1e-100;
        let f2 = self.second(f1);
        df[0] = f1;
        if kb == 1 {
            return f2;
        }
        df[1] = f2;
        if kb == 2 {
            return self.above(1, f1, f2);
        }
        self.climb(kb, f1, f2, df)
    }

    // The factor of the coefficient that the source counts as the k-th, from that of the one before.
    fn next_factor(self, k: u32, r1: f64) -> f64
        requires { k < 1000 }
        ensures { result ≡ Sdmn.next_factor self.m self.ip k r1 }
    {
        -r1 * ((k + self.m + self.ip) as f64 - 1.5) / (k as f64 - 1.0)
    }

    // The sum over the coefficients up to the joint.
    #[tactic(auto, unfolding(crate::specs::Sdmn::sum_up_to, crate::specs::Sdmn::sum_on))]
    fn sum_up_to(self, df: &[f64; 200], kb: u32) -> Sum
        requires { kb < 200 }
        ensures { result ≡ Sdmn.sum_up_to df.now self.m self.ip kb }
    {
        let least = self.m + self.ip;
        let mut r1 = super::products::rise(1.0, least + 1, least);
        let mut su1 = df[0] * r1;
        for k in 2..kb + 1 {
            r1 = self.next_factor(k, r1);
            su1 = su1 + r1 * df[(k - 1) as usize];
        }
        Sum { r1, su1 }
    }

    // The factor at k, which has none before it where k is 1.
    #[tactic(auto, unfolding(crate::specs::Sdmn::factor_at))]
    fn factor_at(self, k: u32, r1: f64) -> f64
        requires { k < 1000 }
        ensures { result ≡ Sdmn.factor_at self.m self.ip k r1 }
    {
        if k == 1 {
            return r1;
        }
        self.next_factor(k, r1)
    }

    // The sum over the coefficients past the joint, until it has settled.
    fn sum_past(self, df: &[f64; 200], kb: u32, nm: u32, first: f64) -> f64
        requires { (kb ≤ nm) × (nm < 200) }
        ensures { result ≡ Sdmn.sum_past df.now self.m self.ip (nm - kb) (kb + 1) first #0 #0 }
    {
        let mut r1 = first;
        let mut su2 = 0.0;
        let mut sw = 0.0;
        for k in kb + 1..nm + 1 {
            r1 = self.factor_at(k, r1);
            su2 = su2 + r1 * df[(k - 1) as usize];
            if super::sums::settled(su2, sw) {
                return su2;
            }
            sw = su2;
        }
        su2
    }

    // The norm s0 of what both passes gave.
    #[tactic(auto, unfolding(crate::specs::Sdmn::norm_of))]
    fn norm(self, df: &[f64; 200], n: u32, nm: u32, joint: Joint, fs: f64) -> f64
        requires { (self.m + self.ip ≤ n) × (n < 1000) × (joint.kb ≤ nm) × (nm < 200) }
        ensures { result ≡ Sdmn.norm_of (defined self) n nm (Sdmn.downward joint.kb joint.fl df.now) (Sdmn.upward fs df.now) }
    {
        let m = self.m;
        let ip = self.ip;
        let low = self.sum_up_to(df, joint.kb);
        let high = self.sum_past(df, joint.kb, nm, low.r1);
        let r3 = super::products::rise_by(1.0, 1, 0.5 * ((n + m + ip) as f64), (m + n + ip) / 2);
        let r4 = r4_of((n - m - ip) / 2);
        r3 / (joint.fl * (low.su1 / fs) + high) / r4
    }

    // The coefficients where c is at least 1e-10.
    fn expand(self, n: u32, nm: u32) -> Places
        requires { (self.m + self.ip ≤ n) × (n < 1000) × (nm < 200) }
        ensures { result ≡ Sdmn.expanded (defined self) n nm }
    {
        let mut df = arith::filled(0.0);
        let joint = self.descend(nm, &mut df);
        let kb = joint.kb;
        let fl = joint.fl;
        let fs = self.ascend(kb, &mut df);
        let s0 = self.norm(&df, n, nm, joint, fs);
        scale(&mut df, fl / fs * s0, 0, kb);
        scale(&mut df, s0, kb, nm);
        df
    }
}

// The expansion coefficients of a mode; kd is the sign of the kind, a number that `routines_sdmn` lets
// callers choose. Places that the source does not write are zero.
pub fn sdmn(mode: Mode, cv: f64, kd: f64) -> Places
    ensures { result ≡ Sdmn.sdmn mode.m mode.n mode.c cv kd }
{
    if mode.c < 1e-10 {
        let mut df: Places = arith::filled(0.0);
        df[(mode.offset() / 2) as usize] = 1.0;
        return df;
    }
    let r = Recurrence {
        m: mode.m,
        ip: mode.parity(),
        cs: mode.c * mode.c * kd,
        cv,
    };
    r.expand(mode.n, mode.terms())
}
