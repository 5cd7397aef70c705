// The source's `cbk`: right sides, and the elimination of a tridiagonal matrix. The products r1 are
// kept for each i and get one factor more from k to k; the source forms them anew for every k.
ghost use Rattle.std.specs.Prelude.{◌≡◌, ℕ, ◌+◌, ◌-◌, ◌%◌, ◌<◌, ◌≤◌, length};
ghost use Rattle.arith.specs.Double.{at, #0};
ghost use Rattle.expansion.specs.Terms.{terms_of};
ghost use Rattle.expansion.specs.Sums.{blank};
ghost use Rattle.joining.specs.Cbk as Cbk;
ghost use Rattle.joining.specs.Inside.Kept.{Holds};

use expansion::sckb::Partial;
use expansion::sums::Places;
use expansion::terms::Mode;

// The factor that r1 at i gets from j - 1 to j.
fn next_r1(m: u32, i: u32, j: u32, r1: f64) -> f64
    requires { (i + m < 4096) × (j ≤ i + m) }
    ensures { result ≡ Cbk.next_r1 m i j r1 }
{
    r1 * ((i + m - j) as f64) / (1.0 * (j as f64))
}

// What the right sides of a mode share: its order and parity, and the number of the last term.
#[derive(Clone, Copy)]
struct RightSides {
    m: u32,
    ip: u32,
    nm: u32,
    ghost small: { (m < 200) × (nm < 200) },
}

impl RightSides {
    // The first index of the sum for k: k - m + 1, which starts below zero; such terms are left out. No
    // `saturating_sub`: docs/SPECIFICATION.md has the form, an i32 that is tested before the cast.
    fn first_index(self, k: u32) -> usize
        requires { k < 1000 }
        ensures { result ≡ Cbk.first_index self.m k }
    {
        let i1: i32 = (k as i32) - (self.m as i32) + 1;
        if i1 < 0 {
            return 0;
        }
        i1 as usize
    }

    // A factor more, that of j, for the products at the indices from lo on.
    fn advance(self, r1: &mut [f64; 200], j: u32, lo: usize)
        requires { (length r1.old ≡ 200) × (j ≤ lo + self.m) × (lo ≤ self.nm + 1) }
        ensures r1_len { length r1.new ≡ 200 }
        ensures by_index { (i : ℕ) → lo ≤ i → i ≤ self.nm → at r1.new i ≡ Cbk.next_r1 self.m i j (at r1.old i) }
    {
        for i in lo as u32..self.nm + 1 {
            let here = i as usize;
            r1[here] = next_r1(self.m, i, j, r1[here]);
        }
    }

    // The sum with the term at i.
    fn add_term(self, ck: &[f64; 200], i: u32, r1: f64, s1: f64) -> f64
        requires { i < 200 }
        ensures { result ≡ Cbk.added ck.now self.m self.ip i r1 s1 }
    {
        let di = i as f64;
        let dm = self.m as f64;
        let here = ck[i as usize] * (2.0 * di + dm) * r1;
        if self.ip == 0 {
            return s1 + here;
        }
        if 0 < i {
            return s1 + ck[(i - 1) as usize] * (2.0 * di + dm - 1.0) * r1 - here;
        }
        s1 - here
    }

    // The sum for k from index lo on; sw0 is the sum remembered from the k before. A sum that has settled
    // is not remembered. ck stays as it is and r1 changes with k: they are no parts of one value.
    fn s1_from(self, ck: &[f64; 200], r1: &[f64; 200], k: u32, lo: usize, sw0: f64) -> Partial
        requires lo_bound { lo ≤ self.nm + 1 }
        requires holds { Holds r1.now self.m k lo self.nm }
        ensures { result ≡ Cbk.s1_from ck.now self.m self.ip k (self.nm + 1 - lo) lo #0 sw0 }
    {
        let mut s1 = 0.0;
        let mut sw = sw0;
        for i in lo as u32..self.nm + 1 {
            s1 = self.add_term(ck, i, r1[i as usize], s1);
            if expansion::sums::settled(s1, sw) {
                return Partial { sum: s1, sw };
            }
            sw = s1;
        }
        Partial { sum: s1, sw }
    }

    // The first n2 of them.
    fn all(self, ck: &[f64; 200], qt: f64, n2: u32) -> Places
        requires { n2 ≤ self.nm }
        ensures { result ≡ Cbk.right_sides ck.now self.m self.ip self.nm qt n2 0 #0 blank }
    {
        let mut r1 = arith::filled(1.0);
        let mut bk = arith::filled(0.0);
        let mut sw = 0.0;
        for k in 0..n2 {
            let p = self.s1_from(ck, &r1, k, self.first_index(k), sw);
            sw = p.sw;
            bk[k as usize] = qt * p.sum;
            self.advance(&mut r1, k + 1, self.first_index(k + 1));
        }
        bk
    }
}

// The tridiagonal matrix of a mode. u is the entry on the other side of its diagonal.
#[derive(Clone, Copy)]
struct Matrix {
    m: u32,
    ip: u32,
    cv: f64,
    u: f64,
    ghost in_range: { m < 1000 },
}

impl Matrix {
    // The diagonal entry of row j, from 1 on.
    fn v_at(self, j: u32) -> f64
        requires { j < 1000 }
        ensures { result ≡ Cbk.v_at self.m self.ip self.cv j }
    {
        let dj = j as f64;
        let dm = self.m as f64;
        let dip = self.ip as f64;
        let past: i32 = (j as i32) - (self.m as i32);
        (2.0 * dj - 1.0 - dip) * (2.0 * (past as f64) - dip) + dm * (dm - 1.0) - self.cv
    }

    // The entry beside it.
    fn w_at(self, j: u32) -> f64
        ensures { result ≡ Cbk.w_at self.ip j }
    {
        let dj = j as f64;
        let dip = self.ip as f64;
        (2.0 * dj - dip) * (2.0 * dj + 1.0 - dip)
    }

    // The elimination of n rows past the first: w has what stands beside the diagonal then, and bk the
    // right sides. Two arrays, of which bk is the answer: in a struct they took 3 KB of stack more, and
    // the header promises C how much there is.
    fn eliminate_rows(self, n: u32, w: &mut [f64; 200], bk: &mut [f64; 200])
        requires { n < 199 }
        ensures { Cbk.solved w.new bk.new ≡ Cbk.rows self.m self.ip self.cv self.u n (Cbk.solved w.old bk.old) }
    {
        for k in 0..n {
            let here = k as usize;
            let t = self.v_at(k + 2) - w[here] * self.u;
            w[here + 1] = self.w_at(k + 2) / t;
            bk[here + 1] = (bk[here + 1] - bk[here] * self.u) / t;
        }
    }

    // The elimination of the first row and n more, where w is blank.
    fn eliminate(self, n: u32, w: &mut [f64; 200], bk: &mut [f64; 200])
        requires { (n < 199) × (w.old ≡ blank) }
        ensures { Cbk.solved w.new bk.new ≡ Cbk.eliminated self.m self.ip self.cv self.u n bk.old }
    {
        let v = self.v_at(1);
        w[0] = self.w_at(1) / v;
        bk[0] = bk[0] / v;
        self.eliminate_rows(n, w, bk);
    }
}

// The substitution back from place `last` down.
fn substitute(w: &[f64; 200], last: u32, bk: &mut [f64; 200])
    requires { last < 199 }
    ensures { bk.new ≡ Cbk.substituted w.now last bk.old }
{
    for k in (0..last).rev() {
        let here = k as usize;
        bk[here] = bk[here] - w[here] * bk[here + 1];
    }
}

// The disc's coefficients of a mode.
pub fn cbk(ck: &[f64; 200], mode: Mode, cv: f64, qt: f64) -> Places
    ensures { result ≡ Cbk.cbk ck.now mode.m mode.n mode.c cv qt }
{
    let m = mode.m;
    let ip = mode.parity();
    let nm = mode.terms();
    let n2 = nm - 2;
    let mut bk = RightSides { m, ip, nm }.all(ck, qt, n2);
    let mut w = arith::filled(0.0);
    let matrix = Matrix {
        m,
        ip,
        cv,
        u: mode.c * mode.c,
    };
    matrix.eliminate(n2 - 1, &mut w, &mut bk);
    substitute(&w, n2 - 1, &mut bk);
    bk
}
