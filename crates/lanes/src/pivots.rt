// The Sturm counts of all lanes, each at a shift of its own.
ghost use Rattle.std.specs.Prelude.{◌≡◌, false, cond, List, ℕ, ◌+◌, ◌*◌, ◌<◌, ◌≤◌, Float, length, get_or};
ghost use Rattle.std.specs.Float.Ieee.{eq, lt};
ghost use Rattle.arith.specs.Double.{#0, at};
ghost use Rattle.sturm.specs.Pivots as Pivots;
ghost use Rattle.sturm.specs.Pivots.{pivot, square, negative_pivots};
ghost use Rattle.lanes.specs.Lanes.{lane_at, Holds};

use super::entries::Matrices;

// False only where no pivot is zero. By index, and no `any`: all eight are compared before the one
// branch. `sturm` has the same for its seven shifts, which have names and no index.
fn any_zero(s: &[f64; 8]) -> bool
    ensures { result ≡ false → (j : ℕ) → j < 8 → eq (at s.now j) #0 ≡ false }
{
    let mut zero = false;
    for j in 0..8 {
        zero = (s[j] == 0.0) | zero;
    }
    zero
}

// 1e-30 for each zero pivot.
fn substitute(s: &mut [f64; 8])
    ensures s_len { length s.new ≡ 8 }
    ensures by_index { (j : ℕ) → j < 8 → at s.new j ≡ Pivots.divisor (at s.old j) }
{
    for j in 0..8 {
        s[j] = sturm::divisor(s[j]);
    }
}

// The same. A zero pivot is rare, and one branch for all lanes keeps the substitute from delaying
// every division.
fn substitute_zeros(s: &mut [f64; 8])
    ensures s_len { length s.new ≡ 8 }
    ensures by_index { (j : ℕ) → j < 8 → at s.new j ≡ Pivots.divisor (at s.old j) }
{
    if any_zero(s) {
        substitute(s);
    }
}

impl Matrices {
    // The pivots at entry i, by these divisors, and the counts with them. Each array has one kind for all
    // lanes, as a vector instruction takes it.
    fn advance(&self, i: usize, shifts: &[f64; 8], s: &mut [f64; 8], negative: &mut [usize; 8])
        requires i_bound { i < 192 }
        requires by_index { (j : ℕ) → j < 8 → get_or negative.old j 0 < 300 }
        ensures s_len { (length s.new ≡ 8) × (length negative.new ≡ 8) }
        ensures by_index_2 { (j : ℕ) → j < 8 → at s.new j ≡ pivot (lane_at self.now.d j i) (square (lane_at self.now.e j i)) (at s.old j) (at shifts.now j) }
        ensures by_index_3 { (j : ℕ) → j < 8 → get_or negative.new j 0 ≡ cond (lt (at s.new j) #0) (get_or negative.old j 0 + 1) (get_or negative.old j 0) }
    {
        for j in 0..8 {
            let at = 8 * i + j;
            let p = sturm::pivot(self.d[at], sturm::square(self.e[at]), s[j], shifts[j]);
            s[j] = p;
            negative[j] = sturm::counted(negative[j], p);
        }
    }

    // How many pivots of each lane's matrix are below zero at its own shift.
    pub fn negative_pivots(&self, shifts: &[f64; 8]) -> [usize; 8]
        ensures { (j k : ℕ) (d e : List Float) → j < 8 → k ≤ self.now.entries → Holds self.now.d self.now.e j k d e
            → get_or result j 0 ≡ (negative_pivots d e k (at shifts.now j)).negative }
    {
        let mut s = [1.0; 8];
        let mut negative: [usize; 8] = [0; 8];
        for i in 0..self.entries {
            substitute_zeros(&mut s);
            self.advance(i, shifts, &mut s, &mut negative);
        }
        negative
    }
}
