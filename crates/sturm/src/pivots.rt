// The Sturm count: how many pivots of the matrix are below zero at a shift. In exact arithmetic,
// where no pivot is zero, that is how many characteristic values lie below the shift; of rounded
// pivots it is not proved. Each pivot waits for the division before it, so the counts at seven shifts
// are taken in one loop, where seven divisions are under way at a time.
ghost use Rattle.std.specs.Prelude.{◌≡◌, false, ◌<◌};
ghost use Rattle.std.specs.Float.Ieee.{eq};
ghost use Rattle.arith.specs.Double.{#0};
ghost use Rattle.sturm.specs.Pivots as Pivots;
ghost use Rattle.sturm.specs.Pivots.{negative_pivots};
ghost use Rattle.sturm.specs.Inside.SevenShifts.{all, each, pairs, Each, EachTwo, EachThree, count_on, counts_at, no_counts, count_x};

use super::entries::Matrix;

// The count at a shift. No Option: the number counts whether or not 1e-30 was put in.
#[derive(Clone, Copy)]
pub struct Count {
    // How many pivots were below zero.
    pub negative: usize,
    // Whether 1e-30 was put in for a zero pivot.
    pub substituted: bool,
}

// A value for each of seven shifts, named as a bisection needs them: x for a midpoint, l and h for
// those of its lower and its upper half, ll to hh for those of its quarters. Nothing here depends on
// their order.
#[derive(Clone, Copy)]
pub struct Seven<T> {
    pub x: T,
    pub l: T,
    pub h: T,
    pub ll: T,
    pub lh: T,
    pub hl: T,
    pub hh: T,
}

// A count for each of them: the numbers together and the flags together, since the compiler keeps
// several numbers in a register only where they lie side by side.
#[derive(Clone, Copy)]
pub struct Counts {
    pub negative: Seven<usize>,
    pub substituted: Seven<bool>,
}

// A zero pivot would be divided by, so 1e-30 stands in for it.
#[tactic(auto, unfolding(crate::specs::Pivots::divisor))]
pub fn divisor(s: f64) -> f64
    ensures { result ≡ Pivots.divisor s }
{
    if s == 0.0 {
        return 1e-30;
    }
    s
}

// The square of a root beside the diagonal. It is formed where it is used: there is no array of them.
pub fn square(root: f64) -> f64
    ensures { result ≡ Pivots.square root }
{
    root * root
}

// The pivot at the entry d with a root beside it whose square is f. s is the pivot before it, or its
// substitute.
pub fn pivot(d: f64, f: f64, s: f64, shift: f64) -> f64
    ensures { result ≡ Pivots.pivot d f s shift }
{
    (d - f / s) - shift
}

pub fn counted(negative: usize, s: f64) -> usize
    requires { negative < 300 }
    ensures { result ≡ count_on negative s }
{
    if s < 0.0 {
        return negative + 1;
    }
    negative
}

impl<T: Copy> Seven<T> {
    // The same value for each.
    fn all(value: T) -> Seven<T>
        ensures { result ≡ all value }
    {
        Seven {
            x: value,
            l: value,
            h: value,
            ll: value,
            lh: value,
            hl: value,
            hh: value,
        }
    }

    // What f gives for each.
    fn map<U, F: Fn(T) -> U>(self, f: F) -> Seven<U>
        requires { Each (F.pre f) self }
        ensures { EachTwo (F.post f) self result }
    {
        Seven {
            x: f(self.x),
            l: f(self.l),
            h: f(self.h),
            ll: f(self.ll),
            lh: f(self.lh),
            hl: f(self.hl),
            hh: f(self.hh),
        }
    }

    // What f gives for each with the other of its shift.
    fn map_with<S: Copy, U, F: Fn(T, S) -> U>(self, other: Seven<S>, f: F) -> Seven<U>
        requires { EachTwo (F.pre f) self other }
        ensures { EachThree (F.post f) self other result }
    {
        Seven {
            x: f(self.x, other.x),
            l: f(self.l, other.l),
            h: f(self.h, other.h),
            ll: f(self.ll, other.ll),
            lh: f(self.lh, other.lh),
            hl: f(self.hl, other.hl),
            hh: f(self.hh, other.hh),
        }
    }
}

impl Seven<f64> {
    // False only where no pivot is zero, so that none has to be substituted. No `map`: all seven are
    // compared before the caller's one branch.
    fn any_zero(self) -> bool
        ensures { result ≡ false → Each (λ s. eq s #0 ≡ false) self }
    {
        (self.x == 0.0)
            | (self.l == 0.0)
            | (self.h == 0.0)
            | (self.ll == 0.0)
            | (self.lh == 0.0)
            | (self.hl == 0.0)
            | (self.hh == 0.0)
    }

    fn divisors(self) -> Seven<f64>
        ensures { result ≡ each Pivots.divisor self }
    {
        self.map(divisor)
    }

    // The pivots after these divisors, at the entry d with a root beside it whose square is f.
    fn next(self, d: f64, f: f64, shifts: Seven<f64>) -> Seven<f64>
        ensures { result ≡ pairs (Pivots.pivot d f) self shifts }
    {
        self.map_with(shifts, |s, shift| pivot(d, f, s, shift))
    }
}

impl Seven<usize> {
    fn counted(self, s: Seven<f64>) -> Seven<usize>
        requires { Each (λ n. n < 300) self }
        ensures { result ≡ pairs count_on self s }
    {
        self.map_with(s, counted)
    }
}

impl Counts {
    // Before any pivot.
    pub fn none() -> Counts
        ensures { result ≡ no_counts }
    {
        Counts {
            negative: Seven::all(0),
            substituted: Seven::all(false),
        }
    }

    // The count at the shift x.
    pub fn at_x(self) -> Count
        ensures { result ≡ count_x self }
    {
        Count {
            negative: self.negative.x,
            substituted: self.substituted.x,
        }
    }
}

impl Matrix {
    // Whether 1e-30 is put in during the count at a shift.
    #[tactic(auto, unfolding(crate::specs::Pivots::negative_pivots, crate::specs::Pivots::pivots_at, crate::specs::Pivots::next_pivot))]
    fn substitutes(&self, shift: f64) -> bool
        ensures { result ≡ (negative_pivots self.now.d self.now.e self.now.entries shift).substituted }
    {
        let mut s = 1.0;
        let mut substituted = false;
        for i in 0..self.entries {
            substituted = (s == 0.0) | substituted;
            s = pivot(self.d[i], square(self.e[i]), divisor(s), shift);
        }
        substituted
    }

    // At each of seven shifts.
    fn substitutes_at(&self, shifts: Seven<f64>) -> Seven<bool>
        ensures { result ≡ (counts_at (negative_pivots self.now.d self.now.e self.now.entries) shifts).substituted }
    {
        shifts.map(|shift| self.substitutes(shift))
    }

    // The count over all entries, at each shift. A zero pivot is rare, so the loop only tells whether
    // there was one at any shift; where there was, each shift is asked for its own.
    pub fn negative_pivots(&self, shifts: Seven<f64>) -> Counts
        ensures { result ≡ counts_at (negative_pivots self.now.d self.now.e self.now.entries) shifts }
    {
        let mut s: Seven<f64> = Seven::all(1.0);
        let mut negative: Seven<usize> = Seven::all(0);
        let mut zero_met = false;
        for i in 0..self.entries {
            // One branch for all seven keeps the substitute from delaying every division.
            if s.any_zero() {
                zero_met = true;
                s = s.divisors();
            }
            // One square for all seven shifts.
            s = s.next(self.d[i], square(self.e[i]), shifts);
            negative = negative.counted(s);
        }
        if zero_met {
            return Counts {
                negative,
                substituted: self.substitutes_at(shifts),
            };
        }
        Counts {
            negative,
            substituted: Seven::all(false),
        }
    }
}
