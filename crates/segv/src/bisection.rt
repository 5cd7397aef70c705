// The bisection of one place.
ghost use Rattle.std.specs.Prelude.{◌≡◌, true, false, ◌<◌, ◌≤◌};
ghost use Rattle.segv.specs.Bisection as Bisection;
ghost use Rattle.segv.specs.Inside.Ahead.{midpoints_ahead, half_of, counts_after};
ghost use Rattle.sturm.specs.Pivots.{negative_pivots};
ghost use Rattle.sturm.specs.Inside.SevenShifts.{counts_at};

use super::ends::Ends;

// A place has used up its allowance of steps.
#[derive(Clone, Copy, Debug, PartialEq, Eq)]
pub struct OutOfSteps;

// How many places a parity has, and how many steps each of them.
#[derive(Clone, Copy, Debug)]
pub struct Limits {
    pub places: usize,
    pub allowance: u32,
    ghost few: { places ≤ 100 },
}

// A characteristic value with its bracket and its step number.
#[derive(Clone, Copy, Debug, PartialEq)]
pub struct Bracket {
    pub value: f64,
    pub lower: f64,
    pub upper: f64,
    pub steps: u32,
    // Whether 1e-30 was put in for a zero pivot in a count made for this value.
    pub substituted: bool,
}

impl Bracket {
    // The midpoint becomes the value, and the step is counted.
    pub(crate) fn with_midpoint(self) -> Bracket
        requires { self.steps < 4294967295 }
        ensures { result ≡ Bisection.with_midpoint self }
    {
        Bracket {
            value: (self.upper + self.lower) / 2.0,
            steps: self.steps + 1,
            ..self
        }
    }

    // The stopping test.
    pub(crate) fn converged(self) -> bool
        ensures { result ≡ Bisection.converged self }
    {
        arith::abs((self.upper - self.lower) / self.value) < 1e-14
    }

    // The value becomes the lower end where the count at it is below the place's number, and else
    // the upper.
    pub(crate) fn tightened(self, count: sturm::Count, place: usize) -> Bracket
        ensures { result ≡ Bisection.tighten count place self }
    {
        let substituted = self.substituted | count.substituted;
        if count.negative < place {
            return Bracket {
                lower: self.value,
                substituted,
                ..self
            };
        }
        Bracket {
            upper: self.value,
            substituted,
            ..self
        }
    }
}

// The counts at the midpoint of r, which is its value, at the two midpoints that the next step may
// come to, l in the lower half and h in the upper, and at the four of the step after.
fn counts_ahead(matrix: &sturm::Matrix, r: Bracket) -> sturm::Counts
    ensures { result ≡ counts_at (negative_pivots matrix.now.d matrix.now.e matrix.now.entries) (midpoints_ahead r) }
{
    let x = r.value;
    let l = (x + r.lower) / 2.0;
    let h = (r.upper + x) / 2.0;
    matrix.negative_pivots(sturm::Seven {
        x,
        l,
        h,
        ll: (l + r.lower) / 2.0,
        lh: (x + l) / 2.0,
        hl: (h + x) / 2.0,
        hh: (r.upper + h) / 2.0,
    })
}

// Those of seven that are left where a step takes the upper half, and nothing beyond.
fn upper_half<A: Copy>(of: sturm::Seven<A>, nothing: A) -> sturm::Seven<A>
    ensures { result ≡ half_of true nothing of }
{
    sturm::Seven {
        x: of.h,
        l: of.hl,
        h: of.hh,
        ll: nothing,
        lh: nothing,
        hl: nothing,
        hh: nothing,
    }
}

// And where it takes the lower.
fn lower_half<A: Copy>(of: sturm::Seven<A>, nothing: A) -> sturm::Seven<A>
    ensures { result ≡ half_of false nothing of }
{
    sturm::Seven {
        x: of.l,
        l: of.ll,
        h: of.lh,
        ll: nothing,
        lh: nothing,
        hl: nothing,
        hh: nothing,
    }
}

// The counts that are left after a step: those of the half that the count at x leaves. One branch for
// numbers and flags.
fn counts_after(counts: sturm::Counts, place: usize) -> sturm::Counts
    ensures { result ≡ counts_after place counts }
{
    if counts.negative.x < place {
        return sturm::Counts {
            negative: upper_half(counts.negative, 0),
            substituted: upper_half(counts.substituted, false),
        };
    }
    sturm::Counts {
        negative: lower_half(counts.negative, 0),
        substituted: lower_half(counts.substituted, false),
    }
}

// The bisection of the place with this number, from the bracket `start` on. The allowance falls by one
// at each midpoint. A step's count is not known before the step, but its midpoint is one of few: one
// pass counts for three steps, and takes little longer than for one. A call, since the compiler copies
// the matrix once more where this is inlined: a small row took an eighth longer.
#[inline(never)]
pub(crate) fn bisect(
    matrix: &sturm::Matrix,
    limits: Limits,
    place: usize,
    start: Bracket,
    ends: &mut Ends,
) -> Result<Bracket, OutOfSteps>
    requires { (0 < place) × (place ≤ limits.places) × (start.steps ≡ 0) }
    ensures { record { found = result; ends = ends.new }
        ≡ Bisection.bisection matrix.now.d matrix.now.e matrix.now.entries limits.places place limits.allowance start ends.old }
{
    let mut r = start;
    let mut counts = sturm::Counts::none();
    // for how many steps the counts are known
    let mut known: u32 = 0;
    for _step in 0..limits.allowance {
        r = r.with_midpoint();
        if r.converged() {
            return Ok(r);
        }
        if known == 0 {
            counts = counts_ahead(matrix, r);
            known = 3;
        }
        let x = r.value;
        let count = counts.at_x();
        r = r.tightened(count, place);
        ends.tighten_others(count, place, limits.places, x);
        counts = counts_after(counts, place);
        known = known - 1;
    }
    Err(OutOfSteps)
}
