// Eight lanes, run until each is through. The matrices, the limits and the lanes come beside each other:
// the lanes alone are written. That they are inside the places is no fact of a type: it would have to be
// shown anew after the write to each lane, and not once a pass.
ghost use Rattle.std.specs.Prelude.{◌≡◌, ℕ, ◌<◌, ◌≤◌, get_or, length, None, is_some, true};
ghost use Rattle.arith.specs.Double.{at};
ghost use Rattle.last_values.specs.Lane.{midpoint_of, weight, Stepped};
ghost use Rattle.last_values.specs.Lanes.{lane_of, Inside, Went};

use super::lane::Lane;
use lanes::Matrices;
use segv::Limits;

// Where each lane counts next.
fn midpoints(lanes: &[Lane; 8]) -> [f64; 8]
    ensures { (j : ℕ) → j < 8 → at result j ≡ midpoint_of (lane_of lanes.now j) }
{
    let mut out = [0.0; 8];
    for j in 0..8 {
        out[j] = lanes[j].midpoint();
    }
    out
}

// A step of each lane, by the counts at their midpoints.
fn step_each(lanes: &mut [Lane; 8], negative: [usize; 8], limits: Limits)
    requires { Inside limits.places lanes.old }
    ensures by_index { (j : ℕ) → j < 8 → Stepped limits.places limits.allowance (get_or negative j 0) (lane_of lanes.old j) (lane_of lanes.new j) }
    ensures eight { length lanes.new ≡ 8 }
{
    for j in 0..8 {
        lanes[j].step(negative[j], limits);
    }
}

// A step of each lane: one pass counts for all of them.
fn pass(matrices: &Matrices, limits: Limits, lanes: &mut [Lane; 8])
    requires { Inside limits.places lanes.old }
    ensures went { Went matrices.now limits.places limits.allowance lanes.old lanes.new }
    ensures by_index { (j : ℕ) → j < 8 → (lane_of lanes.old j).outcome ≡ None → weight limits.places limits.allowance (lane_of lanes.new j) < weight limits.places limits.allowance (lane_of lanes.old j) }
{
    let shifts = midpoints(lanes);
    let negative = matrices.negative_pivots(&shifts);
    step_each(lanes, negative, limits);
}

// Until lane j is through.
fn run_lane(matrices: &Matrices, limits: Limits, j: usize, lanes: &mut [Lane; 8])
    requires { (j < 8) × Inside limits.places lanes.old }
    ensures went { Went matrices.now limits.places limits.allowance lanes.old lanes.new }
    ensures through { is_some (lane_of lanes.new j).outcome ≡ true }
{
    // A `while`: how many steps the lane takes is not known before.
    while lanes[j].outcome.is_none() {
        pass(matrices, limits, lanes);
    }
}

// Until all are.
pub(crate) fn run(matrices: &Matrices, limits: Limits, lanes: &mut [Lane; 8])
    requires { Inside limits.places lanes.old }
    ensures went { Went matrices.now limits.places limits.allowance lanes.old lanes.new }
    ensures by_index { (j : ℕ) → j < 8 → is_some (lane_of lanes.new j).outcome ≡ true }
{
    for j in 0..8 {
        run_lane(matrices, limits, j, lanes);
    }
}
