// The last values of four rows.
ghost use Rattle.std.specs.Prelude.{◌≡◌, false, ℕ, ◌+◌, ◌-◌, ◌*◌, ◌<◌, ◌≤◌, get_or, OnOk, IfOk, IsOk};
ghost use Rattle.arith.specs.Double.{at};
ghost use Rattle.segv.specs.Families.{both_families, either_stopped};
ghost use Rattle.segv.specs.Row.{mode_at};
ghost use Rattle.last_values.specs.Lane.{stopped_in, value_in};
ghost use Rattle.last_values.specs.Lanes.{lane_of};

use super::lane::Lane;
use super::opening::{no_lanes, open_lanes};
use super::running::run;
use lanes::Matrices;
use segv::{Limits, OutOfSteps};

// By index: the contract speaks of each lane by its own.
fn any_stopped(lanes: &[Lane; 8]) -> bool
    ensures none_where_false { result ≡ false → (j : ℕ) → j < 8 → stopped_in (lane_of lanes.now j).outcome ≡ false }
    ensures false_where_none { ((j : ℕ) → j < 8 → stopped_in (lane_of lanes.now j).outcome ≡ false) → result ≡ false }
{
    let mut stopped = false;
    for j in 0..8 {
        stopped = lanes[j].stopped() | stopped;
    }
    stopped
}

// The values of the four lanes of this parity.
fn values_of(lanes: &[Lane; 8], parity: usize) -> [f64; 4]
    requires { parity < 2 }
    ensures { (q : ℕ) → q < 4 → at result q ≡ value_in (lane_of lanes.now (2 * q + parity)).outcome }
{
    let mut out = [0.0; 4];
    for q in 0..4 {
        out[q] = lanes[2 * q + parity].value();
    }
    out
}

// The value at n of the row of each of four matrices, which have the same m and n, this cs and so many
// entries; or that a place of one of them is out of steps.
pub fn last_values(
    m: u32,
    n: u32,
    cs: [f64; 4],
    entries: [u32; 4],
    allowance: u32,
) -> Result<[f64; 4], OutOfSteps>
    requires m_bound { (m < 1000) × (m ≤ n) × (n < m + 200) }
    requires by_index { (q : ℕ) → q < 4 → (0 < get_or entries q 0) × (get_or entries q 0 ≤ 192) }
    ensures given { IfOk result (λ values. (q : ℕ) → q < 4 → let f = both_families m n (at cs q) (get_or entries q 0) allowance in (either_stopped f ≡ false) × (at values q ≡ (mode_at f (n - m)).value)) }
    ensures by_index_2 { ((q : ℕ) → q < 4 → either_stopped (both_families m n (at cs q) (get_or entries q 0) allowance) ≡ false) → IsOk result }
{
    let limits = Limits {
        places: ((n - m + 2) / 2) as usize,
        allowance,
    };
    let mut matrices = Matrices::none();
    let mut lanes = no_lanes();
    open_lanes(m, cs, entries, limits, &mut matrices, &mut lanes);
    run(&matrices, limits, &mut lanes);
    if any_stopped(&lanes) {
        return Err(OutOfSteps);
    }
    Ok(values_of(&lanes, ((n - m) % 2) as usize))
}
