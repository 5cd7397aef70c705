// Each lane with its family's matrix and its first place. The bounds of m and of the entries are those of
// the matrix that is made, and no fact of a value that is kept.
ghost use Rattle.std.specs.Prelude.{◌≡◌, ℕ, ◌<◌, ◌≤◌, ◌/◌, ◌%◌, length, get_or};
ghost use Rattle.arith.specs.Double.{at};
ghost use Rattle.lanes.specs.Lanes.{SameLane};
ghost use Rattle.last_values.specs.Lanes.{lane_of};
ghost use Rattle.last_values.specs.Values.{Opened};

use super::lane::Lane;
use lanes::Matrices;
use segv::{Ends, Limits};

// The family of one parity, 0 even and 1 odd, into lane j.
fn open_lane(
    m: u32,
    parity: u32,
    cs: f64,
    entries: u32,
    limits: Limits,
    j: usize,
    matrices: &mut Matrices,
    lane: &mut Lane,
)
    requires { (m < 1000) × (parity < 2) × (0 < entries) × (entries ≤ 192) × (0 < limits.places) × (j < 8) }
    ensures most { matrices.old.entries ≤ matrices.new.entries }
    ensures by_index { (i : ℕ) → i < 8 → (i ≡ j → ⊥) → SameLane matrices.old.d matrices.new.d i × SameLane matrices.old.e matrices.new.e i }
    ensures opened { Opened m parity cs entries limits.places limits.allowance j matrices.new lane.new }
{
    let matrix = sturm::family_matrix(m, parity, cs, entries);
    matrices.load(&matrix, j);
    lane.ends = Ends::within(matrix.gershgorin());
    lane.start(0, limits);
}

// Made and opened where the caller keeps them: eight lanes are 13 KB.
pub(crate) fn no_lanes() -> [Lane; 8]
    ensures { length result ≡ 8 }
{
    arith::filled(Lane {
        lower: 0.0,
        upper: 0.0,
        index: 0,
        left: 0,
        outcome: None,
        ends: Ends {
            uppers: arith::filled(0.0),
            lowers: arith::filled(0.0),
        },
    })
}

// Both families of the four matrices, the even one of matrix q into lane 2 * q and the odd one into the
// next.
pub(crate) fn open_lanes(
    m: u32,
    cs: [f64; 4],
    entries: [u32; 4],
    limits: Limits,
    matrices: &mut Matrices,
    lanes: &mut [Lane; 8],
)
    requires m_bound { (m < 1000) × (0 < limits.places) }
    requires by_index { (q : ℕ) → q < 4 → (0 < get_or entries q 0) × (get_or entries q 0 ≤ 192) }
    ensures eight { length lanes.new ≡ 8 }
    ensures by_index_2 { (j : ℕ) → j < 8 → Opened m (j % 2) (at cs (j / 2)) (get_or entries (j / 2) 0) limits.places limits.allowance j matrices.new (lane_of lanes.new j) }
{
    for j in 0..8 {
        open_lane(
            m,
            (j % 2) as u32,
            cs[j / 2],
            entries[j / 2],
            limits,
            j,
            matrices,
            &mut lanes[j],
        );
    }
}
