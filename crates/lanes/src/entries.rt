// The entries of all lanes.
ghost use Rattle.std.specs.Prelude.{◌≡◌, false, cond, ℕ, ◌<◌, ◌≤◌, ltb, max};
ghost use Rattle.std.specs.Float.{inf};
ghost use Rattle.arith.specs.Double.{at};
ghost use Rattle.lanes.specs.Lanes.{Holds, SameLane, no_entries};

// Room for 192 entries of each lane. Entry i of lane j is at 8 * i + j, so that those of one index lie
// side by side. Flat, and no rows of eight: the definition `lane_at` speaks of the place 8 * i + j, and
// the memory is the same. d and e are two arrays, as a vector instruction takes eight of one kind.
#[derive(Drop)]
pub struct Matrices {
    pub d: [f64; 1536],
    pub e: [f64; 1536],
    // Those of the lane that has most.
    pub entries: usize,
    ghost fits: { entries ≤ 192 },
}

// Past the last entry the diagonal is infinite.
fn entry_or_infinity(matrix: &sturm::Matrix, i: usize) -> f64
    requires { i < 300 }
    ensures { result ≡ cond (ltb i matrix.now.entries) (at matrix.now.d i) (inf false) }
{
    if i < matrix.entries {
        return matrix.d[i];
    }
    1.0 / 0.0
}

impl Matrices {
    pub fn none() -> Matrices
        ensures { (result.d ≡ no_entries) × (result.e ≡ no_entries) × (result.entries ≡ 0) }
    {
        Matrices {
            d: arith::filled(0.0),
            e: arith::filled(0.0),
            entries: 0,
        }
    }

    // A matrix into a lane. The other lanes stay as they are.
    pub fn load(&mut self, matrix: &sturm::Matrix, lane: usize)
        requires { (matrix.now.entries ≤ 192) × (lane < 8) }
        ensures most { self.new.entries ≡ max self.old.entries matrix.now.entries }
        ensures holds { Holds self.new.d self.new.e lane matrix.now.entries matrix.now.d matrix.now.e }
        ensures by_index { (j : ℕ) → j < 8 → (j ≡ lane → ⊥) → SameLane self.old.d self.new.d j × SameLane self.old.e self.new.e j }
    {
        for i in 0..192 {
            let at = 8 * i + lane;
            self.d[at] = entry_or_infinity(matrix, i);
            self.e[at] = matrix.e[i];
        }
        self.entries = self.entries.max(matrix.entries);
    }
}
