// Both families of a row, and the row in the caller's slices.
ghost use Rattle.std.specs.Prelude.{◌≡◌, ◌+◌, ◌-◌, ◌<◌, ◌≤◌, length};
ghost use Rattle.segv.specs.Families.{both_families};
ghost use Rattle.segv.specs.Inside.Arrays.{families};
ghost use Rattle.segv.specs.Row as Row;
ghost use Rattle.segv.specs.Row.{slices, written_row, number_of, answer, segv_row};

use super::bisection::{Bracket, Limits, OutOfSteps};
use super::families::family_of;

// The brackets of both parities.
#[derive(Drop)]
struct Both {
    even: [Bracket; 100],
    odd: [Bracket; 100],
}

impl Both {
    // The bracket of the mode at offset j.
    fn mode_at(&self, j: usize) -> Bracket
        requires { j < 200 }
        ensures { result ≡ Row.mode_at (families self.now.even self.now.odd) j }
    {
        let p = j / 2;
        if j % 2 == 0 {
            return self.even[p];
        }
        self.odd[p]
    }

    // The brackets of the first n modes go into the slices. Five beside each other, as the C interface
    // hands them on.
    fn write(
        &self,
        n: usize,
        values: &mut [f64],
        steps: &mut [u32],
        lowers: &mut [f64],
        uppers: &mut [f64],
        substituted: &mut [u8],
    )
        requires { (n ≤ 200) × (n ≤ length values.old) × (n ≤ length steps.old) × (n ≤ length lowers.old) × (n ≤ length uppers.old) × (n ≤ length substituted.old) }
        ensures { slices values.new steps.new lowers.new uppers.new substituted.new
            ≡ written_row (Row.mode_at (families self.now.even self.now.odd)) n (slices values.old steps.old lowers.old uppers.old substituted.old) }
    {
        for j in 0..n {
            let r = self.mode_at(j);
            values[j] = r.value;
            steps[j] = r.steps;
            lowers[j] = r.lower;
            uppers[j] = r.upper;
            substituted[j] = r.substituted as u8;
        }
    }
}

// The row of the modes from m to n: an error where a place is out of steps, and else the slices are
// filled. Nothing is written before both families are through. Five slices, as the C interface hands
// them on.
pub fn segv(
    m: u32,
    n: u32,
    cs: f64,
    entries: u32,
    allowance: u32,
    values: &mut [f64],
    steps: &mut [u32],
    lowers: &mut [f64],
    uppers: &mut [f64],
    substituted: &mut [u8],
) -> Result<(), OutOfSteps>
    requires m_bound { (m < 1000) × (m ≤ n) × (n < m + 200) × (0 < entries) × (entries ≤ 300) }
    requires m_in_bounds { (n - m < length values.old) × (n - m < length steps.old) × (n - m < length lowers.old) × (n - m < length uppers.old) × (n - m < length substituted.old) }
    ensures { answer (number_of result) (slices values.new steps.new lowers.new uppers.new substituted.new)
        ≡ segv_row (both_families m n cs entries allowance) (n - m + 1) (slices values.old steps.old lowers.old uppers.old substituted.old) }
{
    let limits = Limits {
        places: ((n - m + 2) / 2) as usize,
        allowance,
    };
    let even = family_of(m, 0, cs, entries, limits)?;
    let odd = family_of(m, 1, cs, entries, limits)?;
    let both = Both { even, odd };
    both.write(
        (n - m + 1) as usize,
        values,
        steps,
        lowers,
        uppers,
        substituted,
    );
    Ok(())
}
