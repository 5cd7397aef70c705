// The places of one parity, bisected in order.
ghost use Rattle.std.specs.Prelude.{◌≡◌, ◌<◌, ◌≤◌, replicate};
ghost use Rattle.segv.specs.Families as Families;

use super::bisection::{Bracket, Limits, OutOfSteps, bisect};
use super::ends::Ends;

// Written out and not by `arith::filled`, of which the compiler makes a loop of stores: a small row took
// 3 % longer.
fn blank_brackets() -> [Bracket; 100]
    ensures { result ≡ replicate 100 Families.blank_bracket }
{
    let blank = Bracket {
        value: 0.0,
        lower: 0.0,
        upper: 0.0,
        steps: 0,
        substituted: false,
    };
    [blank; 100]
}

// All places, each from its own start. The first that is out of steps stops the family.
fn bisect_family(
    matrix: &sturm::Matrix,
    limits: Limits,
    bounds: sturm::Bounds,
) -> Result<[Bracket; 100], OutOfSteps>
    ensures { result ≡ Families.handed_on (Families.bisected_family matrix.now.d matrix.now.e matrix.now.entries limits.places limits.allowance bounds) }
{
    let mut ends = Ends::within(bounds);
    let mut out = blank_brackets();
    for p in 0..limits.places {
        let start = ends.opened(p, limits.places);
        let r = bisect(matrix, limits, p + 1, start, &mut ends)?;
        out[p] = r;
        // The next place may start from this lower. No later place looks at this upper.
        ends.lowers[p] = r.lower;
    }
    Ok(out)
}

// The family of one parity, 0 even and 1 odd.
pub(crate) fn family_of(
    m: u32,
    parity: u32,
    cs: f64,
    entries: u32,
    limits: Limits,
) -> Result<[Bracket; 100], OutOfSteps>
    requires { (m < 1000) × (parity < 2) × (0 < entries) × (entries ≤ 300) }
    ensures { result ≡ Families.handed_on (Families.family_of m parity cs entries limits.places limits.allowance) }
{
    let matrix = sturm::family_matrix(m, parity, cs, entries);
    bisect_family(&matrix, limits, matrix.gershgorin())
}
