// The search for an order, which `msta1` and `msta2` share: the secant method, each order cut to a
// whole number. Outside 1 to 100,000 an order is not tried.
ghost use Rattle.std.specs.Prelude.{◌≡◌, ◌≤◌, ◌<◌, cond, Some, None, unwrap_or, IfSome};
ghost use Rattle.bessel.specs.Secant as Secant;

// How many decimal digits below 1 the Bessel function of order n is at a0, about.
pub fn envj(a0: f64, n: u32) -> f64
    ensures { result ≡ Secant.envj a0 n }
{
    let order = n as f64;
    0.5 * elementary::log10(6.28 * order) - order * elementary::log10(1.36 * a0 / order)
}

// The order itself, if it may be tried.
#[tactic(auto, unfolding(crate::specs::Secant::may_try))]
fn tried(n: u32) -> Option<u32>
    ensures { result ≡ cond (Secant.may_try n) (Some n) None }
{
    if 0 < n && n <= 100000 { Some(n) } else { None }
}

// The order at which the line through f0 and f1, at the orders n0 and n1, is zero.
fn meeting(n0: u32, f0: f64, n1: u32, f1: f64) -> u32
    ensures { result ≡ Secant.meeting n0 f0 n1 f1 }
{
    arith::whole_part(n1 as f64 - (n1 as f64 - n0 as f64) / (1.0 - f0 / f1))
}

// At most 20 steps from the orders n0 and n1: none where an order may not be tried.
fn secant(a0: f64, obj: f64, first: u32, second: u32) -> Option<u32>
    requires { (0 < second) × (second ≤ 100000) }
    ensures value { unwrap_or result 0 ≡ Secant.secant a0 obj 20 first (Secant.excess a0 obj first) second (Secant.excess a0 obj second) }
    ensures some_bounds { IfSome result (λ k. (0 < k) × (k ≤ 100000)) }
{
    let mut n0 = first;
    let mut f0 = envj(a0, first) - obj;
    let mut n1 = second;
    let mut f1 = envj(a0, second) - obj;
    for _ in 0..20u32 {
        let nn = tried(meeting(n0, f0, n1, f1))?;
        // A name, so that the proof's goals are called alike whatever is compared.
        let met_again = nn == n1;
        if met_again {
            return Some(nn);
        }
        n0 = n1;
        f0 = f1;
        n1 = nn;
        f1 = envj(a0, nn) - obj;
    }
    Some(n1)
}

// The order at which the function is obj digits below 1, searched for from n0 and n0 + 5 on: none where
// an order may not be tried.
pub fn searched(a0: f64, obj: f64, n0: u32) -> Option<u32>
    ensures value { unwrap_or result 0 ≡ Secant.searched a0 obj n0 }
    ensures some_bounds { IfSome result (λ k. (0 < k) × (k ≤ 100000)) }
{
    let first = tried(n0)?;
    let second = tried(first + 5)?;
    secant(a0, obj, first, second)
}
