// The two sums over powers of x1 = 1 - x^2. The power is carried from term to term. nm2 is the number of
// the last term that is asked for, another at each stage, so that no value keeps its bounds.
ghost use Rattle.std.specs.Prelude.{◌≡◌, ◌<◌, ◌≤◌};
ghost use Rattle.angular.specs.Aswfa as Aswfa;
ghost use Rattle.angular.specs.Inside.Stages.{Final};

// The stopping test of a sum after its term r for k: k is at least 10 and r below 1e-14 of the sum su.
#[tactic(auto, unfolding(crate::specs::Aswfa::negligible))]
fn negligible(k: u32, r: f64, su: f64) -> bool
    ensures { result ≡ Aswfa.negligible k r su }
{
    10 <= k && arith::abs(r / su) < 1e-14
}

// What sums give, and whether they have ended: else they may go on past their last terms. No Option:
// what they give counts in both cases, since at the last coefficient they stop anyhow.
#[derive(Clone, Copy)]
pub struct Stage<T> {
    pub value: T,
    pub ended: bool,
}

// The sum of the value: ck[k] times the k-th power of x1.
pub(crate) fn su1_of(ck: &[f64; 200], x1: f64, nm2: u32) -> Stage<f64>
    requires { nm2 < 200 }
    ensures su_value { result.value ≡ Aswfa.su1_of ck.now x1 nm2 }
    ensures fact { Final result.ended result.value (λ ys n. Aswfa.su1_of ys x1 n) ck.now nm2 }
{
    let mut su1 = ck[0];
    let mut p = 1.0 * x1;
    for k in 1..nm2 + 1 {
        let r = ck[k as usize] * p;
        su1 += r;
        if negligible(k, r, su1) {
            return Stage {
                value: su1,
                ended: true,
            };
        }
        p *= x1;
    }
    Stage {
        value: su1,
        ended: false,
    }
}

// No twin of `su1_of`: a function of both would take the first place, the first k and the term, and
// nothing of its own would be left but the stopping test.

// The sum of the derivative: k times ck[k] times the power of x1 below the k-th.
pub(crate) fn su2_of(ck: &[f64; 200], x1: f64, nm2: u32) -> Stage<f64>
    requires { (1 ≤ nm2) × (nm2 < 200) }
    ensures su_value { result.value ≡ Aswfa.su2_of ck.now x1 nm2 }
    ensures fact { Final result.ended result.value (λ ys n. Aswfa.su2_of ys x1 n) ck.now nm2 }
{
    let mut su2 = ck[1];
    let mut p = 1.0 * x1;
    for k in 2..nm2 + 1 {
        let r = (k as f64) * ck[k as usize] * p;
        su2 += r;
        if negligible(k, r, su2) {
            return Stage {
                value: su2,
                ended: true,
            };
        }
        p *= x1;
    }
    Stage {
        value: su2,
        ended: false,
    }
}
