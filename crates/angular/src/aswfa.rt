// The source's `aswfa`: value and derivative of the angular function at x, from the power
// coefficients ck.
ghost use Rattle.std.specs.Prelude.{◌≡◌, true, ◌++◌, ◌+◌, ◌-◌, ◌*◌, ◌%◌, ◌<◌, ◌≤◌, eqb, length, drop};
ghost use Rattle.expansion.specs.Sckb.{sckb};
ghost use Rattle.angular.specs.Aswfa as Aswfa;
ghost use Rattle.angular.specs.Inside.Stages.{Agree, Final};
ghost use Rattle.angular.specs.Inside.Turns.{in_turn};

use super::sums::Stage;
use expansion::sums::Places;
use expansion::terms::Mode;
pub use expansion::values::Pair;

// The derivative at |x| = 1.
#[tactic(auto, unfolding(crate::specs::Aswfa::derivative_at_one))]
fn derivative_at_one(ck: &[f64; 200], mode: Mode) -> f64
    ensures { result ≡ Aswfa.derivative_at_one ck.now mode.m ((mode.n - mode.m) % 2) }
{
    match mode.m {
        0 => (mode.parity() as f64) * ck[0] - 2.0 * ck[1],
        1 => -1e100,
        2 => -2.0 * ck[0],
        _ => 0.0,
    }
}

// The derivative anywhere else. nm2 is as in `sums`: the mode, nm2 and x come together, but nm2 changes
// with the stage, and x with the list in `aswfa_each`.
fn derivative_inside(
    ck: &[f64; 200],
    mode: Mode,
    nm2: u32,
    x: f64,
    x1: f64,
    a0: f64,
    su1: f64,
) -> Stage<f64>
    requires { (1 ≤ nm2) × (nm2 < 200) }
    ensures su_value { result.value ≡ Aswfa.derivative_inside ck.now mode.m ((mode.n - mode.m) % 2) nm2 x x1 a0 su1 }
    ensures fact { Final result.ended result.value (λ ys n. Aswfa.derivative_inside ys mode.m ((mode.n - mode.m) % 2) n x x1 a0 su1) ck.now nm2 }
{
    let ip = mode.parity();
    let xp = arith::power(x, ip + 1);
    let d0 = (ip as f64) - (mode.m as f64) / x1 * xp;
    let d1 = -2.0 * a0 * xp;
    let su2 = super::sums::su2_of(ck, x1, nm2);
    Stage {
        value: d0 * a0 * su1 + d1 * su2.value,
        ended: su2.ended,
    }
}

// The pair before its signs; x is the absolute value of the argument.
fn before_signs(ck: &[f64; 200], mode: Mode, nm2: u32, x: f64) -> Stage<Pair>
    requires { (1 ≤ nm2) × (nm2 < 200) }
    ensures pair_value { result.value ≡ Aswfa.before_signs ck.now mode.m ((mode.n - mode.m) % 2) nm2 x }
    ensures fact { Final result.ended result.value (λ ys n. Aswfa.before_signs ys mode.m ((mode.n - mode.m) % 2) n x) ck.now nm2 }
{
    let x1 = 1.0 - x * x;
    let a0 = expansion::products::half_of_m(x1, mode.m);
    let su1 = super::sums::su1_of(ck, x1, nm2);
    let s1f = a0 * arith::power(x, mode.parity()) * su1.value;
    if x == 1.0 {
        return Stage {
            value: Pair {
                value: s1f,
                derivative: derivative_at_one(ck, mode),
            },
            ended: su1.ended,
        };
    }
    let s1d = derivative_inside(ck, mode, nm2, x, x1, a0, su1.value);
    Stage {
        value: Pair {
            value: s1f,
            derivative: s1d.value,
        },
        ended: su1.ended & s1d.ended,
    }
}

// The pair before its signs, from as many power coefficients as its sums read: a first few, and twice
// as many until the sums have ended, up to nm2. Counts are multiples of four, as these are formed.
fn in_stages(df: &[f64; 200], mode: Mode, nm2: u32, x: f64) -> Pair
    requires { (1 ≤ nm2) × (nm2 < 106) }
    ensures { result ≡ Aswfa.before_signs (sckb df.now mode.m mode.n mode.c) mode.m ((mode.n - mode.m) % 2) nm2 x }
{
    let mut ck = arith::filled(0.0);
    let mut at = expansion::sckb::start(mode);
    let mut count: u32 = 16;
    // A `while`: the count doubles.
    while count <= nm2 {
        at = expansion::sckb::go_on(df, mode, at, count, &mut ck);
        let stage = before_signs(&ck, mode, count - 1, x);
        if stage.ended {
            return stage.value;
        }
        count *= 2;
    }
    expansion::sckb::go_on(df, mode, at, nm2 / 4 * 4 + 4, &mut ck);
    before_signs(&ck, mode, nm2, x).value
}

// s with the sign that it has at x0: negated below zero, where the parity of n - m flips it.
#[tactic(auto, unfolding(crate::specs::Aswfa::sign_at))]
fn sign_at(x0: f64, flips: bool, s: f64) -> f64
    ensures { result ≡ Aswfa.sign_at x0 flips s }
{
    if x0 < 0.0 && flips {
        return -s;
    }
    s
}

// A pair at |x0| with the signs that it has at x0.
fn with_signs(x0: f64, mode: Mode, p: Pair) -> Pair
    ensures { (result.value ≡ Aswfa.sign_at x0 (eqb ((mode.n - mode.m) % 2) 1) p.value) × (result.derivative ≡ Aswfa.sign_at x0 (eqb ((mode.n - mode.m) % 2) 0) p.derivative) }
{
    let ip = mode.parity();
    Pair {
        value: sign_at(x0, ip == 1, p.value),
        derivative: sign_at(x0, ip == 0, p.derivative),
    }
}

// The angular pair of a mode at x; kd is the sign of the kind, a number as in `sdmn`. It is defined for
// every x; callers test x.
pub fn aswfa(mode: Mode, cv: f64, kd: f64, x: f64) -> Pair
    ensures { result ≡ Aswfa.aswfa mode.m mode.n mode.c cv kd x }
{
    let nm2 = super::limit::nm2_of(mode);
    let df = expansion::sdmn::sdmn(mode, cv, kd);
    let p = in_stages(&df, mode, nm2, arith::abs(x));
    with_signs(x, mode, p)
}

// The power coefficients that sums up to nm2 read, in their places.
fn coefficients(df: &[f64; 200], mode: Mode, nm2: u32) -> Places
    requires { nm2 < 106 }
    ensures { Agree (nm2 + 1) result (sckb df.now mode.m mode.n mode.c) }
{
    let mut ck = arith::filled(0.0);
    let at = expansion::sckb::start(mode);
    expansion::sckb::go_on(df, mode, at, nm2 / 4 * 4 + 4, &mut ck);
    ck
}

// The pairs at each x of the list, value and derivative in turn, into the first places of `out`. The
// power coefficients are formed once, all that any x may need. By index: the contract speaks of the places
// 2 j and 2 j + 1, and of what is left past them.
pub fn aswfa_each(mode: Mode, cv: f64, kd: f64, xs: &[f64], out: &mut [f64])
    requires { (length xs.now < 1000) × (2 * length xs.now ≤ length out.old) }
    ensures { out.new ≡ in_turn (Aswfa.aswfa mode.m mode.n mode.c cv kd) xs.now ++ drop (2 * length xs.now) out.old }
{
    let nm2 = super::limit::nm2_of(mode);
    let df = expansion::sdmn::sdmn(mode, cv, kd);
    let ck = coefficients(&df, mode, nm2);
    for j in 0..xs.len() {
        let x = xs[j];
        let p = with_signs(x, mode, before_signs(&ck, mode, nm2, arith::abs(x)).value);
        out[2 * j] = p.value;
        out[2 * j + 1] = p.derivative;
    }
}
