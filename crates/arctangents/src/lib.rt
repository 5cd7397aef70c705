// The arctangent of a double: a guess in doubles, to the last bits, with no proof of how near it is,
// and a test in whole numbers that the arctangent lies within 2^-40 of it. sin t - x * cos t tells on
// which side of the arctangent of x a t from 0 to 2 lies.
#![tactic(auto)]

ghost use Rattle.std.specs.Prelude.{◌≡◌, false, true, ◌+◌, ◌*◌, ◌^◌, ◌≤◌, ◌<◌, T, pos};
ghost use Rattle.std.specs.Float.Ieee as Ieee;
ghost use Rattle.std.specs.Float.{fin, inf};
ghost use Rattle.std.specs.Float.Ieee.Positive.{num, den};
ghost use Rattle.arctangents.specs.Arctangent.{IsArctangent, Arctangent};
ghost use Rattle.arctangents.specs.Functions as Functions;
ghost use Rattle.arctangents.specs.Inside.ArctangentValues as ArctangentValues;
ghost use Rattle.arctangents.specs.Inside.Arctangent.{IsFine, Above, Below, IsFurther, Good, NearlyAbove, NearlyBelow, Between, IsHalved, Found};

// Whether p * 2^i is at most q * 2^j, where that is sure.
fn reaches(p: u64, q: u64, i: u64, j: u64) -> bool
    ensures sure { result ≡ true → p * 2 ^ i ≤ q * 2 ^ j }
    ensures unsure { result ≡ false → 0 < p → q * 2 ^ j ≤ p * 2 ^ i + 2 ^ j }
    ensures value { result ≡ ArctangentValues.reaches p q i j }
{
    if i <= j {
        let d = j - i;
        if d < 64 {
            return (p >> d) < q;
        }
        return (p >> 63) < q;
    }
    let d = i - j;
    if d < 64 {
        return p <= (q >> d);
    }
    false
}

// `above` and `below` stand beside each other: they differ in their tests and in what these tell.

// Whether the sine is surely no less than x times the cosine, with 2^-50 to spare for each.
fn above(p: circle::Pair, x: arith::Scaled) -> bool
    ensures above { result ≡ true → Above p.cn p.c p.sn p.s x.m x.e }
    ensures nearly_below { result ≡ false → Good p.cn p.c p.sn p.s → NearlyBelow p.cn p.c p.sn p.s x.m x.e }
    ensures value { result ≡ ArctangentValues.above p.c p.cn p.s p.sn x.m x.e }
{
    let circle::Pair { c, cn, s, sn } = p;
    let arith::Scaled { m, e } = x;
    if 0 < sn {
        return false;
    }
    if s < 8192 {
        return false;
    }
    if 0x9000_0000_0000_0000 < c {
        return false;
    }
    if 0 < cn {
        if 8192 <= c {
            return true;
        }
        return reaches(
            circle::fixed::high(8192 - c, m << 10) + 4,
            s - 8192,
            e,
            2095,
        );
    }
    reaches(
        circle::fixed::high(c + 8192, m << 10) + 4,
        s - 8192,
        e,
        2095,
    )
}

// Whether it is surely no more.
fn below(p: circle::Pair, x: arith::Scaled) -> bool
    ensures below { result ≡ true → Below p.cn p.c p.sn p.s x.m x.e }
    ensures nearly_above { result ≡ false → Good p.cn p.c p.sn p.s → NearlyAbove p.cn p.c p.sn p.s x.m x.e }
    ensures value { result ≡ ArctangentValues.below p.c p.cn p.s p.sn x.m x.e }
{
    let circle::Pair { c, cn, s, sn } = p;
    let arith::Scaled { m, e } = x;
    if 0 < cn {
        return false;
    }
    if c < 8192 {
        return false;
    }
    if 0x9000_0000_0000_0000 < c {
        return false;
    }
    if 0x9000_0000_0000_0000 < s {
        return false;
    }
    if 0 < sn {
        return reaches(8192, circle::fixed::high(c - 8192, m << 10), 2095, e);
    }
    reaches(s + 8192, circle::fixed::high(c - 8192, m << 10), 2095, e)
}

// The cosine and the sine 2^-40 further, from a cosine and a sine that are not negative.
fn further(p: circle::Pair) -> circle::Pair
    requires { (p.c ≤ 9 * 2 ^ 60) × (p.s ≤ 9 * 2 ^ 60) }
    ensures further { IsFurther p.c p.s result.cn result.c result.sn result.s }
    ensures value { result ≡ ArctangentValues.further p.c p.s }
{
    let c = p.c;
    let t = p.s >> 40;
    let s = p.s + (c >> 40);
    if c < t {
        circle::Pair {
            c: t - c,
            cn: 1,
            s,
            sn: 0,
        }
    } else {
        circle::Pair {
            c: c - t,
            cn: 0,
            s,
            sn: 0,
        }
    }
}

// Whether the arctangent of x lies surely from low / 2^58 to 2^-40 more.
fn encloses(low: u64, x: arith::Scaled) -> bool
    requires { low + 2 ^ 18 ≤ 2 ^ 59 }
    ensures between { result ≡ true → Between low (low + 2 ^ 18) x.m x.e }
    ensures value { result ≡ ArctangentValues.encloses low x.m x.e }
{
    let p = circle::circle(low, 5);
    if 0 < p.cn {
        return false;
    }
    if 0 < p.sn {
        return false;
    }
    if !above(further(p), x) {
        return false;
    }
    if low == 0 {
        return true;
    }
    below(p, x)
}

// The whole part of g * 2^58, for a g below 2.
fn fine(g: f64) -> u64
    requires above_zero { T (Ieee.lt (fin false 0 (pos 0)) g) }
    requires below_two { T (Ieee.lt g (fin false 1 (pos 1))) }
    ensures fine { IsFine (num g) (den g) result }
    ensures value { result ≡ ArctangentValues.fine g }
{
    let arith::Scaled { m, e } = circle::fixed::unpack(g);
    if e < 2033 {
        return 0;
    }
    (m << 6) >> (2096 - e)
}

// The arctangent of t, up to 3/16, less t, by its series to the 21st power.
fn arctangent_series(t: f64) -> f64
    ensures { result ≡ ArctangentValues.arctangent_series t }
{
    let z = t * t;
    let w = z * z;
    let odd = -1.0 / 3.0
        + w * (-1.0 / 7.0 + w * (-1.0 / 11.0 + w * (-1.0 / 15.0 + w * (-1.0 / 19.0))));
    let even = 1.0 / 5.0 + w * (1.0 / 9.0 + w * (1.0 / 13.0 + w * (1.0 / 17.0 + w * (1.0 / 21.0))));
    t * z * (odd + z * even)
}

// The arctangent of t and the number high + low.
fn beside(t: f64, high: f64, low: f64) -> f64
    ensures { result ≡ ArctangentValues.beside t high low }
{
    high + (t + (arctangent_series(t) + low))
}

// An arctangent of an x above zero: that of a number c of few digits, and that of
// (x - c) / (1 + x * c), which is at most about 1/8. Below 3/16 the series alone is more exact.
// How near it is is not proved; what it gives is tested.
fn guess(x: f64) -> f64
    ensures { result ≡ ArctangentValues.guess x }
{
    if x < 0.1875 {
        return x + arctangent_series(x);
    }
    if x < 1.0 {
        if x < 0.375 {
            return beside(
                (x - 0.25) / (1.0 + 0.25 * x),
                0.24497866312686414,
                1.0698755618734451e-17,
            );
        }
        if x < 0.65625 {
            return beside(
                (x - 0.5) / (1.0 + 0.5 * x),
                0.4636476090008061,
                2.2698777452961687e-17,
            );
        }
        return beside(
            (x - 0.8125) / (1.0 + 0.8125 * x),
            0.6823165548747481,
            6.943223671560008e-18,
        );
    }
    if x < 2.75 {
        if x < 1.5625 {
            return beside(
                (x - 1.25) / (1.0 + 1.25 * x),
                0.8960553845713439,
                2.923876285774305e-17,
            );
        }
        return beside(
            (x - 2.0) / (1.0 + 2.0 * x),
            1.1071487177940904,
            9.40447137356638e-17,
        );
    }
    if x < 8.0 {
        return beside(
            (x - 4.0) / (1.0 + 4.0 * x),
            1.3258176636680326,
            -8.824429373951136e-17,
        );
    }
    beside(-1.0 / x, 1.5707963267948966, 6.123233995736766e-17)
}

// Bounds of an arctangent, in units of 2^-58.
#[derive(Clone, Copy)]
struct Bracket {
    low: u64,
    up: u64,
}

// Closer bounds, by the middle, or where the middle is too near to tell by a number 2^-42 above it:
// there it is surely above.
fn halved(b: Bracket, x: arith::Scaled) -> Bracket
    requires { (b.low + 0x3ffc0 < b.up) × (b.up ≤ 2 ^ 59) × Between b.low b.up x.m x.e }
    ensures halved { IsHalved b.low b.up x.m x.e result.low result.up }
    ensures value { result ≡ ArctangentValues.halved b.low b.up x.m x.e }
{
    let Bracket { low, up } = b;
    let mid = low + (up - low) / 2;
    let p = circle::circle(mid, 5);
    if above(p, x) {
        return Bracket { low, up: mid };
    }
    if below(p, x) {
        return Bracket { low: mid, up };
    }
    let q = circle::circle(mid + 0x10000, 5);
    if above(q, x) {
        return Bracket {
            low,
            up: mid + 0x10000,
        };
    }
    // never
    Bracket { low, up: low }
}

// A number within 2^-40 of the arctangent of x, by bisection, in units of 2^-58. It is slow, and no
// argument is known that comes here. A `while`: the bounds tell when they are near enough.
fn bisected(x: arith::Scaled) -> u64
    ensures found { Found x.m x.e result }
    ensures value { result ≡ ArctangentValues.bisected x.m x.e }
{
    let mut b = Bracket {
        low: 0,
        up: 0x800_0000_0000_0000,
    };
    while b.low + 0x3ffc0 < b.up {
        b = halved(b, x);
    }
    b.low
}

// The arctangent of a finite x above zero. How near the guess is is not proved, so its bounds are
// tested.
fn arctangent_above_zero(x: f64) -> f64
    requires above_zero { T (Ieee.lt (fin false 0 (pos 0)) x) }
    requires finite { T (Ieee.lt x (inf false)) }
    ensures arctangent { IsArctangent x result }
    ensures value { result ≡ ArctangentValues.arctangent_above_zero x }
{
    let s = circle::fixed::unpack(x);
    let g = guess(x);
    if 0.0 < g && g < 2.0 {
        let y = fine(g);
        if y < 0x700_0000_0000_0000 && encloses(y.saturating_sub(0x20000), s) {
            return g;
        }
    }
    circle::fixed::parts(bisected(s) >> 6)
}

// The arctangent of a finite x from 0 on.
fn ranged_arctangent(x: f64) -> f64
    requires not_negative { T (Ieee.le (fin false 0 (pos 0)) x) }
    requires finite { T (Ieee.lt x (inf false)) }
    ensures arctangent { IsArctangent x result }
    ensures value { result ≡ ArctangentValues.ranged_arctangent x }
{
    if 0.0 < x { arctangent_above_zero(x) } else { x }
}

// The arctangent of x, from 0 on: π/2 for the infinity. NaN below zero.
pub fn arctangent(x: f64) -> f64
    ensures arctangent { Arctangent x result }
    ensures value { result ≡ Functions.arctangent x }
{
    if 0.0 <= x {
        if x < 1.0 / 0.0 {
            ranged_arctangent(x)
        } else {
            1.5707963267948966
        }
    } else {
        0.0 / 0.0
    }
}
