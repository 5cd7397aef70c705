// The sine and the cosine of a double. Both are computed twice: in doubles, to the last bits, with no
// proof of how near that is, and in whole numbers, which the first are tested by.
#![tactic(auto)]

mod small;

ghost use Rattle.std.specs.Prelude.{◌≡◌, false, ◌+◌, ◌*◌, ◌^◌, ◌≤◌, ◌<◌, T, pos};
ghost use Rattle.std.specs.Float.Ieee as Ieee;
ghost use Rattle.std.specs.Float.{fin};
ghost use Rattle.std.specs.Float.Ieee.Positive.{num, den};
ghost use Rattle.sines.specs.Sine.{IsCosine, IsSine, is_tiny, Cosine, Sine};
ghost use Rattle.sines.specs.Functions as Functions;
ghost use Rattle.sines.specs.Inside.SineValues as SineValues;

// What is left of an angle after the nearest multiple of π/2, as a sum of two doubles, and how many
// quarters of a turn that multiple is, up to whole turns.
#[derive(Clone, Copy)]
struct Remainder {
    quarters: u64,
    high: f64,
    low: f64,
}

// x, and `ahead` quarters more. π/2 stands in three parts, of 33, 33 and 53 binary digits, so that
// multiples of the first two are exact. To add 1.5 * 2^52 rounds to a whole number, and the last
// digits of its pattern are those of the number. How near it is is not proved.
fn reduced(x: f64, ahead: f64) -> Remainder
    ensures { result ≡ SineValues.reduced x ahead }
{
    let shifted = x * 0.6366197723675814 + 6755399441055744.0;
    let k = shifted - 6755399441055744.0;
    let a = x - k * 1.5707963267341256;
    let w = k * 6.077100506303966e-11;
    let b = a - w;
    let rest = ((a - b) - w) - k * 2.0222662487959506e-21;
    let high = b + rest;
    Remainder {
        quarters: arith::to_bits(shifted + ahead) % 4,
        high,
        low: (b - high) + rest,
    }
}

// The sine of what is left, up to π/4, by its series to the 17th power.
fn sine_series(r: Remainder) -> f64
    ensures { result ≡ SineValues.sine_series r.high r.low }
{
    let high = r.high;
    let low = r.low;
    let z = high * high;
    let w = z * z;
    let even = -1.0 / 6.0
        + w * (-1.0 / 5040.0 + w * (-1.0 / 39916800.0 + w * (-1.0 / 1307674368000.0)));
    let odd = 1.0 / 120.0
        + w * (1.0 / 362880.0 + w * (1.0 / 6227020800.0 + w * (1.0 / 355687428096000.0)));
    high + (high * z * (even + z * odd) + low * (1.0 - 0.5 * z))
}

// The cosine of what is left, up to π/4, by its series to the 16th power. What 1 - z/2 loses is added
// again.
fn cosine_series(r: Remainder) -> f64
    ensures { result ≡ SineValues.cosine_series r.high r.low }
{
    let high = r.high;
    let low = r.low;
    let z = high * high;
    let w = z * z;
    let even = 1.0 / 24.0
        + w * (1.0 / 40320.0 + w * (1.0 / 479001600.0 + w * (1.0 / 20922789888000.0)));
    let odd = -1.0 / 720.0 + w * (-1.0 / 3628800.0 + w * (-1.0 / 87178291200.0));
    let half = 0.5 * z;
    let near = 1.0 - half;
    near + (((1.0 - near) - half) + (w * (even + z * odd) - high * low))
}

// The sine of x, up to 200, and `ahead` quarters of a turn: the cosine for one. How near it is is not
// proved; what it gives is tested.
fn guess(x: f64, ahead: f64) -> f64
    ensures { result ≡ SineValues.guess x ahead }
{
    let r = reduced(x, ahead);
    match r.quarters {
        0 => sine_series(r),
        1 => cosine_series(r),
        2 => -sine_series(r),
        _ => -cosine_series(r),
    }
}

// The cosine and the sine stand beside each other from here on: they differ in their series and in
// what their contracts say, and not in a type or a constant.

// A double from 1 to 200.
#[derive(Clone, Copy)]
struct Far {
    x: f64,
    ghost least: { T (Ieee.le (fin false 1 (pos 0)) x) },
    ghost most: { T (Ieee.le x (fin false 25 (pos 3))) },
}

impl Far {
    // x * 2^52, which is a whole number.
    fn scaled(self) -> u64
        ensures exact { (result ≤ 200 * 2 ^ 52) × (result * den self.x ≡ num self.x * 2 ^ 52) }
        ensures value { result ≡ SineValues.scaled self.x }
    {
        let s = circle::fixed::unpack(self.x);
        s.m << (s.e - 2096)
    }

    // The cosine: the guess, where the doubled angle proves it.
    fn cosine(self) -> f64
        ensures cosine { IsCosine self.x result }
        ensures value { result ≡ SineValues.far_cosine self.x }
    {
        let p = circle::circle(self.scaled(), 11);
        circle::fixed::tested(guess(self.x, 1.0), p.cn, p.c >> 11)
    }

    // The sine: likewise.
    fn sine(self) -> f64
        ensures sine { IsSine self.x result }
        ensures value { result ≡ SineValues.far_sine self.x }
    {
        let p = circle::circle(self.scaled(), 11);
        circle::fixed::tested(guess(self.x, 0.0), p.sn, p.s >> 11)
    }
}

// The cosine of x, from 0 to 200.
fn ranged_cosine(x: f64) -> f64
    requires least { T (Ieee.le (fin false 0 (pos 0)) x) }
    requires most { T (Ieee.le x (fin false 25 (pos 3))) }
    ensures cosine { IsCosine x result }
    ensures tiny { T (is_tiny x) → result ≡ fin false 1 (pos 0) }
    ensures value { result ≡ SineValues.ranged_cosine x }
{
    if x < 7.450580596923828125e-9 {
        return 1.0;
    }
    if x < 1.0 {
        return small::Small { x }.cosine(guess(x, 1.0));
    }
    Far { x }.cosine()
}

// The sine of x, from 0 to 200.
fn ranged_sine(x: f64) -> f64
    requires least { T (Ieee.le (fin false 0 (pos 0)) x) }
    requires most { T (Ieee.le x (fin false 25 (pos 3))) }
    ensures sine { IsSine x result }
    ensures tiny { T (is_tiny x) → result ≡ x }
    ensures value { result ≡ SineValues.ranged_sine x }
{
    if x < 7.450580596923828125e-9 {
        return x;
    }
    if x < 1.0 {
        return small::Small { x }.sine(guess(x, 0.0));
    }
    Far { x }.sine()
}

// The cosine of x, from 0 to 200: 1 below 2^-27. NaN outside.
pub fn cosine(x: f64) -> f64
    ensures cosine { Cosine x result }
    ensures value { result ≡ Functions.cosine x }
{
    if 0.0 <= x && x <= 200.0 {
        ranged_cosine(x)
    } else {
        0.0 / 0.0
    }
}

// The sine of x, from 0 to 200: x below 2^-27. NaN outside.
pub fn sine(x: f64) -> f64
    ensures sine { Sine x result }
    ensures value { result ≡ Functions.sine x }
{
    if 0.0 <= x && x <= 200.0 {
        ranged_sine(x)
    } else {
        0.0 / 0.0
    }
}
