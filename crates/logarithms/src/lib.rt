// The decimal logarithm of a double: a guess in doubles, to the last bits, of which nothing is proved,
// and bounds 3 * 2^-22 or 4 * 2^-22 apart in whole numbers, between which it must lie.
#![tactic(auto)]

ghost use Rattle.std.specs.Prelude.{false, ◌≡◌, ◌+◌, ◌-◌, ◌*◌, ◌^◌, ◌≤◌, ◌<◌, T, pos};
ghost use Rattle.std.specs.Float.Ieee as Ieee;
ghost use Rattle.std.specs.Float.{fin, inf};
ghost use Rattle.std.specs.Float.Ieee.Exact.{HasValue};
ghost use Rattle.logarithms.specs.Log10.{Log10, Near};
ghost use Rattle.circle.specs.Inside.Fixed.{Lies};
ghost use Rattle.logarithms.specs.Inside.Logarithm.{BinaryLog, TenLog};
ghost use Rattle.logarithms.specs.Functions as Functions;
ghost use Rattle.logarithms.specs.Inside.LogarithmValues.{binary_log, ten_log, parts, guess, tested_below, tested_above, log_above_zero};

// The binary logarithm of x's m, in units of 2^-22 and cut to a whole number of them or one below that.
// y / 2^31 lies from 1 to 2. Each turn squares it, and where the square reaches 2 the next binary
// digit of the logarithm is 1 and the square is halved.
fn binary_log(x: arith::Scaled) -> u64
    ensures binary_log { BinaryLog x.m result }
    ensures value { result ≡ binary_log x.m }
{
    let mut y = x.m >> 21;
    let mut k: u64 = 52;
    for _ in 0..22u64 {
        let square = y * y;
        let digit = square >> 63;
        y = square >> (31 + digit);
        k = k + k + digit;
    }
    k
}

// u times the decimal logarithm of 2, cut to a whole number. 21306 / 70777 is below that logarithm by
// less than 2^-34.
fn ten_log(u: u64) -> u64
    requires { u < 0x1_1000_0000 }
    ensures ten_log { TenLog u result }
    ensures value { result ≡ ten_log u }
{
    u * 21306 / 70777
}

// n / 2^22 as a double.
fn parts(n: u32) -> f64
    ensures has_value { HasValue result false n (2 ^ 22) }
    ensures value { result ≡ parts n }
{
    n as f64 / 4194304.0
}

// A decimal logarithm of x. Nothing is proved of it; what it gives is tested.
// The fraction f, from the root of 1/2 to that of 2, has the logarithm d - d^2/2 + s * (d^2/2 + r),
// with d = f - 1, s = d / (2 + d) and r the series of log((1 + s) / (1 - s)) over s from its second
// term on. The logarithm of 2 and the factor 1 / log 10 stand in two parts each: a multiple of the
// first, of 41 digits, is exact, and so is the product of the second, of 26, with as many of d - d^2/2.
fn guess(x: arith::Scaled) -> f64
    ensures { result ≡ guess x.m x.e }
{
    let mut f = x.m as f64 / 4503599627370496.0;
    let mut n = x.e as f64 - 2096.0;
    if 1.4142135623730951 < f {
        f = 0.5 * f;
        n = n + 1.0;
    }
    let d = f - 1.0;
    let half = 0.5 * d * d;
    let s = d / (2.0 + d);
    let z = s * s;
    let w = z * z;
    let odd = 2.0 / 3.0 + w * (2.0 / 7.0 + w * (2.0 / 11.0 + w * (2.0 / 15.0 + w * (2.0 / 19.0))));
    let even = 2.0 / 5.0 + w * (2.0 / 9.0 + w * (2.0 / 13.0 + w * (2.0 / 17.0 + w * (2.0 / 21.0))));
    let r = z * (odd + z * even);
    let sum = d - half;
    let big = 134217729.0 * sum;
    let top = big - (big - sum);
    let rest = ((d - top) - half) + s * (half + r);
    let a = n * 0.30102999566383914;
    let b = top * 0.4342944771051407;
    let near = a + b;
    near + (((a - near) + b)
        + ((n * 1.42050232272661e-13 + (top + rest) * 4.798111141615973e-09)
            + rest * 0.4342944771051407))
}

// Two tests, since what a cut leaves open lies on one side: the bounds are n and n + 3 above zero, and
// -(n + 3) and -(n - 1) below.

// The guess, where it lies from -(n + 3) / 2^22 to -(n - 1) / 2^22.
fn tested_below(guess: f64, n: u64) -> f64
    requires { n < 2 ^ 31 }
    ensures lies { Lies result 0 (n + 3) 0 (n - 1) (2 ^ 22) }
    ensures value { result ≡ tested_below guess n }
{
    circle::fixed::guarded(
        guess,
        -parts((n + 3) as u32),
        -parts(n.saturating_sub(1) as u32),
    )
}

// The guess, where it lies from n / 2^22 to (n + 3) / 2^22.
fn tested_above(guess: f64, n: u64) -> f64
    requires { n < 2 ^ 31 }
    ensures lies { Lies result n 0 (n + 3) 0 (2 ^ 22) }
    ensures value { result ≡ tested_above guess n }
{
    circle::fixed::guarded(guess, parts(n as u32), parts((n + 3) as u32))
}

// The decimal logarithm of a number above zero that is finite. 2148 * 2^22 is the binary one of 1, in
// units of 2^-22, as t counts it.
fn log_above_zero(x: f64) -> f64
    requires above_zero { T (Ieee.lt (fin false 0 (pos 0)) x) }
    requires finite { T (Ieee.lt x (inf false)) }
    ensures near { Near x result }
    ensures value { result ≡ log_above_zero x }
{
    let s = circle::fixed::unpack(x);
    let t = s.e * 0x40_0000 + binary_log(s);
    if t < 9009364992 {
        tested_below(guess(s), ten_log(9009364992 - t))
    } else {
        tested_above(guess(s), ten_log(t - 9009364992))
    }
}

// The decimal logarithm of x: -inf for a zero, NaN below zero, and NaN and inf as they are.
pub fn log10(x: f64) -> f64
    ensures log10 { Log10 x result }
    ensures value { result ≡ Functions.log10 x }
{
    if x > 0.0 {
        if x < 1.0 / 0.0 { log_above_zero(x) } else { x }
    } else if x == 0.0 {
        -1.0 / 0.0
    } else {
        0.0 / 0.0
    }
}
