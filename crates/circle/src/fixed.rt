// Whole numbers that stand for fractions, and doubles made from them.
ghost use Rattle.std.specs.Prelude.{◌≡◌, ◌⊎◌, false, ◌+◌, ◌*◌, ◌^◌, ◌≤◌, ◌<◌, T};
ghost use Rattle.std.specs.Float.Ieee.{le};
ghost use Rattle.std.specs.Float.Ieee.Exact.{HasValue};
ghost use Rattle.std.specs.Float.Ieee.Positive.{positive};
ghost use Rattle.arith.specs.Inside.Scaled as Scaled;
ghost use Rattle.circle.specs.Inside.Fixed.{IsUnpacked, IsHigh, IsDifference, Lies};
ghost use Rattle.circle.specs.Inside.FixedValues.{unpacked, high, horner, parts, guarded, lowered, tested};
ghost use Rattle.circle.specs.Inside.Horner.{IsHorner};
ghost use Rattle.circle.specs.Inside.Signed.{plus, less};

// A finite x above zero as m * 2^(e - 2148), with an m of 53 binary digits.
pub fn unpack(x: f64) -> arith::Scaled
    requires { T (positive x) }
    ensures unpacked { IsUnpacked x result.m result.e }
    ensures value { Scaled.parts result.m result.e ≡ unpacked x }
{
    arith::scale(f64::to_bits(x))
}

// a * b / 2^63, from the halves of a and b without the product of the two lower ones.
pub fn high(a: u64, b: u64) -> u64
    requires { (a ≤ 5 * 2 ^ 61) × (b ≤ 5 * 2 ^ 61) }
    ensures high { IsHigh a b result }
    ensures value { result ≡ high a b }
{
    let a1 = a >> 32;
    let a0 = a % 0x1_0000_0000;
    let b1 = b >> 32;
    let b0 = b % 0x1_0000_0000;
    2 * (a1 * b1) + ((a1 * b0) >> 31) + ((a0 * b1) >> 31)
}

// A step of Horner's rule: 1 - g * q / n, in units of 2^-63. g and q are at most 1, which the definitions
// say of plain numbers: a type would be put on and taken off at each step.
pub fn horner(g: u64, q: u64, n: u64) -> u64
    requires { (g ≤ 2 ^ 63) × (q ≤ 2 ^ 63) × (2 ≤ n) }
    ensures horner { IsHorner g q n result }
    ensures value { result ≡ horner g q n }
{
    0x8000_0000_0000_0000 - high(g, q) / n
}

// n / 2^52 as a double.
pub fn parts(n: u64) -> f64
    requires { n < 2 ^ 53 }
    ensures has_value { HasValue result false n (2 ^ 52) }
    ensures value { result ≡ parts n }
{
    n as f64 / 4503599627370496.0
}

// A guess of which nothing is proved, where it lies from low to high, and low where it does not.
pub fn guarded(guess: f64, low: f64, high: f64) -> f64
    ensures low_or_within { (result ≡ low) ⊎ (T (le low result) × T (le result high)) }
    ensures value { result ≡ guarded guess low high }
{
    if low <= guess {
        if guess <= high {
            return guess;
        }
    }
    low
}

// n / 2^52 less 2^-42.
fn lowered(n: u64) -> f64
    requires { n < 2 ^ 53 }
    ensures difference { IsDifference result n 1024 (2 ^ 52) }
    ensures value { result ≡ lowered n }
{
    if n < 1024 {
        return -parts(1024 - n);
    }
    parts(n - 1024)
}

// The guess, where it is within 2^-42 of n / 2^52, or of -n / 2^52 for a sign other than 0. The
// definitions count signs as numbers.
pub fn tested(guess: f64, sign: u64, n: u64) -> f64
    requires { n + 1024 < 2 ^ 53 }
    ensures lies { Lies result (plus sign n) (less sign n + 1024) (plus sign n + 1024) (less sign n) (2 ^ 52) }
    ensures value { result ≡ tested guess sign n }
{
    if sign == 0 {
        return guarded(guess, lowered(n), parts(n + 1024));
    }
    guarded(guess, -parts(n + 1024), -lowered(n))
}
