// The square root of a double, by whole numbers. Not by `f64::sqrt`: the definition that `sqrt` promises,
// `specs/Root.antt`, may not change, and the library's contract speaks of another.
ghost use Rattle.std.specs.Prelude.{◌≡◌, ◌+◌, ◌*◌, ◌^◌, ◌<◌, ◌≤◌, T};
ghost use Rattle.std.specs.Float.Ieee.Positive.{positive};
ghost use Rattle.arith.specs.Root.{floor_root, nearest_root, sqrt};
ghost use Rattle.arith.specs.Inside.Scaled.{IsScaled, parts, scaled};

// The share t / 2^20 of c.
fn share(t: u64, c: u64) -> u64
    requires { (t < 2 ^ 20) × (c < 2 ^ 27) }
    ensures { result ≤ c }
{
    t * c / 0x10_0000
}

// A guess of n's square root. n is (1 + t / 2^20) * 2^(52 + odd), cut. For the root of 1 + t / 2^20
// stands a polynomial in t, in units of 2^-26, and for that of 2 stands 1 + 434334 / 2^20. Only speed
// depends on how near the guess is, so that is not proved; computed for every t, its error is less
// than 2^-16 of the root. The bounds of n are asked from here to `nearest_root`: a type for n would hold
// n alone, and each of the three would take it out again.
fn first_guess(n: u64) -> u64
    requires { (2 ^ 52 ≤ n) × (n < 2 ^ 54) }
    ensures { (2 ^ 26 ≤ result) × (result < 2 ^ 28) }
{
    let odd = n >> 53;
    let t = (n >> (32 + odd)) % 0x10_0000;
    let fourth = share(t, 683977);
    let third = share(t, 2989018 - fourth);
    let second = share(t, 8020573 - third);
    let r = 67109709 + share(t, 33511585 - second);
    r + share(odd * 434334, r)
}

// The whole part of n's square root, by Newton's iteration. After the first step g is never below
// it, and while the square of g is above n a step makes g smaller. Of random n, the first step was
// the only one for 998 in 1,000. A `while`: how many steps it takes is not known before.
fn floor_root(n: u64) -> u64
    requires { (2 ^ 52 ≤ n) × (n < 2 ^ 54) }
    ensures { result ≡ floor_root n }
{
    let guess = first_guess(n);
    let mut g = (guess + n / guess) / 2;
    while n < g * g {
        g = (g + n / g) / 2;
    }
    g
}

// The whole number nearest to the square root of n * 2^52, for an n of 53 or 54 binary digits.
// `high` is the root's upper half. What it leaves of n, divided by its double, is the lower half,
// or one more.
fn nearest_root(n: u64) -> u64
    requires { (2 ^ 52 ≤ n) × (n < 2 ^ 54) }
    ensures { result ≡ nearest_root (n * 2 ^ 52) 1 }
{
    let high = floor_root(n);
    let left = (n - high * high) * 0x400_0000;
    let low = left / (high * 2);
    let rest = (left % (high * 2)) * 0x400_0000;
    let q = high * 0x400_0000 + low;
    // the square of q is n * 2^52 + low * low - rest
    if q + low * low < rest { q + 1 } else { q }
}

// The number m * 2^(e - 2148), with an m of 53 binary digits and an e that a double's value has.
#[derive(Clone, Copy)]
pub struct Scaled {
    pub m: u64,
    pub e: u64,
    pub ghost digits: { (2 ^ 52 ≤ m) × (m < 2 ^ 53) },
    pub ghost exponent: { (1022 ≤ e) × (e ≤ 3119) },
}

// The number that the bits of a double stand for, where it is finite and above zero.
pub fn scale(bits: u64) -> Scaled
    requires { (0 < bits) × (bits < 0x7ff0_0000_0000_0000) }
    ensures scaled { IsScaled bits result.m result.e }
    ensures value { parts result.m result.e ≡ scaled bits }
{
    let field = bits >> 52;
    let digits = bits & 0xf_ffff_ffff_ffff;
    if field == 0 {
        let zeros = digits.leading_zeros() as u64 - 11;
        return Scaled {
            m: digits << zeros,
            e: 1074 - zeros,
        };
    }
    Scaled {
        m: digits + 0x10_0000_0000_0000,
        e: field + 1073,
    }
}

// The square root of a finite double above zero. In units of 2^-1074 it is the root of m * 2^e,
// and the root of the first 106 digits of that is the root's first 53 digits.
fn root_above_zero(x: f64) -> f64
    requires { T (positive x) }
    ensures { result ≡ sqrt x }
{
    let s = scale(f64::to_bits(x));
    let r = nearest_root(s.m << (s.e % 2));
    f64::from_bits((s.e - 52) / 2 * 0x10_0000_0000_0000 + r)
}

// IEEE 754's square root of any double.
pub fn sqrt(x: f64) -> f64
    ensures { result ≡ sqrt x }
{
    if x > 0.0 {
        if x < 1.0 / 0.0 { root_above_zero(x) } else { x }
    } else if x < 0.0 {
        0.0 / 0.0
    } else {
        x
    }
}
