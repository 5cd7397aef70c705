// The absolute value, and the lesser and the greater of two doubles. NaN passes through as the
// ported routines let it pass: every comparison with it is false.
ghost use Rattle.std.specs.Prelude.{◌≡◌};
ghost use Rattle.arith.specs.Choice.{abs, lesser, greater};

// x with its sign cleared. Not `f64::abs`, which compares twice: in a chain of sums it is slower.
pub fn abs(x: f64) -> f64
    ensures { result ≡ abs x }
{
    if x == x {
        f64::from_bits(f64::to_bits(x) & 0x7fff_ffff_ffff_ffff)
    } else {
        x
    }
}

// b where it is below a, and else a. `f64::min` would drop a NaN and choose freely among equals.
pub fn lesser(a: f64, b: f64) -> f64
    ensures { result ≡ lesser a b }
{
    if b < a { b } else { a }
}

// b where it is above a, and else a. Not `f64::max`, for the same reasons.
pub fn greater(a: f64, b: f64) -> f64
    ensures { result ≡ greater a b }
{
    if a < b { b } else { a }
}
