// A double and its bit pattern, NaN included. There is one NaN in the definitions, so every NaN
// pattern is read as it, and one pattern is written for it.
ghost use Rattle.std.specs.Prelude.{◌≡◌};
ghost use Rattle.arith.specs.Double.{bits, bits_of};

// The bits of x; 7ff8000000000000 for a NaN.
pub fn to_bits(x: f64) -> u64
    ensures { result ≡ bits_of x }
{
    std::num::f64_to_bits_with_nan(x)
}

// The double with the bit pattern b.
pub fn from_bits(b: u64) -> f64
    ensures { result ≡ bits b }
{
    std::num::f64_from_bits_with_nan(b)
}
