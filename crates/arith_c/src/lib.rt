// The arithmetic as C and Rust callers link it, for the differential test and the benchmark.
#![tactic(auto)]

ghost use Rattle.std.specs.Prelude.{◌≡◌};
ghost use Rattle.arith.specs.Double.{bits, bits_of};
ghost use Rattle.arith.specs.Root.{sqrt};
ghost use Rattle.arith.specs.Truncation.{truncate};
ghost use Rattle.arith.specs.Powers.{power, half_power};
ghost use Rattle.arith.specs.Choice.{abs, lesser, greater};

#[unsafe(no_mangle)]
pub extern "C" fn arith_sqrt(x: f64) -> f64
    ensures { result ≡ sqrt x }
{
    arith::sqrt(x)
}

#[unsafe(no_mangle)]
pub extern "C" fn arith_truncate(x: f64) -> i32
    ensures { result ≡ truncate x }
{
    arith::truncate(x)
}

#[unsafe(no_mangle)]
pub extern "C" fn arith_power(y: f64, k: u32) -> f64
    ensures { result ≡ power y k }
{
    arith::power(y, k)
}

#[unsafe(no_mangle)]
pub extern "C" fn arith_half_power(y: f64, k: u32) -> f64
    ensures { result ≡ half_power y k }
{
    arith::half_power(y, k)
}

#[unsafe(no_mangle)]
pub extern "C" fn arith_abs(x: f64) -> f64
    ensures { result ≡ abs x }
{
    arith::abs(x)
}

#[unsafe(no_mangle)]
pub extern "C" fn arith_lesser(a: f64, b: f64) -> f64
    ensures { result ≡ lesser a b }
{
    arith::lesser(a, b)
}

#[unsafe(no_mangle)]
pub extern "C" fn arith_greater(a: f64, b: f64) -> f64
    ensures { result ≡ greater a b }
{
    arith::greater(a, b)
}

#[unsafe(no_mangle)]
pub extern "C" fn arith_to_bits(x: f64) -> u64
    ensures { result ≡ bits_of x }
{
    arith::to_bits(x)
}

#[unsafe(no_mangle)]
pub extern "C" fn arith_from_bits(b: u64) -> f64
    ensures { result ≡ bits b }
{
    arith::from_bits(b)
}
