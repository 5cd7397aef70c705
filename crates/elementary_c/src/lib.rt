// The elementary functions as C and Rust callers link them: for the differential tests, whose oracle
// calls these in place of its own, and for the benchmark.
#![tactic(auto)]

ghost use Rattle.std.specs.Prelude.{◌≡◌};
ghost use Rattle.sines.specs.Functions as Sines;
ghost use Rattle.sines.specs.Sine.{Sine, Cosine};
ghost use Rattle.logarithms.specs.Functions as Logarithms;
ghost use Rattle.logarithms.specs.Log10.{Log10};
ghost use Rattle.arctangents.specs.Functions as Arctangents;
ghost use Rattle.arctangents.specs.Arctangent.{Arctangent};

#[unsafe(no_mangle)]
pub extern "C" fn elementary_sine(x: f64) -> f64
    ensures sine { Sine x result }
    ensures value { result ≡ Sines.sine x }
{
    elementary::sine(x)
}

#[unsafe(no_mangle)]
pub extern "C" fn elementary_cosine(x: f64) -> f64
    ensures cosine { Cosine x result }
    ensures value { result ≡ Sines.cosine x }
{
    elementary::cosine(x)
}

#[unsafe(no_mangle)]
pub extern "C" fn elementary_log10(x: f64) -> f64
    ensures log10 { Log10 x result }
    ensures value { result ≡ Logarithms.log10 x }
{
    elementary::log10(x)
}

#[unsafe(no_mangle)]
pub extern "C" fn elementary_arctangent(x: f64) -> f64
    ensures arctangent { Arctangent x result }
    ensures value { result ≡ Arctangents.arctangent x }
{
    elementary::arctangent(x)
}
