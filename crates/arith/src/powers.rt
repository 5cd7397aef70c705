// Powers by document 01's rule: repeated multiplication, each product rounded.
ghost use Rattle.std.specs.Prelude.{◌≡◌};
ghost use Rattle.arith.specs.Powers.{power, half_power};

// y to the whole power k.
pub fn power(y: f64, k: u32) -> f64
    ensures { result ≡ power y k }
{
    let mut p = 1.0;
    for _ in 0..k {
        p = p * y;
    }
    p
}

// y to the power k + 1/2.
pub fn half_power(y: f64, k: u32) -> f64
    ensures { result ≡ half_power y k }
{
    super::root::sqrt(y) * power(y, k)
}
