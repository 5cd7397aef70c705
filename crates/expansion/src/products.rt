// Products of consecutive numbers, each product rounded, in the order of the source's loops, and the
// powers to half an order.
ghost use Rattle.std.specs.Prelude.{◌≡◌, ◌+◌, ◌<◌};
ghost use Rattle.expansion.specs.Products.{rising, rising_by, half_of_m};

// r times the n whole numbers from a on.
#[tactic(auto, unfolding(crate::specs::Products::rising))]
pub fn rise(r: f64, a: u32, n: u32) -> f64
    requires { a + n < 4096 }
    ensures { result ≡ rising r a n }
{
    let mut p = r;
    for i in 0..n {
        p *= (a + i) as f64;
    }
    p
}

// r times the n numbers a + x, a + 1 + x, and so on.
#[tactic(auto, unfolding(crate::specs::Products::rising_by))]
pub fn rise_by(r: f64, a: u32, x: f64, n: u32) -> f64
    requires { a + n < 4096 }
    ensures { result ≡ rising_by r a x n }
{
    let mut p = r;
    for i in 0..n {
        p *= (a + i) as f64 + x;
    }
    p
}

// x to the power m / 2 by document 01's rule, which gives 1 where m is 0, whatever x is.
pub fn half_of_m(x: f64, m: u32) -> f64
    ensures { result ≡ half_of_m x m }
{
    if m % 2 == 0 {
        return arith::power(x, m / 2);
    }
    arith::half_power(x, m / 2)
}
