// The sine and the cosine of a double below 1, each by one series in whole numbers.
ghost use Rattle.std.specs.Prelude.{◌≡◌, false, ◌+◌, ◌-◌, ◌*◌, ◌^◌, ◌≤◌, ◌<◌, T, pos};
ghost use Rattle.std.specs.Float.Ieee as Ieee;
ghost use Rattle.std.specs.Float.{fin, binary64};
ghost use Rattle.std.specs.Float.Ieee.Exact.{HasValue};
ghost use Rattle.std.specs.Float.Ieee.Positive.{num, den};
ghost use Rattle.sines.specs.Sine.{IsCosine, IsSine};
ghost use Rattle.circle.specs.Inside.Fixed.{Lies};
ghost use Rattle.circle.specs.Inside.Horner.{Alternating};
ghost use Rattle.sines.specs.Inside.Small.{IsSplit, IsSquare};
ghost use Rattle.sines.specs.Inside.SmallValues as SmallValues;

// The number m / 2^(63 + k).
#[derive(Clone, Copy)]
struct Fraction {
    m: u64,
    k: u64,
    ghost shift: { k ≤ 26 },
}

impl Fraction {
    // Its square, in units of 2^-63.
    fn square(self) -> u64
        requires { self.m < 2 ^ 63 }
        ensures square { IsSquare self.m self.k result }
        ensures value { result ≡ SmallValues.own_square self.m self.k }
    {
        let y = self.m >> self.k;
        circle::fixed::high(y, y)
    }
}

// This series and the next are written out: each step divides by a constant, and has a bound of its
// own in the proof.

// The cosine of the root of q, in units of 2^-63, by its series to the 20th power.
fn even_sum(q: u64) -> u64
    requires { q ≤ 2 ^ 63 }
    ensures alternating { Alternating 1 q 0 20 20 result }
    ensures value { result ≡ SmallValues.even_sum q }
{
    let g18 = circle::fixed::horner(0x8000_0000_0000_0000, q, 380);
    let g16 = circle::fixed::horner(g18, q, 306);
    let g14 = circle::fixed::horner(g16, q, 240);
    let g12 = circle::fixed::horner(g14, q, 182);
    let g10 = circle::fixed::horner(g12, q, 132);
    let g8 = circle::fixed::horner(g10, q, 90);
    let g6 = circle::fixed::horner(g8, q, 56);
    let g4 = circle::fixed::horner(g6, q, 30);
    let g2 = circle::fixed::horner(g4, q, 12);
    circle::fixed::horner(g2, q, 2)
}

// The sine of the root of q over that root, in units of 2^-63, by its series to the 21st power.
fn odd_sum(q: u64) -> u64
    requires { q ≤ 2 ^ 63 }
    ensures alternating { Alternating 1 q 1 20 20 result }
    ensures value { result ≡ SmallValues.odd_sum q }
{
    let g19 = circle::fixed::horner(0x8000_0000_0000_0000, q, 420);
    let g17 = circle::fixed::horner(g19, q, 342);
    let g15 = circle::fixed::horner(g17, q, 272);
    let g13 = circle::fixed::horner(g15, q, 210);
    let g11 = circle::fixed::horner(g13, q, 156);
    let g9 = circle::fixed::horner(g11, q, 110);
    let g7 = circle::fixed::horner(g9, q, 72);
    let g5 = circle::fixed::horner(g7, q, 42);
    let g3 = circle::fixed::horner(g5, q, 20);
    circle::fixed::horner(g3, q, 6)
}

// m / 2^(53 + k) as a double.
fn placed(m: u64, k: u64) -> f64
    requires { (m < 2 ^ 53) × (k ≤ 26) }
    ensures has_value { HasValue result false m (2 ^ 52 * 2 ^ (k + 1)) }
    ensures value { result ≡ SmallValues.placed m k }
{
    let one: u64 = 1;
    circle::fixed::parts(m) / ((one << (k + 1)) as f64)
}

// The guess, where it lies from n - 1024 to n + 1024 in units of 2^-(53 + k).
fn tested_share(guess: f64, n: u64, k: u64) -> f64
    requires { (n < 2 ^ 53) × (k ≤ 26) }
    ensures lies { Lies result (n - 1024) 0 (n + 1024) 0 (2 ^ 52 * 2 ^ (k + 1)) }
    ensures value { result ≡ SmallValues.tested_share guess n k }
{
    let low = n.saturating_sub(1024);
    let up = (n + 1024).min(0x1f_ffff_ffff_ffff);
    circle::fixed::guarded(guess, placed(low, k), placed(up, k))
}

// A double from 2^-27 to 1.
#[derive(Clone, Copy)]
pub struct Small {
    pub x: f64,
    pub ghost least: { T (Ieee.le (Ieee.of_bits binary64 0x3e40_0000_0000_0000) x) },
    pub ghost below_one: { T (Ieee.lt x (fin false 1 (pos 0))) },
}

impl Small {
    // x with an m of 63 binary digits.
    fn split(self) -> Fraction
        ensures split { IsSplit (num self.x) (den self.x) result.m result.k }
        ensures value { SmallValues.share result.m result.k ≡ SmallValues.split self.x }
    {
        let s = circle::fixed::unpack(self.x);
        Fraction {
            m: s.m << 10,
            k: 2095 - s.e,
        }
    }

    // The sine: the guess, where the series proves it.
    pub fn sine(self, guess: f64) -> f64
        ensures sine { IsSine self.x result }
        ensures value { result ≡ SmallValues.low_sine self.x guess }
    {
        let p = self.split();
        let g = odd_sum(p.square());
        tested_share(guess, (circle::fixed::high(p.m, g) + 512) >> 10, p.k)
    }

    // The cosine: the guess, where the series proves it.
    pub fn cosine(self, guess: f64) -> f64
        ensures cosine { IsCosine self.x result }
        ensures value { result ≡ SmallValues.low_cosine self.x guess }
    {
        let g = even_sum(self.split().square());
        circle::fixed::tested(guess, 0, (g + 1024) >> 11)
    }
}
