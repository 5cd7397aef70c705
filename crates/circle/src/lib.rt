// The cosine and the sine together, in units of 2^-63: by their series at a fraction of the angle,
// which is then doubled. c² - s² and 2cs need no π and no reduction.
#![tactic(auto)]

pub mod fixed;

ghost use Rattle.std.specs.Prelude.{◌≡◌, ◌+◌, ◌*◌, ◌^◌, ◌≤◌, ◌<◌};
ghost use Rattle.circle.specs.Inside.Horner.{Alternating};
ghost use Rattle.circle.specs.Inside.Circle.{IsCosineSum, IsDoubled, IsFirst, IsCircle};
ghost use Rattle.circle.specs.Inside.CircleValues as CircleValues;

// A cosine and a sine by their sizes, each with its sign: 1 where it is negative. The definitions add
// the signs, so they are numbers.
#[derive(Clone, Copy)]
pub struct Pair {
    pub c: u64,
    pub cn: u64,
    pub s: u64,
    pub sn: u64,
}

// The cosine and the sine at twice the angle.
fn doubled(p: Pair) -> Pair
    requires { (p.c * p.c + p.s * p.s ≤ 9 * 2 ^ 123) × (p.cn ≤ 1) × (p.sn ≤ 1) }
    ensures doubled { IsDoubled p.cn p.c p.sn p.s result.cn result.c result.sn result.s }
    ensures value { result ≡ CircleValues.doubled p }
{
    let cc = fixed::high(p.c, p.c);
    let ss = fixed::high(p.s, p.s);
    let s = 2 * fixed::high(p.c, p.s);
    let sn = (p.cn + p.sn) % 2;
    if cc < ss {
        Pair {
            c: ss - cc,
            cn: 1,
            s,
            sn,
        }
    } else {
        Pair {
            c: cc - ss,
            cn: 0,
            s,
            sn,
        }
    }
}

// This series and the next are written out: each step divides by a constant, and has a bound of its
// own in the proof. q is at most 1 in units of 2^-63. It has no type for that: it is a plain number to
// `horner` and `high`, as the sums and the sizes are.

// The cosine of the root of q, up to 1/10, by its series to the 12th power.
fn cosine_sum(q: u64) -> u64
    requires { q ≤ 2 ^ 63 }
    ensures cosine_sum { IsCosineSum q result }
    ensures value { result ≡ CircleValues.cosine_sum q }
{
    let g10 = fixed::horner(0x8000_0000_0000_0000, q, 132);
    let g8 = fixed::horner(g10, q, 90);
    let g6 = fixed::horner(g8, q, 56);
    let g4 = fixed::horner(g6, q, 30);
    let g2 = fixed::horner(g4, q, 12);
    fixed::horner(g2, q, 2)
}

// The sine of the root of q over that root, up to 1/10, by its series to the 11th power.
fn sine_sum(q: u64) -> u64
    requires { q ≤ 2 ^ 63 }
    ensures alternating { Alternating 10 q 1 30 10 result }
    ensures value { result ≡ CircleValues.sine_sum q }
{
    let g9 = fixed::horner(0x8000_0000_0000_0000, q, 110);
    let g7 = fixed::horner(g9, q, 72);
    let g5 = fixed::horner(g7, q, 42);
    let g3 = fixed::horner(g5, q, 20);
    fixed::horner(g3, q, 6)
}

// The cosine and the sine of y / 2^63, which is at most 200 / 2048: neither is negative.
fn first(y: u64) -> Pair
    requires { y ≤ 200 * 2 ^ 52 }
    ensures first { IsFirst y result.c result.s }
    ensures value { result ≡ CircleValues.first y }
{
    let q = fixed::high(y, y);
    let c = cosine_sum(q);
    let s = fixed::high(y, sine_sum(q));
    Pair { c, cn: 0, s, sn: 0 }
}

// The cosine and the sine of y / 2^(63 - doublings).
pub fn circle(y: u64, doublings: u64) -> Pair
    requires { (y ≤ 200 * 2 ^ 52) × (doublings ≤ 11) }
    ensures circle { IsCircle y doublings result.cn result.c result.sn result.s }
    ensures bounds { (result.c ≤ 9 * 2 ^ 60) × (result.s ≤ 9 * 2 ^ 60) }
    ensures value { result ≡ CircleValues.circle y doublings }
{
    let mut p = first(y);
    for _ in 0..doublings {
        p = doubled(p);
    }
    p
}
