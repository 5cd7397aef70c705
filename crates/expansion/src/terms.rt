// How far the sums over expansion coefficients run. `h`, `terms`, `power_terms` and `cut` take numbers and
// no mode: they ask less of them than a mode does.
ghost use Rattle.std.specs.Prelude.{◌≡◌, true, false, ◌-◌, ◌%◌, ◌<◌, ◌≤◌};
ghost use Rattle.std.specs.Float.Ieee.{lt};
ghost use Rattle.arith.specs.Double.{#0};
ghost use Rattle.expansion.specs.Terms as Terms;

// Document 01's H for n - m and c.
pub fn h(offset: u32, c: f64) -> f64
    ensures { result ≡ Terms.h_of offset c }
{
    (offset as f64) / 2.0 + c
}

// Document 01's N.
pub fn terms(offset: u32, c: f64) -> u32
    requires { lt (Terms.h_of offset c) Terms.#175 ≡ true }
    ensures value { result ≡ Terms.terms_of offset c }
    ensures lower_bound { (25 ≤ result) × (result < 200) }
{
    25 + arith::whole_part(h(offset, c))
}

// c, or 1e-10 where c is at most that. No `max`, which would drop a NaN.
#[tactic(auto, unfolding(crate::specs::Terms::clamped))]
fn clamped(c: f64) -> f64
    ensures { result ≡ Terms.clamped c }
{
    if c <= 1e-10 {
        return 1e-10;
    }
    c
}

// The N of `sckb`.
pub fn power_terms(offset: u32, c: f64) -> u32
    requires { (offset < 200) × (lt (Terms.h_of offset c) Terms.#175 ≡ true) }
    ensures value { result ≡ Terms.power_terms_of offset c }
    ensures lower_bound { (25 ≤ result) × (result < 200) }
{
    terms(offset, clamped(c))
}

// H truncated, but with n - m halved as a whole number.
pub fn cut(offset: u32, c: f64) -> u32
    requires { (offset < 200) × (lt c #0 ≡ false) × (lt (Terms.h_of offset c) Terms.#175 ≡ true) }
    ensures value { result ≡ Terms.cut_of offset c }
    ensures upper_bound { result < 175 }
{
    arith::whole_part(((offset / 2) as f64) + c)
}

// A mode that every routine over coefficients takes: document 01's refusals 4, 5 and 6 do not
// apply.
#[derive(Clone, Copy)]
pub struct Mode {
    pub m: u32,
    pub n: u32,
    pub c: f64,
    ghost usable: { Terms.Usable m n c },
}

impl Mode {
    // n - m.
    pub fn offset(self) -> u32
        ensures value { result ≡ self.n - self.m }
        ensures upper_bound { result < 200 }
    {
        self.n - self.m
    }

    // The parity of n - m.
    pub fn parity(self) -> u32
        ensures value { result ≡ (self.n - self.m) % 2 }
        ensures upper_bound { result < 2 }
    {
        (self.n - self.m) % 2
    }

    // Document 01's N.
    pub fn terms(self) -> u32
        ensures value { result ≡ Terms.terms_of (self.n - self.m) self.c }
        ensures lower_bound { (25 ≤ result) × (result < 200) }
    {
        terms(self.n - self.m, self.c)
    }

    // The N of `sckb`.
    pub fn power_terms(self) -> u32
        ensures value { result ≡ Terms.power_terms_of (self.n - self.m) self.c }
        ensures lower_bound { (25 ≤ result) × (result < 200) }
    {
        power_terms(self.n - self.m, self.c)
    }

    // H truncated, but with n - m halved as a whole number.
    pub fn cut(self) -> u32
        ensures value { result ≡ Terms.cut_of (self.n - self.m) self.c }
        ensures upper_bound { result < 175 }
    {
        cut(self.n - self.m, self.c)
    }
}
