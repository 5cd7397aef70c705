// A mode, its limits and its refusals.
ghost use Rattle.std.specs.Prelude.{◌≡◌, ◌-◌, ◌<◌, ◌≤◌, IfOk};
ghost use Rattle.expansion.specs.Terms.{h_of};
ghost use Rattle.requests.specs.Answers.{code};
ghost use Rattle.requests.specs.Refusals as Refusals;

use super::refusals::Refusal;
use expansion::terms;

#[derive(Clone, Copy, Debug, PartialEq, Eq)]
pub enum Kind {
    Prolate,
    Oblate,
}

// The order m, the degree n and the size parameter c, as a record has them. `terms::Mode` has the same
// three, but only of modes that are not refused.
#[derive(Clone, Copy)]
pub struct Mode {
    pub m: u16,
    pub n: u16,
    pub c: f64,
}

// Document 01's kd. A name, not `From<Kind> for f64`: a kind is no number.
#[tactic(auto, unfolding(crate::specs::Refusals::sign_of))]
pub fn sign(kind: Kind) -> f64
    ensures { result ≡ Refusals.sign_of kind }
{
    match kind {
        Kind::Prolate => 1.0,
        Kind::Oblate => -1.0,
    }
}

// Whether c is NaN, infinite or below zero; off the disc, x is asked the same.
#[tactic(auto, using(crate::proofs::Laws::endless_refused, crate::proofs::Laws::negative_refused))]
pub fn no_parameter(c: f64) -> bool
    ensures { result ≡ Refusals.no_parameter c }
{
    !c.is_finite() || c < 0.0
}

// Whether x is NaN or infinite.
#[tactic(auto, using(crate::proofs::Laws::finite_is))]
pub fn not_finite(x: f64) -> bool
    ensures { result ≡ Refusals.not_finite x }
{
    !x.is_finite()
}

impl Mode {
    // The largest m, and the largest n - m.
    pub const LARGEST: u16 = 199;
    // What document 01's H stays below for a row.
    pub const ROW_LIMIT: f64 = 291.0;
    // And for all else.
    pub const LIMIT: f64 = 175.0;
    // What document 01's N and m do not exceed together, for a radial function.
    pub const PLACES: u32 = 200;
    // What 2N + m does not exceed for a radial function off the disc.
    pub const ORDERS: u32 = 251;
    // And what c * x does not.
    pub const ARGUMENT: f64 = 200.0;

    // Document 01's H: (n - m)/2 + c.
    fn h(self) -> f64
        requires { self.m ≤ self.n }
        ensures { result ≡ h_of (self.n - self.m) self.c }
    {
        terms::h((self.n - self.m) as u32, self.c)
    }

    // Whether m is above 199, n below m, or n - m above 199.
    #[tactic(auto, unfolding(crate::specs::Refusals::out_of_range))]
    pub fn out_of_range(self) -> bool
        ensures { result ≡ Refusals.out_of_range self }
    {
        Mode::LARGEST < self.m || self.n < self.m || Mode::LARGEST < self.n - self.m
    }

    // The first of 4, 5 and 6 that applies.
    #[tactic(auto, unfolding(crate::specs::Refusals::refusal_of))]
    fn refusal(self, limit: f64) -> Result<(), Refusal>
        ensures { code result ≡ Refusals.refusal_of limit self }
    {
        if self.out_of_range() {
            return Err(Refusal::OutOfRange);
        }
        if no_parameter(self.c) {
            return Err(Refusal::SizeParameter);
        }
        if self.h() < limit {
            return Ok(());
        }
        Err(Refusal::TooLarge)
    }

    pub fn row_refusal(self) -> Result<(), Refusal>
        ensures { code result ≡ Refusals.row_refusal self }
    {
        self.refusal(Mode::ROW_LIMIT)
    }

    // The mode as the routines over its coefficients take it. Refused where anything but a row is.
    pub fn usable(self) -> Result<terms::Mode, Refusal>
        ensures refused { code result ≡ Refusals.mode_refusal self }
        ensures same { IfOk result (λ mode. Refusals.asked mode ≡ self) }
    {
        self.refusal(Mode::LIMIT)?;
        Ok(terms::Mode {
            m: self.m as u32,
            n: self.n as u32,
            c: self.c,
        })
    }

    // Document 01's cs, which is DLMF's gamma squared: c * c, negated for oblate modes.
    pub fn cs(self, kind: Kind) -> f64
        ensures { result ≡ Refusals.cs_of kind self }
    {
        self.c * self.c * sign(kind)
    }

    // The mode as a radial function with the characteristic value cv takes it. The first of 4, 5, 6 and 7
    // that applies to one.
    #[tactic(auto, using(crate::proofs::Laws::some_number), unfolding(crate::specs::Refusals::radial_mode_refusal))]
    pub fn usable_radial(self, cv: f64) -> Result<terms::Mode, Refusal>
        ensures refused { code result ≡ Refusals.radial_mode_refusal self cv }
        ensures same { IfOk result (λ mode. Refusals.asked mode ≡ self) }
    {
        let mode = self.usable()?;
        if too_many_terms(mode) {
            return Err(Refusal::TooLarge);
        }
        if not_finite(cv) {
            return Err(Refusal::CharacteristicValue);
        }
        Ok(mode)
    }
}

// Whether N + m is above 200.
#[tactic(auto, unfolding(crate::specs::Refusals::too_many_terms))]
fn too_many_terms(mode: terms::Mode) -> bool
    ensures { result ≡ Refusals.too_many_terms (Refusals.asked mode) }
{
    Mode::PLACES < mode.terms() + mode.m
}

// How many entries the matrix of a row has: document 01's K.
pub fn entries(mode: Mode) -> u32
    requires { Refusals.row_refusal mode ≡ 0 }
    ensures { result ≡ Refusals.entries_of mode }
{
    10 + arith::whole_part(mode.h())
}

// Whether x is not zero, and 2N + m is above 251 or c * x above 200. It asks nothing of the mode: N is formed
// in 64 bits, where a refused mode's has room too.
#[tactic(auto, unfolding(crate::specs::Refusals::too_far, expansion::specs::Terms::terms_of))]
pub fn too_far(mode: Mode, x: f64) -> bool
    ensures { result ≡ Refusals.too_far mode x }
{
    if x == 0.0 {
        return false;
    }
    let offset = mode.n.saturating_sub(mode.m);
    let terms = 25 + arith::whole_part(terms::h(offset as u32, mode.c)) as u64;
    if (Mode::ORDERS as u64) < 2 * terms + mode.m as u64 {
        return true;
    }
    Mode::ARGUMENT < mode.c * x
}
