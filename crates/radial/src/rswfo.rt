// The source's `rswfo`: with kf = 3 both radial kinds at x, and with kf = 1 the first.
ghost use Rattle.std.specs.Prelude.{◌≡◌, false, ◌+◌, ◌-◌, ◌*◌, ◌≤◌};
ghost use Rattle.std.specs.Float.Ieee.{eq};
ghost use Rattle.arith.specs.Double.{#0};
ghost use Rattle.expansion.specs.Terms.{terms_of};
ghost use Rattle.expansion.specs.Sckb.{sckb};
ghost use Rattle.radial_sums.specs.Rmn1 as Rmn1;
ghost use Rattle.radial.specs.Rswfo as Rswfo;

use expansion::sums::Places;
use expansion::terms::Mode;
use expansion::values::Pair;
use radial_sums::off_disc::OffDisc;

// Both kinds.
#[derive(Clone, Copy)]
pub struct Radial {
    pub first: Pair,
    pub second: Pair,
}

// mode, cv and x stay three: cv is any double, so that a struct of them would hold no fact besides that of
// the mode, and off the disc `OffDisc` has the mode and x.

// The expansion coefficients: the mode is oblate. They go into a lent place, by a call: an array that is
// answered and then borrowed by `OffDisc` lies on the stack twice, and the header promises C how much there is.
#[inline(never)]
fn put_coefficients(mode: Mode, cv: f64, df: &mut Places)
    ensures { df.new ≡ Rswfo.coefficients mode.m mode.n mode.c cv }
{
    *df = expansion::sdmn::sdmn(mode, cv, -1.0);
}

// The second kind from the disc's coefficients.
fn second_by_so(df: &[f64; 200], mode: Mode, cv: f64, x: f64, first: Pair) -> Pair
    ensures { result ≡ Rswfo.by_so df.now mode.m mode.n mode.c cv x first }
{
    let ck = expansion::sckb::sckb(df, mode);
    super::rmn2so::rmn2so(df, &ck, mode, cv, x, first)
}

// The second kind off the disc: what `rmn2l` gives, or where it gives none the one from the disc's
// coefficients.
fn second_kind(at: &OffDisc, cv: f64, first: Pair) -> Pair
    ensures { result ≡ Rswfo.second_kind at.now.df.now at.now.mode.m at.now.mode.n at.now.mode.c cv at.now.x first }
{
    let x = at.x;
    if 1e-8 < x {
        if let Some(second) = radial_sums::rmn2l::rmn2l(at) {
            return second;
        }
    }
    second_by_so(at.df, at.mode, cv, x, first)
}

// Both kinds off the disc. What their sums share is formed once.
fn off_disc(at: &OffDisc, cv: f64) -> Option<Radial>
    ensures { result ≡ Rswfo.with_second at.now.df.now at.now.mode.m at.now.mode.n at.now.mode.c cv at.now.x (Rmn1.off_disc at.now.df.now at.now.mode.m at.now.mode.n at.now.mode.c at.now.x) }
{
    let first = radial_sums::rmn1::off_disc(at)?;
    let second = second_kind(at, cv, first);
    Some(Radial { first, second })
}

// Both kinds at argument zero. The source forms the power coefficients for each.
fn on_disc(df: &[f64; 200], mode: Mode, cv: f64, x: f64) -> Radial
    ensures first_value { result.first ≡ Rmn1.on_disc df.now (sckb df.now mode.m mode.n mode.c) mode.m mode.n mode.c }
    ensures second_value { result.second ≡ Rswfo.by_so df.now mode.m mode.n mode.c cv x result.first }
{
    let ck = expansion::sckb::sckb(df, mode);
    let first = radial_sums::rmn1::on_disc(df, &ck, mode);
    let second = super::rmn2so::rmn2so(df, &ck, mode, cv, x, first);
    Radial { first, second }
}

// Both kinds of an oblate mode at x: none where the orders of the first one's Bessel functions were not
// found. What is asked is asked off the disc only, so that no type holds it for every x: there `OffDisc` does.
pub fn rswfo(mode: Mode, cv: f64, x: f64) -> Option<Radial>
    requires { eq x #0 ≡ false → 2 * terms_of (mode.n - mode.m) mode.c + mode.m ≤ 251 }
    ensures { result ≡ Rswfo.rswfo mode.m mode.n mode.c cv x }
{
    let mut df: Places = arith::filled(0.0);
    put_coefficients(mode, cv, &mut df);
    if x == 0.0 {
        return Some(on_disc(&df, mode, cv, x));
    }
    let at = OffDisc::at(&df, mode, x);
    off_disc(&at, cv)
}

// The first kind of an oblate mode at x: none where the orders of its Bessel functions were not found. What
// is asked is that of `rswfo`.
#[tactic(auto, unfolding(crate::specs::Rswfo::first_kind))]
pub fn first_kind(mode: Mode, cv: f64, x: f64) -> Option<Pair>
    requires { eq x #0 ≡ false → 2 * terms_of (mode.n - mode.m) mode.c + mode.m ≤ 251 }
    ensures { result ≡ Rswfo.first_kind mode.m mode.n mode.c cv x }
{
    let mut df: Places = arith::filled(0.0);
    put_coefficients(mode, cv, &mut df);
    radial_sums::rmn1::rmn1(&df, mode, x)
}
