// A mode at an argument off the disc, with what `rmn1` and `rmn2l` both take there.
ghost use Rattle.std.specs.Prelude.{◌≡◌, ◌+◌, ◌-◌, ◌*◌, ◌/◌, ◌%◌, ◌≤◌, ◌<◌};
ghost use Rattle.expansion.specs.Terms.{terms_of};
ghost use Rattle.radial_sums.specs.Common as Shared;

use super::bessel_sums::Series;
use super::common::Common;
use expansion::terms::Mode;

// The mode with its expansion coefficients df, the argument x, and what the sums of both kinds share. All
// Bessel functions that they need have places.
#[derive(Clone, Copy)]
pub struct OffDisc<'a> {
    pub df: &'a [f64; 200],
    pub mode: Mode,
    pub x: f64,
    pub common: Common,
    ghost common_value: { common ≡ Shared.common df.now mode.m mode.n mode.c },
    ghost places: { 2 * terms_of (mode.n - mode.m) mode.c + mode.m ≤ 251 },
}

impl<'a> OffDisc<'a> {
    // What is shared is formed once for both kinds.
    pub fn at(df: &'a [f64; 200], mode: Mode, x: f64) -> OffDisc<'a>
        requires { 2 * terms_of (mode.n - mode.m) mode.c + mode.m ≤ 251 }
        ensures { (result.df.now ≡ df.now) × (result.mode ≡ mode) × (result.x ≡ x) }
    {
        let common = super::common::find_common(df, mode);
        OffDisc {
            df,
            mode,
            x,
            common,
        }
    }

    // The highest order of the Bessel functions.
    pub(crate) fn top(&self) -> u32
        ensures value { result ≡ 2 * self.now.common.nm + self.now.mode.m }
        ensures places { (2 ≤ result) × (result < 252) }
    {
        2 * self.common.nm + self.mode.m
    }

    pub(crate) fn series(&self) -> Series
        ensures { (result.m ≡ self.now.mode.m) × (result.ip ≡ (self.now.mode.n - self.now.mode.m) % 2) × (result.half ≡ (self.now.mode.n - self.now.mode.m) / 2)
            × (result.nm ≡ self.now.common.nm) × (result.r0 ≡ self.now.common.r0) }
    {
        Series {
            m: self.mode.m,
            ip: self.mode.parity(),
            half: self.mode.offset() / 2,
            nm: self.common.nm,
            r0: self.common.r0,
        }
    }
}
