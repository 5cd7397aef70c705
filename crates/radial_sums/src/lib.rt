// The oblate radial functions as sums over expansion coefficients with spherical Bessel functions: the
// source's `rmn1`, the first kind, and `rmn2l`, the second kind where c x is not small.
#![tactic(auto)]

mod bessel_sums;
pub mod common;
pub mod limits;
pub mod off_disc;
pub mod rmn1;
pub mod rmn2l;
