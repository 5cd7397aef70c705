// The oblate radial functions, on the disc and off it: the source's `gmn`, `rmn2so` and `rswfo`. Its `rmn1`
// and `rmn2l` stand in `radial_sums`.
#![tactic(auto)]

mod gmn;
pub mod rmn2so;
pub mod rswfo;
