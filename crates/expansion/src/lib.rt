// Expansion coefficients of spheroidal modes: the source's `sdmn` and `sckb`. Both kinds and both
// parities go through the same functions: the kind is the sign of cs, and the parity is a number.
#![tactic(auto)]

mod four;
pub mod products;
pub mod sckb;
pub mod sdmn;
pub mod sums;
pub mod terms;
pub mod values;
