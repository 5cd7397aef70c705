// Spherical Bessel functions: the source's `sphj`, with `msta1` and `msta2`, which find the order from
// which its backward recurrence starts, and `sphy`.
#![tactic(auto)]

pub mod msta1;
pub mod msta2;
mod secant;
pub mod sphj;
pub mod sphy;
