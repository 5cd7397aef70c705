// The angular function of a mode and its derivative: the source's `aswfa`. Both kinds and both
// parities go through the same functions.
#![tactic(auto)]

pub mod aswfa;
mod limit;
mod sums;
