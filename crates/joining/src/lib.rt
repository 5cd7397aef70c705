// What joins the expansion at the disc: the source's `kmn` (its ck1 with kd = -1), `qstar` and `cbk`.
// Both parities go through the same functions.
#![tactic(auto)]

pub mod cbk;
pub mod kmn;
pub mod qstar;
pub mod sums;
