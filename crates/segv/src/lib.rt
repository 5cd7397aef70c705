// Characteristic values of spheroidal modes by bisection: the source's `segv`, over the matrix of
// crate `sturm`. Both parities and both kinds go through the same functions: the parity is a number
// and the kind is the sign of cs.
#![tactic(auto)]

mod bisection;
mod ends;
mod families;
mod row;

pub use bisection::{Bracket, Limits, OutOfSteps};
pub use ends::Ends;
pub use row::segv;
