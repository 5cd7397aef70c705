// Sine, cosine, decimal logarithm and arctangent, each from its own crate. Each is total; that crate's
// specs/ says how near to the exact value it is, and where it is exact.
#![tactic(auto)]

pub use arctangents::arctangent;
pub use logarithms::log10;
pub use sines::{cosine, sine};
