// The arithmetic beneath the modes. Every function here is total and equals its definition in
// specs/, but for `scale`, which takes apart the bits of a finite double above zero; the crates above
// know it by these contracts only.
#![tactic(auto)]

mod arrays;
mod choice;
mod pattern;
mod powers;
mod root;
mod truncation;

pub use arrays::filled;
pub use choice::{abs, greater, lesser};
pub use pattern::{from_bits, to_bits};
pub use powers::{half_power, power};
pub use root::{Scaled, scale, sqrt};
pub use truncation::{truncate, whole_part};
