// The symmetric tridiagonal matrix of one family of spheroidal modes: its entries, its Gershgorin
// bounds and its negative pivots at a shift. The first half of the source's `segv`.
#![tactic(auto)]

mod entries;
mod gershgorin_bounds;
mod pivots;

pub use entries::{Matrix, entry_a, entry_d, entry_g, family_matrix};
pub use gershgorin_bounds::Bounds;
pub use pivots::{Count, Counts, Seven, counted, divisor, pivot, square};
