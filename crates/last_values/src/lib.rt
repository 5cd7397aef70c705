// The last values of four rows at once, each that of the degree n, and whether any row is out of steps.
// Both families of the four matrices are bisected side by side, a lane for each of the eight: a row by
// itself counts ahead at midpoints that it may not need, and lanes do not.
#![tactic(auto)]

mod lane;
mod opening;
mod running;
mod values;

pub use lane::Lane;
pub use values::last_values;
