// The part of the matrix entry a before cs: from a table for the orders that are asked for most, and
// worked out elsewhere.
#![tactic(auto)]

mod factor_table;
mod lookup;

pub use factor_table::table;
pub use lookup::{factor_a, looked_up};
