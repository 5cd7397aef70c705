// Eight matrices side by side, a lane for each, and the count of each one's negative pivots at a shift
// of its own. A pivot waits for the division before it; eight that do not wait for each other take
// little longer than one.
#![tactic(auto)]

mod entries;
mod pivots;

pub use entries::Matrices;
