// Sheets: the angular pair of one mode for several c at several x, each c with the characteristic value
// of its own row. Nothing here asks anything of its caller. Where an answer has a name before its `?`, an
// edit of must-fail/ or a proof goes by that name.
#![tactic(auto)]

mod checking;
mod parameters;
mod sheets;

pub use checking::{ARGUMENTS, PARAMETERS};
pub use sheets::sheet;
