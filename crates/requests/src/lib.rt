// What can be asked, of which modes, and what is refused. Only `entries` asks anything of its
// callers: that the mode's row is not refused.
#![tactic(auto)]

mod checking;
mod operations;
mod refusals;

pub use checking::{Kind, Mode, entries, no_parameter, not_finite, sign, too_far};
pub use operations::Operation;
pub use refusals::Refusal;
