// The public library. Nothing here asks anything of its caller: what document 01 does not accept is
// refused by its number, and a refused call leaves every slice as it was. A mode, cv and x come beside each
// other and not as one value: each is checked by itself, and handed on by itself.
#![tactic(auto)]

mod angular_pairs;
mod expansions;
mod first_kinds;
mod radial_functions;

pub use angular_pairs::{angular, outside};
pub use expansion::values::Pair;
pub use expansions::coefficients;
pub use first_kinds::first_kind;
pub use radial::rswfo::Radial;
pub use radial_functions::radial;
pub use requests::{Kind, Mode, Operation, Refusal};
pub use rows::{dlmf_row, row};
