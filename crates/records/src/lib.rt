// The bytes that the record program reads and writes: a record's bytes to a struct, and a line's
// text into a buffer. Reading is total; writing asks its caller for room.
#![tactic(auto)]

mod line;
mod record;
mod text;

pub use line::{bits_line, d_line, f_line, pair_line, r_line, v_line, z_line};
pub use record::{LONGEST, Next, Record, next_record};
