// The lines of a stream of records, into a buffer. What the record program prints is settled here;
// the program only reads and writes.
#![tactic(auto)]

mod response;
mod stream;

pub use response::LONGEST;
pub use stream::{Progress, answer_end, answer_some};
