// Streams of records (document 01, 'A record comes in', and Card 6).
ghost use Rattle.std.specs.Prelude.{◌≡◌, ◌+◌, ◌<◌, ◌≤◌, length};
ghost use Rattle.records.specs.Text.{Put};
ghost use Rattle.stream.specs.Inside.Calls.{answered, progress, end_lines};

use super::response;
use modes::Refusal;
use records::Next;

// How far a stream was answered. `refused` is a flag beside the others, not a `Result` of them: where a
// stream is refused they tell as much.
#[derive(Clone, Copy)]
pub struct Progress {
    // Where the next record starts.
    pub at: usize,
    // The number of the next record.
    pub index: u64,
    // How many bytes of the buffer are lines. Where they leave less than `LONGEST`, there may be more
    // to answer; else all whole records are answered.
    pub used: usize,
    // The stream was refused: its last line is there, and nothing more is to be read.
    pub refused: bool,
}

// Answers the whole records from a byte of the input on, the first of them with number `first`, as
// long as the buffer has room for the longest answer. A record that is cut short is left: the input
// may be the beginning of a stream whose rest is still to come. The contract determines the answer and
// every byte of the buffer. It rules out a call that skips a record or answers it twice, leaves out the
// line of a refused stream or goes on after it, miscounts, ends early, or writes past its lines. It asks
// that the records' numbers fit 64 bits. `specs/Readings.antt` has what follows for a stream that comes
// in many readings and is answered by many calls.
pub fn answer_some(input: &[u8], from: usize, first: u64, out: &mut [u8]) -> Progress
    requires { first + length input.now < 18446744073709551616 }
    ensures put { Put out.old out.new 0 result.used (answered input.now (length out.old) from first).text }
    ensures value { result ≡ progress (answered input.now (length out.old) from first) }
{
    let mut at = from;
    let mut index = first;
    let mut used: usize = 0;
    // A `while`: the bytes of the input tell how many records they are.
    while response::LONGEST <= out.len() - used {
        let next = records::next_record(input, at);
        match next {
            Next::Whole(request, size) => {
                used = response::respond(request, index, out, used);
                index = index + 1;
                at = at + size;
            }
            Next::Unmarked => {
                let end = records::r_line(out, used, index, Refusal::WrongMark.number());
                return Progress {
                    at,
                    index,
                    used: end,
                    refused: true,
                };
            }
            Next::Cut | Next::End => {
                return Progress {
                    at,
                    index,
                    used,
                    refused: false,
                };
            }
        }
    }
    Progress {
        at,
        index,
        used,
        refused: false,
    }
}

// What is said of the bytes from `at` on that no call has answered, where the input has ended: a
// record that is cut short is refused. Answers how many bytes of the buffer are lines. The contract rules
// out a stream that ends without a word inside a record, and a record that is cut short refused as one
// with a wrong mark.
pub fn answer_end(input: &[u8], at: usize, index: u64, out: &mut [u8]) -> usize
    requires { 27 ≤ length out.old }
    ensures { Put out.old out.new 0 result (end_lines input.now at index) }
{
    if input.len() <= at {
        return 0;
    }
    records::r_line(out, 0, index, Refusal::CutShort.number())
}
