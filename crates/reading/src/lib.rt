// Reads a stream of records from a reader and writes its lines to a writer, as they arrive: what a
// client has sent is answered before more is waited for. What the lines are is proved in `stream`;
// here is only the reading and writing. The two loops follow `stream/specs/Readings.antt`, whose
// theorem says that all lines together are the stream's. Both buffers are lent, for memory is fixed, and
// come as slices beside each other: a struct of them would be taken apart at each call, where the one is
// read and the other written.
#![tactic(auto)]

ghost use Rattle.std.specs.Prelude.{◌≡◌, true, ◌+◌, ◌-◌, ◌<◌, ◌≤◌, length, take, drop};
ghost use Rattle.stream.specs.Inside.Calls.{longest};
ghost use Rattle.reading.specs.Loop.{Answers, Keeps, Goes, Ends, state_of};

use std::io::{Read, Write};

// Whether more of a stream is to be answered.
#[derive(Clone, Copy, Debug, PartialEq, Eq)]
pub enum State {
    // Its lines were taken, and it is not refused.
    Going,
    // Its lines were taken, and the last of them refuses it.
    Refused,
    // The lines were not taken: nobody reads them any more.
    Unread,
    // Both: its lines were not taken, and the last of them refuses it.
    RefusedUnread,
}

// How far the bytes that are there were answered.
#[derive(Clone, Copy)]
struct Arrived {
    // Where the record starts that is not whole yet.
    at: usize,
    // Its number.
    index: u64,
    state: State,
}

// How far a stream has come after a reading.
#[derive(Clone, Copy)]
pub struct Reading {
    // How many bytes the reading got: 0 where the input has ended.
    pub got: usize,
    // How many bytes came in all.
    pub bytes: u64,
    // How many bytes at the buffer's start are held: the beginning of a record that is not whole yet.
    pub held: usize,
    // The number of that record.
    pub index: u64,
    pub state: State,
}

// The state after lines that were written or not, the last of which refuses the stream or does not.
fn state_of(refused: bool, written: bool) -> State
    ensures { result ≡ state_of refused written }
{
    match (refused, written) {
        (false, true) => State::Going,
        (true, true) => State::Refused,
        (false, false) => State::Unread,
        (true, false) => State::RefusedUnread,
    }
}

// Writes the lines of all whole records that are there.
fn answer_arrived<W: Write>(to: &mut W, input: &[u8], first: u64, out: &mut [u8]) -> Arrived
    requires { (longest ≤ length out.old) × (length input.now < 4294967296) × (first < 9223372036854775808) }
    ensures out_len_unchanged { length out.new ≡ length out.old }
    ensures answers { Answers input.now (length out.old) first result }
{
    let mut index = first;
    let mut at: usize = 0;
    // A `loop`: how many calls the bytes take is not known before.
    loop {
        let progress = stream::answer_some(input, at, index, out);
        let used = progress.used;
        let written = to.write_all(&out[..used]).is_ok();
        let state = state_of(progress.refused, written);
        index = progress.index;
        at = progress.at;
        if state != State::Going {
            return Arrived { at, index, state };
        }
        if stream::LONGEST <= out.len() - used {
            return Arrived { at, index, state };
        }
    }
}

// Writes what is still to be said where the input has ended.
fn answer_end<W: Write>(to: &mut W, input: &[u8], index: u64, out: &mut [u8]) -> bool
    requires { longest ≤ length out.old }
    ensures { length out.new ≡ length out.old }
{
    let used = stream::answer_end(input, 0, index, out);
    to.write_all(&out[..used]).is_ok()
}

// Reads into the buffer behind the bytes that are held, and answers how many came. There is room for
// one at least, so that 0 means that the input has ended or cannot be read.
fn read_behind<R: Read>(from: &mut R, buffer: &mut [u8], held: usize) -> usize
    requires { held < length buffer.old }
    ensures result_in_bounds { held + result ≤ length buffer.old }
    ensures buffer_len_unchanged { (length buffer.new ≡ length buffer.old) × (take held buffer.new ≡ take held buffer.old) }
{
    let rest = &mut buffer[held..];
    from.read(rest).unwrap_or(0)
}

// The bytes from `at` to `end` go to the front.
fn keep(buffer: &mut [u8], at: usize, end: usize)
    requires { (at ≤ end) × (end ≤ length buffer.old) }
    ensures { (length buffer.new ≡ length buffer.old) × (take (end - at) buffer.new ≡ drop at (take end buffer.old)) }
{
    buffer.copy_within(at..end, 0);
}

// One reading: the whole records that are there now are answered, and the beginning of the next is
// held.
fn take_reading<R: Read, W: Write>(
    from: &mut R,
    to: &mut W,
    buffer: &mut [u8],
    out: &mut [u8],
    before: Reading,
) -> Reading
    requires in_bounds { (35 ≤ length buffer.old) × (length buffer.old < 4294967296) × (longest ≤ length out.old) × (before.bytes < 9223372036854775808) }
    requires keeps { Keeps (length out.old) buffer.old before }
    ensures buffer_len_unchanged { (length buffer.new ≡ length buffer.old) × (length out.new ≡ length out.old) }
    ensures bytes_value { result.bytes ≡ before.bytes + result.got }
    ensures keeps_2 { Goes result → Keeps (length out.old) buffer.new result }
{
    let held = before.held;
    let index = before.index;
    let got = read_behind(from, buffer, held);
    if got == 0 {
        let written = answer_end(to, &buffer[..held], index, out);
        return Reading {
            got,
            bytes: before.bytes,
            held,
            index,
            state: state_of(0 < held, written),
        };
    }
    let end = held + got;
    let arrived = answer_arrived(to, &buffer[..end], index, out);
    let at = arrived.at;
    keep(buffer, at, end);
    Reading {
        got,
        bytes: before.bytes + (got as u64),
        held: end - at,
        index: arrived.index,
        state: arrived.state,
    }
}

// Answers a stream to its end, or to where it is refused or its lines are no longer taken. The buffer
// may have any length that holds a record. The contract rules out a loop that ends after some number
// of readings or takes a short reading for the input's end, and one that loses a byte between two
// readings or reads it twice. The bound of 2^63 bytes is never met.
pub fn answer_all<R: Read, W: Write>(
    from: &mut R,
    to: &mut W,
    buffer: &mut [u8],
    out: &mut [u8],
) -> Reading
    requires { (35 ≤ length buffer.old) × (length buffer.old < 4294967296) × (longest ≤ length out.old) }
    ensures ends { Ends result }
    ensures keeps { Goes result → Keeps (length out.old) buffer.new result }
{
    let mut last = Reading {
        got: 0,
        bytes: 0,
        held: 0,
        index: 0,
        state: State::Going,
    };
    // A `while`: how many readings come is not known before.
    while last.bytes < 9223372036854775808 {
        last = take_reading(from, to, buffer, out, last);
        if last.got == 0 {
            return last;
        }
        if last.state != State::Going {
            return last;
        }
    }
    last
}
