// The record at a place of the input (document 01, 'A record comes in', and Card 6).
ghost use Rattle.std.specs.Prelude.{◌≡◌, ◌⊎◌, ◌+◌, ◌≤◌, length, take, drop, unwrap_or, IfSome};
ghost use Rattle.records.specs.Record.{number_at, double_at, marked, width_at, record_at, next_at};

// How many bytes a record has besides its allowance.
const WITHOUT_ALLOWANCE: usize = 31;

// No record has more bytes: its allowance has 2 or 4.
pub const LONGEST: usize = 35;

// The fields of a record, without its mark.
#[derive(Clone, Copy)]
pub struct Record {
    pub operation: u8,
    pub m: u16,
    pub n: u16,
    pub allowance: u32,
    pub c: f64,
    pub cv: f64,
    pub x: f64,
}

// What the input has from a place on. An enum and no `Result`: whoever reads does something else in
// each of the four.
#[derive(Clone, Copy)]
pub enum Next {
    // A whole record, and how many bytes it has.
    Whole(Record, usize),
    // Neither mark is there: refusal 2.
    Unmarked,
    // The input ends inside the record: refusal 1, unless more of it is to come.
    Cut,
    // No byte is left.
    End,
}

// The N bytes from at on.
fn bytes<const N: usize>(input: &[u8], at: usize) -> [u8; N]
    requires { at + N ≤ length input.now }
    ensures { result ≡ take N (drop at input.now) }
{
    *input[at..].first_chunk().unwrap()
}

// Whether a mark is at a place: hexadecimal 53 and a second byte.
fn marked(second: u8, input: &[u8], at: usize) -> bool
    requires { at + 2 ≤ length input.now }
    ensures { result ≡ marked second input.now at }
{
    input[at] == 0x53 && input[at + 1] == second
}

// How many bytes the allowance has by the mark at a place; none where neither mark is there.
fn width_at(input: &[u8], at: usize) -> Option<usize>
    requires { at + 2 ≤ length input.now }
    ensures value { unwrap_or result 0 ≡ width_at input.now at }
    ensures some_known { IfSome result (λ width. (width ≡ 2) ⊎ (width ≡ 4)) }
{
    if marked(0x57, input, at) {
        return Some(2);
    }
    if marked(0x56, input, at) {
        return Some(4);
    }
    None
}

// The allowance of two or four bytes.
#[tactic(auto, using(crate::proofs::Laws::number_2, crate::proofs::Laws::number_4, crate::proofs::Laws::other_width))]
fn allowance_at(input: &[u8], at: usize, width: usize) -> u32
    requires { ((width ≡ 2) ⊎ (width ≡ 4)) × (at + width ≤ length input.now) }
    ensures { result ≡ number_at input.now at width }
{
    if width == 4 {
        return u32::from_le_bytes(bytes(input, at));
    }
    u16::from_le_bytes(bytes(input, at)) as u32
}

// The double whose bits are the eight bytes from at on.
fn double_at(input: &[u8], at: usize) -> f64
    requires { at + 8 ≤ length input.now }
    ensures { result ≡ double_at input.now at }
{
    arith::from_bits(u64::from_le_bytes(bytes(input, at)))
}

// The fields of the record at a place, whatever its mark.
fn decode(input: &[u8], at: usize, width: usize) -> Record
    requires { ((width ≡ 2) ⊎ (width ≡ 4)) × (at + 31 + width ≤ length input.now) }
    ensures { result ≡ record_at input.now at width }
{
    Record {
        operation: input[at + 2],
        m: u16::from_le_bytes(bytes(input, at + 3)),
        n: u16::from_le_bytes(bytes(input, at + 5)),
        allowance: allowance_at(input, at + 7, width),
        c: double_at(input, at + 7 + width),
        cv: double_at(input, at + 15 + width),
        x: double_at(input, at + 23 + width),
    }
}

// What the input has from at on. Both marks have two bytes, so that one byte alone tells nothing. The
// contract rules out an allowance cut to 16 bits, a new record taken whole with an old one's 33 bytes,
// and a wrong mark told as a record that is cut short.
#[tactic(auto, using(crate::proofs::Laws::width_above), unfolding(crate::specs::Record::next_at))]
pub fn next_record(input: &[u8], at: usize) -> Next
    ensures { result ≡ next_at input.now at }
{
    if input.len() <= at {
        return Next::End;
    }
    let left = input.len() - at;
    if left < 2 {
        return Next::Cut;
    }
    let Some(width) = width_at(input, at) else {
        return Next::Unmarked;
    };
    let size = WITHOUT_ALLOWANCE + width;
    if left < size {
        return Next::Cut;
    }
    Next::Whole(decode(input, at, width), size)
}
