// The lines of one record. They go into a buffer that is lent, for memory is fixed, and each function is
// proved to stay inside it: so the buffer, the place in it and the record's number come beside each other,
// with the room that is asked. A struct with the buffer in it would be taken apart for each line.
ghost use Rattle.std.specs.Prelude.{◌≡◌, ℕ, ◌+◌, ◌*◌, ◌<◌, ◌≤◌, length};
ghost use Rattle.records.specs.Text.{Put};
ghost use Rattle.segv.specs.Row.{slices};
ghost use Rattle.requests.specs.Answers.{pair_answer};
ghost use Rattle.modes.specs.Radial.{quadruple_answer};
ghost use Rattle.stream.specs.Response.{row_lines, d_lines, row_text, dlmf_text, answer_text, response_to};
ghost use Rattle.stream.specs.Inside.Calls.{longest};

use modes::{Kind, Mode, Operation, Pair, Radial, Refusal};
use records::Record;

// No record's lines have more bytes: a row has at most 200 lines of 91, and as many of 33.
pub const LONGEST: usize = 24800;

// Room for the longest row. Five arrays, not one of brackets: `modes::row` fills five slices.
#[derive(Drop)]
struct Row {
    values: [f64; 200],
    steps: [u32; 200],
    lowers: [f64; 200],
    uppers: [f64; 200],
    substituted: [u8; 200],
}

// The `V` and `Z` lines of a row's first `count` modes.
fn put_row_lines(row: &Row, index: u64, m: u16, count: usize, out: &mut [u8], at: usize) -> usize
    requires { (count ≤ 200) × (m < 1000) × (at + 124 * count ≤ length out.old) }
    ensures put { Put out.old out.new at result (row_lines index m (slices row.now.values row.now.steps row.now.lowers row.now.uppers row.now.substituted) count) }
    ensures upper_bound { result ≤ at + 124 * count }
{
    let mut used = at;
    for j in 0..count {
        let mode = m + (j as u16);
        let after = records::v_line(
            out,
            used,
            index,
            mode,
            row.steps[j],
            row.values[j],
            row.lowers[j],
            row.uppers[j],
        );
        used = records::z_line(out, after, index, mode, row.substituted[j]);
    }
    used
}

// The `D` lines of a DLMF row's first `count` modes.
fn put_d_lines(
    values: &[f64; 200],
    index: u64,
    m: u16,
    count: usize,
    out: &mut [u8],
    at: usize,
) -> usize
    requires { (count ≤ 200) × (m < 1000) × (at + 46 * count ≤ length out.old) }
    ensures put { Put out.old out.new at result (d_lines index m values.now count) }
    ensures upper_bound { result ≤ at + 46 * count }
{
    let mut used = at;
    for j in 0..count {
        used = records::d_line(out, used, index, m + (j as u16), values[j]);
    }
    used
}

fn respond_row(
    kind: Kind,
    mode: Mode,
    allowance: u32,
    index: u64,
    out: &mut [u8],
    at: usize,
) -> usize
    requires { at + longest ≤ length out.old }
    ensures put { Put out.old out.new at result (row_text index kind mode allowance) }
    ensures upper_bound { result ≤ at + longest }
{
    let mut row = Row {
        values: arith::filled(0.0),
        steps: arith::filled(0),
        lowers: arith::filled(0.0),
        uppers: arith::filled(0.0),
        substituted: arith::filled(0),
    };
    let answer = modes::row(
        kind,
        mode,
        allowance,
        &mut row.values,
        &mut row.steps,
        &mut row.lowers,
        &mut row.uppers,
        &mut row.substituted,
    );
    match answer {
        Ok(()) => put_row_lines(&row, index, mode.m, (mode.n - mode.m) as usize + 1, out, at),
        Err(refusal) => records::r_line(out, at, index, refusal.number()),
    }
}

fn respond_dlmf_row(
    kind: Kind,
    mode: Mode,
    allowance: u32,
    index: u64,
    out: &mut [u8],
    at: usize,
) -> usize
    requires { at + longest ≤ length out.old }
    ensures put { Put out.old out.new at result (dlmf_text index kind mode allowance) }
    ensures upper_bound { result ≤ at + longest }
{
    let mut values: [f64; 200] = arith::filled(0.0);
    let answer = modes::dlmf_row(kind, mode, allowance, &mut values);
    match answer {
        Ok(()) => put_d_lines(
            &values,
            index,
            mode.m,
            (mode.n - mode.m) as usize + 1,
            out,
            at,
        ),
        Err(refusal) => records::r_line(out, at, index, refusal.number()),
    }
}

// The line of a mode's pair, with the operation's letter, or of its refusal. A pair's line has two
// numbers and a letter of its own, that of both radial kinds four: so there are two functions.
#[tactic(auto, unfolding(crate::specs::Response::answer_text))]
fn put_pair(
    answer: Result<Pair, Refusal>,
    letter: u8,
    index: u64,
    m: u16,
    n: u16,
    out: &mut [u8],
    at: usize,
) -> usize
    requires { at + 103 ≤ length out.old }
    ensures put { Put out.old out.new at result (answer_text letter index m n (pair_answer answer)) }
    ensures upper_bound { result ≤ at + 103 }
{
    match answer {
        Ok(pair) => records::pair_line(out, at, letter, index, m, n, pair.value, pair.derivative),
        Err(refusal) => records::r_line(out, at, index, refusal.number()),
    }
}

// The line of both radial kinds, or of their refusal.
#[tactic(auto, unfolding(crate::specs::Response::answer_text))]
fn put_radial(
    answer: Result<Radial, Refusal>,
    index: u64,
    m: u16,
    n: u16,
    out: &mut [u8],
    at: usize,
) -> usize
    requires { at + 103 ≤ length out.old }
    ensures put { (letter : ℕ) → Put out.old out.new at result (answer_text letter index m n (quadruple_answer answer)) }
    ensures upper_bound { result ≤ at + 103 }
{
    match answer {
        Ok(kinds) => records::f_line(
            out,
            at,
            index,
            m,
            n,
            kinds.first.value,
            kinds.first.derivative,
            kinds.second.value,
            kinds.second.derivative,
        ),
        Err(refusal) => records::r_line(out, at, index, refusal.number()),
    }
}

// Puts the lines of a record at a place of the buffer, and answers the place after them.
pub(crate) fn respond(request: Record, index: u64, out: &mut [u8], at: usize) -> usize
    requires { at + longest ≤ length out.old }
    ensures put { Put out.old out.new at result (response_to index request) }
    ensures upper_bound { result ≤ at + longest }
{
    let mode = Mode {
        m: request.m,
        n: request.n,
        c: request.c,
    };
    let operation = match Operation::try_from(request.operation) {
        Ok(operation) => operation,
        Err(refusal) => return records::r_line(out, at, index, refusal.number()),
    };
    match operation {
        Operation::Row(kind) => respond_row(kind, mode, request.allowance, index, out, at),
        Operation::DlmfRow(kind) => respond_dlmf_row(kind, mode, request.allowance, index, out, at),
        Operation::Angular(kind) => {
            let answer = modes::angular(kind, mode, request.cv, request.x);
            put_pair(answer, b'A', index, request.m, request.n, out, at)
        }
        Operation::Radial => {
            let answer = modes::radial(mode, request.cv, request.x);
            put_radial(answer, index, request.m, request.n, out, at)
        }
        Operation::FirstKind => {
            let answer = modes::first_kind(mode, request.cv, request.x);
            put_pair(answer, b'G', index, request.m, request.n, out, at)
        }
    }
}
