// A test program: holds published values of Flammer, of Zhang and Jin and of DLMF against the library.
// Standard input has two records for each value: what is asked of the library, and one that carries the
// published value as its c, how far off an answer may be as its cv, and as its operation which of the
// answer's numbers is meant, from 0 on. `tests/published/run` writes it.
#![tactic(auto)]

ghost use Rattle.std.specs.Prelude.{◌≤◌, length};

use modes::{Kind, Mode, Operation, Pair, Radial, Refusal};
use records::{Next, Record};

// The descriptor of standard input.
const INPUT: i32 = 0;

// And that of standard output.
const OUTPUT: i32 = 1;

// The place of degree n in a row of the mode. Where there is none the row is refused, and any place does:
// all are 0.
fn place_of(mode: Mode) -> usize
    ensures { result ≤ 199 }
{
    let offset = mode.n.saturating_sub(mode.m) as usize;
    if 199 < offset {
        return 0;
    }
    offset
}

// The characteristic value of the mode of degree n, 0 where the row is refused. No `Option`: what is printed
// may not change, and the 0 is held against the published value like any other.
fn value_of(kind: Kind, mode: Mode) -> f64 {
    // Five arrays, as the row goes into five slices.
    let mut values: [f64; 200] = arith::filled(0.0);
    let mut steps: [u32; 200] = arith::filled(0);
    let mut lowers: [f64; 200] = arith::filled(0.0);
    let mut uppers: [f64; 200] = arith::filled(0.0);
    let mut substituted: [u8; 200] = arith::filled(0);
    let _ = modes::row(
        kind,
        mode,
        65535,
        &mut values,
        &mut steps,
        &mut lowers,
        &mut uppers,
        &mut substituted,
    );
    values[place_of(mode)]
}

// DLMF's eigenvalue of the mode of degree n, and 0 again where the row is refused.
fn eigenvalue_of(kind: Kind, mode: Mode) -> f64 {
    let mut values: [f64; 200] = arith::filled(0.0);
    let _ = modes::dlmf_row(kind, mode, 65535, &mut values);
    values[place_of(mode)]
}

// One of the numbers of an answer, or NaN where it has none: no `Option`, for NaN agrees with no number.
// A pair has two and both radial kinds have four, each with a function of its own.
fn number_of_pair(answer: Result<Pair, Refusal>, which: u8) -> f64 {
    let Ok(pair) = answer else {
        return 0.0 / 0.0;
    };
    match which {
        0 => pair.value,
        _ => pair.derivative,
    }
}

// The same of both radial kinds.
fn number_of_radial(answer: Result<Radial, Refusal>, which: u8) -> f64 {
    let Ok(kinds) = answer else {
        return 0.0 / 0.0;
    };
    match which {
        0 => kinds.first.value,
        1 => kinds.first.derivative,
        2 => kinds.second.value,
        _ => kinds.second.derivative,
    }
}

fn answer_to(request: Record, which: u8) -> f64 {
    let mode = Mode {
        m: request.m,
        n: request.n,
        c: request.c,
    };
    let Ok(operation) = Operation::try_from(request.operation) else {
        return 0.0 / 0.0;
    };
    match operation {
        Operation::Row(kind) => value_of(kind, mode),
        Operation::Angular(kind) => {
            number_of_pair(modes::angular(kind, mode, request.cv, request.x), which)
        }
        Operation::Radial => number_of_radial(modes::radial(mode, request.cv, request.x), which),
        Operation::FirstKind => {
            number_of_pair(modes::first_kind(mode, request.cv, request.x), which)
        }
        Operation::DlmfRow(kind) => eigenvalue_of(kind, mode),
    }
}

fn print_result(number: u64, agrees: bool) {
    io::write_all(OUTPUT, b"P ");
    io::print_decimal(OUTPUT, number);
    if agrees {
        io::write_all(OUTPUT, b" agrees\n");
        return;
    }
    io::write_all(OUTPUT, b" differs\n");
}

// Ends where two whole records are not left.
fn compare_all(input: &[u8])
    requires { length input.now ≤ 65536 }
{
    let mut number: u64 = 0;
    let mut at: usize = 0;
    // A `while`: it goes on by two records, as long as they are there.
    while 66 <= input.len() - at {
        let Next::Whole(request, _) = records::next_record(input, at) else {
            return;
        };
        let Next::Whole(published, _) = records::next_record(input, at + 33) else {
            return;
        };
        let ours = answer_to(request, published.operation);
        print_result(number, arith::abs(ours - published.c) <= published.cv);
        number = number + 1;
        at = at + 66;
    }
}

fn main() {
    let mut input = io::large_buffer();
    let got = io::read_full(INPUT, &mut input);
    compare_all(&input[..got]);
}
