// Reads records from standard input and writes their lines to standard output, as document 01 has
// them, each as soon as it has arrived. `reading` has the loop, and `stream` what the lines are.
#![tactic(auto)]

use std::env::{Env, FillError};

// The descriptor of the error output.
const ERRORS: i32 = 2;

// Answers standard input to its end, or to where the stream is refused.
fn answer_input(rt: &HostRuntime) {
    let mut input = io::large_buffer();
    let mut out = io::large_buffer();
    reading::answer_all(&mut rt.stdin(), &mut rt.stdout(), &mut input, &mut out);
}

// The program has no arguments. Whoever gives it some expects another program, and would wait for it
// in vain where standard input is a terminal.
fn print_usage() {
    io::write_all(
        ERRORS,
        b"usage: spheroidal < records > lines\n\
        It takes no arguments. Standard input has records of 33 bytes: the mark 53 57 (hexadecimal), the\n\
        operation (one byte), m, n and the allowance (two bytes each), then c, cv and x as doubles, all\n\
        little-endian; or of 35 bytes: the mark 53 56, and an allowance of four bytes. Each is answered\n\
        as soon as it has arrived. Operations: 1 and 2 rows, 3 and 4 angular, 5 radial, 6 and 7 DLMF rows,\n\
        8 first kind. The lines and their refusals are told in docs/SPECIFICATION.md.\n",
    );
}

// Whether there is an argument after the program's name. It is not read, so its buffer has no room.
fn has_argument(rt: &HostRuntime) -> bool {
    !matches!(rt.arg(1, &mut []), Err(FillError::NotPresent))
}

fn main(rt: HostRuntime) {
    if has_argument(&rt) {
        print_usage();
        return;
    }
    answer_input(&rt);
}
