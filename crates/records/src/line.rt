// The lines that the program writes, into the caller's slice. Each function puts its line at a place
// and answers the place after it. It asks for room for the longest line of its kind. Places and no writer,
// as in `text`. A line's fields come one by one, and no struct is made to hold them: no fact is known of
// index, m and n, and each line has others beside them.
ghost use Rattle.std.specs.Prelude.{◌≡◌, ◌∷◌, ◌++◌, ◌+◌, ◌≤◌, length};
ghost use Rattle.records.specs.Text.{Put};
ghost use Rattle.records.specs.Lines.{number, double, v_line, z_line, d_line, pair_line, f_line, r_line, bits_line, bracket, pair};

use super::text;

// A space and a number.
fn number(out: &mut [u8], at: usize, n: u64) -> usize
    requires { at + length (number n) ≤ length out.old }
    ensures { Put out.old out.new at result (number n) }
{
    let a = text::byte(out, at, b' ');
    text::decimal(out, a, n)
}

// A space and a double.
fn double(out: &mut [u8], at: usize, x: f64) -> usize
    requires { at + 17 ≤ length out.old }
    ensures put { Put out.old out.new at result (double x) }
    ensures value { result ≡ at + 17 }
{
    let a = text::byte(out, at, b' ');
    text::hexadecimal(out, a, arith::to_bits(x))
}

// A line's letter and the number of its record.
fn start(out: &mut [u8], at: usize, letter: u8, index: u64) -> usize
    requires { at + 22 ≤ length out.old }
    ensures put { Put out.old out.new at result (letter ∷ number index) }
    ensures upper_bound { result ≤ at + 22 }
{
    let a = text::byte(out, at, letter);
    number(out, a, index)
}

// A value with the two ends of its bracket, and the line's end.
fn bracket(out: &mut [u8], at: usize, value: f64, lower: f64, upper: f64) -> usize
    requires { at + 52 ≤ length out.old }
    ensures put { Put out.old out.new at result (bracket value lower upper) }
    ensures value { result ≡ at + 52 }
{
    let a = double(out, at, value);
    let b = double(out, a, lower);
    let c = double(out, b, upper);
    text::byte(out, c, b'\n')
}

// The line of a mode in a row.
pub fn v_line(
    out: &mut [u8],
    at: usize,
    index: u64,
    mode: u16,
    steps: u32,
    value: f64,
    lower: f64,
    upper: f64,
) -> usize
    requires { at + 91 ≤ length out.old }
    ensures put { Put out.old out.new at result (v_line index mode steps value lower upper) }
    ensures upper_bound { result ≤ at + 91 }
{
    let a = start(out, at, b'V', index);
    let b = number(out, a, mode as u64);
    let c = number(out, b, steps as u64);
    bracket(out, c, value, lower, upper)
}

// The line after it: 1 where 1e-30 was put in for a zero pivot, else 0: a byte, as C lends them to
// a row.
pub fn z_line(out: &mut [u8], at: usize, index: u64, mode: u16, substituted: u8) -> usize
    requires { at + 33 ≤ length out.old }
    ensures put { Put out.old out.new at result (z_line index mode substituted) }
    ensures upper_bound { result ≤ at + 33 }
{
    let a = start(out, at, b'Z', index);
    let b = number(out, a, mode as u64);
    let c = number(out, b, substituted as u64);
    text::byte(out, c, b'\n')
}

// The line of a mode in a row of DLMF's form.
pub fn d_line(out: &mut [u8], at: usize, index: u64, mode: u16, value: f64) -> usize
    requires { at + 46 ≤ length out.old }
    ensures put { Put out.old out.new at result (d_line index mode value) }
    ensures upper_bound { result ≤ at + 46 }
{
    let a = start(out, at, b'D', index);
    let b = number(out, a, mode as u64);
    let c = double(out, b, value);
    text::byte(out, c, b'\n')
}

// A line's letter, the number of its record, and the mode.
fn start_of_mode(out: &mut [u8], at: usize, letter: u8, index: u64, m: u16, n: u16) -> usize
    requires { at + 34 ≤ length out.old }
    ensures put { Put out.old out.new at result (letter ∷ number index ++ number m ++ number n) }
    ensures upper_bound { result ≤ at + 34 }
{
    let a = start(out, at, letter, index);
    let b = number(out, a, m as u64);
    number(out, b, n as u64)
}

// A value and its derivative.
fn pair(out: &mut [u8], at: usize, value: f64, derivative: f64) -> usize
    requires { at + 34 ≤ length out.old }
    ensures put { Put out.old out.new at result (pair value derivative) }
    ensures value { result ≡ at + 34 }
{
    let a = double(out, at, value);
    double(out, a, derivative)
}

// The line of a mode's pair: `A` for the angular one, `G` for the first radial kind.
pub fn pair_line(
    out: &mut [u8],
    at: usize,
    letter: u8,
    index: u64,
    m: u16,
    n: u16,
    value: f64,
    derivative: f64,
) -> usize
    requires { at + 69 ≤ length out.old }
    ensures put { Put out.old out.new at result (pair_line letter index m n value derivative) }
    ensures upper_bound { result ≤ at + 69 }
{
    let a = start_of_mode(out, at, letter, index, m, n);
    let b = pair(out, a, value, derivative);
    text::byte(out, b, b'\n')
}

// The line of both radial kinds.
pub fn f_line(
    out: &mut [u8],
    at: usize,
    index: u64,
    m: u16,
    n: u16,
    value1: f64,
    derivative1: f64,
    value2: f64,
    derivative2: f64,
) -> usize
    requires { at + 103 ≤ length out.old }
    ensures put { Put out.old out.new at result (f_line index m n value1 derivative1 value2 derivative2) }
    ensures upper_bound { result ≤ at + 103 }
{
    let a = start_of_mode(out, at, b'F', index, m, n);
    let b = pair(out, a, value1, derivative1);
    let c = pair(out, b, value2, derivative2);
    text::byte(out, c, b'\n')
}

// The line of a record that is refused.
pub fn r_line(out: &mut [u8], at: usize, index: u64, refusal: u8) -> usize
    requires { at + 27 ≤ length out.old }
    ensures put { Put out.old out.new at result (r_line index refusal) }
    ensures upper_bound { result ≤ at + 27 }
{
    let a = start(out, at, b'R', index);
    let b = number(out, a, refusal as u64);
    text::byte(out, b, b'\n')
}

// The line of an entry of Card 7's table.
pub fn bits_line(out: &mut [u8], at: usize, bits: u64) -> usize
    requires { at + 17 ≤ length out.old }
    ensures put { Put out.old out.new at result (bits_line bits) }
    ensures value { result ≡ at + 17 }
{
    let a = text::hexadecimal(out, at, bits);
    text::byte(out, a, b'\n')
}
