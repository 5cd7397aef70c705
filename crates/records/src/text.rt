// Text into the caller's slice. Each function puts its text at a place and answers the place after
// it; the caller sees to it that the text fits. No other byte of the slice changes. Places and no
// writer: text is put into fixed memory, and that it fits is proved.
ghost use Rattle.std.specs.Prelude.{◌≡◌, [], ◌∷◌, ◌+◌, ◌/◌, ◌%◌, ◌<◌, ◌≤◌, length};
ghost use Rattle.records.specs.Text.{Put, digit, decimal, hexadecimal};

// The ASCII code of a digit.
fn digit(d: u64) -> u8
    requires { d < 16 }
    ensures { result ≡ digit d }
{
    if d < 10 {
        b'0' + d as u8
    } else {
        b'a' + (d - 10) as u8
    }
}

// One byte.
pub(crate) fn byte(out: &mut [u8], at: usize, b: u8) -> usize
    requires { at < length out.old }
    ensures { Put out.old out.new at result (b ∷ []) }
{
    out[at] = b;
    at + 1
}

// The two decimal digits of a number below 100.
fn two_digits(out: &mut [u8], at: usize, n: u64) -> usize
    requires { (n < 100) × (at + 2 ≤ length out.old) }
    ensures { Put out.old out.new at result (digit (n / 10) ∷ digit (n % 10) ∷ []) }
{
    let last = byte(out, at, digit(n / 10));
    byte(out, last, digit(n % 10))
}

// A number in decimal. It calls itself for the digits before the last two, at most 9 calls deep.
pub(crate) fn decimal(out: &mut [u8], at: usize, n: u64) -> usize
    requires { at + length (decimal n) ≤ length out.old }
    ensures { Put out.old out.new at result (decimal n) }
{
    if n < 10 {
        return byte(out, at, digit(n));
    }
    if n < 100 {
        return two_digits(out, at, n);
    }
    let front = decimal(out, at, n / 100);
    two_digits(out, front, n % 100)
}

// A number as 16 hexadecimal digits, the last one put first.
pub(crate) fn hexadecimal(out: &mut [u8], at: usize, n: u64) -> usize
    requires { at + 16 ≤ length out.old }
    ensures put { Put out.old out.new at result (hexadecimal 16 n) }
    ensures value { result ≡ at + 16 }
{
    let mut rest = n;
    for i in (0..16).rev() {
        let p = at + i;
        out[p] = digit(rest % 16);
        rest /= 16;
    }
    at + 16
}
