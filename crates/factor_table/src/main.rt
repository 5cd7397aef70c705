// Prints Card 7's table, the part of a before cs for m 0 to 3: in the table's order, 1,600 lines of 16
// hexadecimal digits.
#![tactic(auto)]

ghost use Rattle.std.specs.Prelude.{◌*◌, ◌≤◌, length};
ghost use Rattle.records.specs.Text.{Put};
ghost use Rattle.factor_table.specs.Printed.{bits_lines, printed};

// The descriptor of standard output.
const OUTPUT: i32 = 1;

// Puts a line for each number, from the buffer's start on, and answers where they end.
fn put_lines(numbers: &[u64], out: &mut [u8]) -> usize
    requires { 17 * length numbers.now ≤ length out.old }
    ensures { Put out.old out.new 0 result (bits_lines numbers.now (length numbers.now)) }
{
    let mut at: usize = 0;
    for number in numbers {
        at = records::bits_line(out, at, *number);
    }
    at
}

// The table's lines.
fn put_table(out: &mut [u8]) -> usize
    requires { 27200 ≤ length out.old }
    ensures { Put out.old out.new 0 result printed }
{
    put_lines(factors::table(), out)
}

// Writes them to standard output, out of the buffer.
fn print_table(out: &mut [u8])
    requires { 27200 ≤ length out.old }
{
    let used = put_table(out);
    io::write_all(OUTPUT, &out[..used]);
}

fn main() {
    let mut out = io::large_buffer();
    print_table(&mut out);
}
