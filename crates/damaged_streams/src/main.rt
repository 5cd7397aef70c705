// A test program: answers many streams, damaged ones among them. Standard input has them one after
// another, each after its length in two bytes, little-endian. Before a stream's lines comes a line
// `S` with its number. Each stream arrives byte by byte, so that every record is seen cut at every
// byte. `tests/replay/run` writes the streams and the oracle's lines.
#![tactic(auto)]

ghost use Rattle.std.specs.Prelude.{◌≡◌, ◌+◌, ◌<◌, ◌≤◌, length};
ghost use Rattle.stream.specs.Inside.Calls.{longest};

// The descriptor of standard input.
const INPUT: i32 = 0;

// And that of standard output.
const OUTPUT: i32 = 1;

fn print_number(number: u64) {
    io::write_all(OUTPUT, b"S ");
    io::print_decimal(OUTPUT, number);
    io::write_all(OUTPUT, b"\n");
}

fn answer_stream(input: &[u8], out: &mut [u8])
    requires { (length out.old ≡ longest) × (length input.now ≤ 65536) }
    ensures { length out.new ≡ length out.old }
{
    let mut index: u64 = 0;
    let mut at: usize = 0;
    for i in 0..input.len() {
        let progress = stream::answer_some(&input[..i + 1], at, index, out);
        io::write_all(OUTPUT, &out[..progress.used]);
        if progress.refused {
            return;
        }
        index = progress.index;
        at = progress.at;
    }
    let used = stream::answer_end(input, at, index, out);
    io::write_all(OUTPUT, &out[..used]);
}

// Ends at a stream that is not whole.
fn answer_streams(input: &[u8], out: &mut [u8])
    requires { (length out.old ≡ longest) × (length input.now ≤ 65536) }
{
    let mut number: u64 = 0;
    let mut at: usize = 0;
    // A `while`: the lengths in the input tell how many streams they are.
    while 2 <= input.len() - at {
        let length = u16::from_le_bytes([input[at], input[at + 1]]) as usize;
        let start = at + 2;
        if input.len() - start < length {
            return;
        }
        at = start + length;
        print_number(number);
        answer_stream(&input[start..at], out);
        number = number + 1;
    }
}

fn main() {
    let mut input = io::large_buffer();
    // The least room in which a record is answered: where the program answers many records in a call,
    // this one needs a call for nearly each.
    let mut out: [u8; stream::LONGEST] = arith::filled(0);
    let got = io::read_full(INPUT, &mut input);
    answer_streams(&input[..got], &mut out);
}
