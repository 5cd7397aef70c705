// A test program: the record program with the least room. Its buffer holds one record of the longer
// kind, so that the loop of `reading` takes a reading for nearly every record, and many records lie
// across two. `tests/replay/run` writes the records and the oracle's lines.
#![tactic(auto)]

fn main(rt: HostRuntime) {
    let mut input: [u8; records::LONGEST] = arith::filled(0);
    let mut out: [u8; stream::LONGEST] = arith::filled(0);
    reading::answer_all(&mut rt.stdin(), &mut rt.stdout(), &mut input, &mut out);
}
