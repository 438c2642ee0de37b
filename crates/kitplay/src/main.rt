// The program: a kit on standard input, its printed play on standard output.
#![tactic(auto)]

use std::io;

// One byte more than a kit may have is read, so that a longer one is known as such, and the play is written at once. The buffer is long
// enough for every play. Of at most 4,096 events each has a line of at most 22 bytes: four digits, a space, a clock below 4,096 times 2^28,
// which has 13 digits, a space, two digits, the line's end. Of at most seven replicas each has a line of at most 736: `replica`, a space and
// a digit, a space and a condition of at most seven letters, a space and two digits, a space and ten digits, 64 times a space and ten
// digits, the line's end. The late tick has a line of at most 19 bytes. Together these are 95,283.
fn main(rt: HostRuntime) -> io::Result<()> {
    let mut bytes = [0u8; 65537];
    let n = stream::read_full(&mut rt.stdin(), &mut bytes)?;
    let mut out = [0u8; 131072];
    let end = play_text::printed_input(&bytes[..n], &mut out);
    rt.write_all(&out[..end])
}
