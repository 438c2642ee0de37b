// The program: a kit on standard input, and as its first argument how many events are played; the room after them on standard output.
#![tactic(auto)]

ghost use Rattle.std.specs.Prelude.{◌≤◌, length, IfSome};

use std::env::{Env, FillError};
use std::io;

// One byte more than a kit may have is read, so that a longer one is known as such, and the room is written at once. An argument that is
// longer than its buffer reads as an empty one, which is no number. The buffer of the room is long enough for every one. The first line has
// at most 60 bytes. A submission has at most 25: a space, ten digits, `@`, a tick of 13 digits; with `submitted` and the line's end 64 of
// them are 1,610. Of eight histories each has at most 720: `history`, a digit, j and k of two digits, 64 requests of ten digits with what
// stands between them. Of 21 counters each has at most 2,316: `counter`, replica, name, and 96 times a space, a digit and two numbers of
// ten digits with two colons. Of seven replicas each has at most 2,341: three lists of 64 requests, 21 accepted values of two digits, and
// words. Together these are 72,453.
fn main(rt: HostRuntime) -> io::Result<()> {
    let mut word = [0u8; 4095];
    let length = first_argument(&rt, &mut word);
    let asked = length.map(|length| &word[..length]);
    let mut bytes = [0u8; 65537];
    let n = stream::read_full(&mut rt.stdin(), &mut bytes)?;
    let mut out = [0u8; 131072];
    let end = room_text::room_input(&bytes[..n], asked, &mut out);
    rt.write_all(&out[..end])
}

// How many bytes of the first argument stand at the start of `word`: none where it is longer than that. `None` where there is no argument.
fn first_argument(rt: &impl Env, word: &mut [u8]) -> Option<usize>
    ensures { IfSome result (λ n. n ≤ length word.new) }
{
    match rt.arg(1, word) {
        Ok(length) => Some(length),
        Err(FillError::TooLong) => Some(0),
        Err(FillError::NotPresent) => None,
    }
}
