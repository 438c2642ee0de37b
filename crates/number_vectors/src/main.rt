// Runs spellings of numbers through the reader and the writer. Each line of standard input is one try: some bytes, each as two
// hexadecimal digits. For each line it prints the numbers that the reader finds there one after the other: the value, the place after it,
// and the bytes that the writer makes of it. Where the reader refuses, the kit's number for that, 1 or 2, ends the line.
#![tactic(auto)]

ghost use Rattle.std.specs.Prelude.{◌≡◌, ◌≤◌, length, take};
ghost use Rattle.number.specs.Number.{number_at};
ghost use Rattle.number_vectors.specs.Tries.{place_after};

use number::{Fault, Found};
use std::io;

fn main(rt: HostRuntime) -> io::Result<()> {
    let mut text = [0u8; 4096];
    let n = stream::read_full(&mut rt.stdin(), &mut text)?;
    try_lines(&rt, &text[..n])
}

// The last line needs no line end.
fn try_lines(rt: &impl Print, text: &[u8]) -> io::Result<()> {
    for line in text.split_inclusive(|c| *c == b'\n') {
        try_line(rt, line.strip_suffix(b"\n").unwrap_or(line))?;
    }
    Ok(())
}

// Tries the bytes of a line, at most 32.
fn try_line(rt: &impl Print, hex: &[u8]) -> io::Result<()> {
    let mut bytes = [0u8; 32];
    let count = unhex(hex, &mut bytes);
    try_bytes(rt, &bytes[..count])
}

// Puts the bytes that hexadecimal digits spell, two for each, at the start of out, and answers how many there are. What is no digit is
// passed over.
fn unhex(hex: &[u8], out: &mut [u8]) -> usize
    ensures within { result ≤ length out.new }
    ensures prefix { result ≡ length (take result out.new) }
{
    let size = out.len();
    let mut digits = hex.iter().filter_map(|c| char::from(*c).to_digit(16));
    for (i, byte) in out.iter_mut().enumerate() {
        let (Some(high), Some(low)) = (digits.next(), digits.next()) else {
            return i;
        };
        *byte = (16 * high + low) as u8;
    }
    size
}

// Reads the bytes to their end or to the first fault; no bytes are one fault. A loop by places: where a number ends is known once it is read.
#[tactic(auto, using(crate::proofs::Forward::forward))]
fn try_bytes(rt: &impl Print, bytes: &[u8]) -> io::Result<()> {
    let mut at = 0;
    loop {
        let (next, printed) = try_place(rt, bytes, at);
        printed?;
        at = next;
        if bytes.len() <= at {
            return rt.write_all(b"\n");
        }
        rt.write_all(b", ")?;
    }
}

// Prints what stands at a place, and answers where to go on, and whether it was printed.
fn try_place(rt: &impl Print, bytes: &[u8], at: usize) -> (usize, io::Result<()>)
    ensures { result.0 ≡ place_after (length bytes.now) (number_at bytes.now at) }
{
    let found = number::read_number(bytes, at);
    (place_after(found, bytes.len()), print_found(rt, found))
}

// Where to go on: after the number that was read, or at the end after a fault.
fn place_after(found: Result<Found, Fault>, end: usize) -> usize
    ensures { result ≡ place_after end found }
{
    found.map_or(end, |found| found.next)
}

fn print_found(rt: &impl Print, found: Result<Found, Fault>) -> io::Result<()> {
    match found {
        Ok(found) => print_number(rt, found),
        Err(Fault::Cut) => rt.write_all(b"1"),
        Err(Fault::Bad) => rt.write_all(b"2"),
    }
}

fn print_number(rt: &impl Print, found: Found) -> io::Result<()> {
    let Found { value, next } = found;
    print!(rt; "{value} {next} =")?;
    let mut out = [0u8; 5];
    match number::write_number(&mut out, 0, value) {
        Some(size) => print_bytes(rt, &out[..size]),
        None => rt.write_all(b" no room"),
    }
}

fn print_bytes(rt: &impl Print, bytes: &[u8]) -> io::Result<()> {
    for byte in bytes {
        print!(rt; " {byte:02x}")?;
    }
    Ok(())
}
