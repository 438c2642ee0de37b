// Asks `terms::holds` what a text asks. A line that starts with # is a title, and is printed as it stands. A line that starts with `list`
// has the list of the questions after it, at most 64 requests; every place behind them is 0. Any other line is a question, a count and a
// request: whether the first so many of the list hold it. It is printed with its answer, yes or no. Numbers are decimal.
#![tactic(auto)]

use std::io;

fn main(rt: HostRuntime) -> io::Result<()> {
    let mut text = [0u8; 65536];
    let n = stream::read_full(&mut rt.stdin(), &mut text)?;
    take_lines(&rt, &text[..n])
}

// Takes the lines one by one; each ends with its line end.
fn take_lines(rt: &impl Print, text: &[u8]) -> io::Result<()> {
    let mut list = [0u32; 64];
    for line in text.split_inclusive(|c| *c == b'\n') {
        if let Some(line) = line.strip_suffix(b"\n") {
            take_line(rt, line, &mut list)?;
        }
    }
    Ok(())
}

// What a line does.
fn take_line(rt: &impl Print, line: &[u8], list: &mut [u32; 64]) -> io::Result<()> {
    match line.first() {
        None => rt.write_all(b"\n"),
        Some(b'#') => {
            rt.write_all(line)?;
            rt.write_all(b"\n")
        }
        Some(b'l') => {
            fill(list, line);
            Ok(())
        }
        Some(_) => ask(rt, list, line),
    }
}

// The list is the numbers of a line.
fn fill(list: &mut [u32; 64], line: &[u8]) {
    let mut numbers = [0usize; 64];
    read_decimals(line, &mut numbers);
    *list = numbers.map(request_of);
}

// Prints a question with its answer.
fn ask(rt: &impl Print, list: &[u32; 64], line: &[u8]) -> io::Result<()> {
    let mut numbers = [0usize; 2];
    read_decimals(line, &mut numbers);
    let [count, number] = numbers;
    let request = request_of(number);
    let answer = if terms::holds(terms::first(list, count), request) {
        "yes"
    } else {
        "no"
    };
    println!(rt; "{count} {request} {answer}")
}

// ---- decimal numbers

// The numbers of a line, as many as have room, and 0 behind them.
fn read_decimals(line: &[u8], numbers: &mut [usize]) {
    let mut words = line
        .split(|c| !c.is_ascii_digit())
        .filter(|word| !word.is_empty());
    for number in numbers {
        *number = words.next().map_or(0, decimal);
    }
}

// What digits make.
fn decimal(digits: &[u8]) -> usize {
    digits
        .iter()
        .filter_map(|c| char::from(*c).to_digit(10))
        .fold(0, with_digit)
}

// A number with one digit more; a digit that would make it 2^64 or more is left out.
fn with_digit(number: usize, d: u32) -> usize {
    let tens = number.checked_mul(10);
    tens.and_then(|tens| tens.checked_add(d as usize))
        .unwrap_or(number)
}

// A number as a request, 2^32-1 where it is larger.
fn request_of(n: usize) -> u32 {
    u32::try_from(n).unwrap_or(u32::MAX)
}
