// Prints the kit number of each file that its arguments name, and the name.
#![tactic(auto)]

use std::env::{Env, FillError};
use std::rt::Files;
use std::{fs, io};

// An argument that is longer than its buffer reads as an empty one, which names no file. The arguments are read by their numbers, since std's
// iterator over them allocates, and the project has no heap.
fn main(rt: HostRuntime) -> io::Result<()> {
    let mut word = [0u8; 4095];
    for i in 1..usize::MAX {
        match rt.arg(i, &mut word) {
            Ok(length) => judge_named(&rt, &word[..length])?,
            Err(FillError::TooLong) => judge_named(&rt, b"")?,
            Err(FillError::NotPresent) => return Ok(()),
        }
    }
    Ok(())
}

// Files are opened by names in UTF-8 alone.
fn judge_named(rt: &(impl Files + Print + Eprint), name: &[u8]) -> io::Result<()> {
    match str::from_utf8(name) {
        Ok(name) => judge_file(rt, name),
        Err(_) => eprintln!(rt; "a file's name is not UTF-8"),
    }
}

// The kits here are shorter than the buffer.
fn judge_file(rt: &(impl Files + Print + Eprint), name: &str) -> io::Result<()> {
    let mut file = match fs::open(rt, name) {
        Ok(file) => file,
        Err(error) => return eprintln!(rt; "{name}: {error}"),
    };
    let mut bytes = [0u8; 4096];
    let n = stream::read_full(&mut file, &mut bytes)?;
    let number = terms::number_of_kit(kit::check(&bytes[..n]));
    println!(rt; "{number} {name}")
}
