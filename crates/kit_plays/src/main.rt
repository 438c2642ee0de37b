// Plays the kits of a text. A line that starts with # is a title, and is printed as it stands. The other lines have a kit's bytes, each as
// two hexadecimal digits; an empty line ends the kit, and its play is printed, with an empty line after it.
#![tactic(auto)]

ghost use Rattle.std.specs.Prelude.{◌≡◌, None};
ghost use Rattle.text.specs.Page.{Puts};
ghost use Rattle.kit_plays.specs.Hex.{digit_of, hex_from};

use std::io;
use text::Page;

fn main(rt: HostRuntime) -> io::Result<()> {
    let mut text = [0u8; 65536];
    let n = stream::read_full(&mut rt.stdin(), &mut text)?;
    play_kits(&rt, &text[..n])
}

// Takes the lines one by one, each with its line end; the last kit needs no empty line.
fn play_kits(rt: &impl Print, text: &[u8]) -> io::Result<()> {
    let mut bytes = [0u8; 8192];
    let mut kit = Page {
        out: &mut bytes,
        at: 0,
    };
    for line in text.split_inclusive(|c| *c == b'\n') {
        if let Some(line) = line.strip_suffix(b"\n") {
            take_line(rt, line, &mut kit)?;
        }
    }
    play_kit(rt, &kit)
}

// What a line does to the kit so far.
fn take_line(rt: &impl Print, line: &[u8], kit: &mut Page) -> io::Result<()> {
    match line.first() {
        None => {
            play_kit(rt, kit)?;
            kit.at = 0;
            Ok(())
        }
        Some(b'#') => {
            rt.write_all(line)?;
            rt.write_all(b"\n")
        }
        Some(_) => {
            put_hex(kit, line);
            Ok(())
        }
    }
}

// Prints the play of a kit, if it has bytes.
fn play_kit(rt: &impl Print, kit: &Page) -> io::Result<()> {
    match kit.out.get(..kit.at) {
        None | Some([]) => Ok(()),
        Some(bytes) => {
            let mut out = [0u8; 131072];
            let end = play_text::printed_play(bytes, &mut out);
            rt.write_all(&out[..end])?;
            rt.write_all(b"\n")
        }
    }
}

// ---- hexadecimal digits

// A digit's value: 0 to 9 and A to F are digits.
#[tactic(auto, unfolding(crate::specs::Hex::digit_of))]
fn digit(c: u8) -> Option<u8>
    ensures { result ≡ digit_of c }
{
    match c {
        b'0'..=b'9' => Some(c - b'0'),
        b'A'..=b'F' => Some(c - b'A' + 10),
        _ => None,
    }
}

// Puts the bytes that digits spell, two for each. What is no digit is passed over.
fn put_hex(page: &mut Page, hex: &[u8])
    ensures { Puts page.old (hex_from None hex.now) page.new }
{
    let mut waiting = None;
    for c in hex {
        let Some(digit) = digit(*c) else {
            continue;
        };
        match waiting {
            None => waiting = Some(digit),
            Some(high) => {
                page.put_byte(16 * high + digit);
                waiting = None;
            }
        }
    }
}
