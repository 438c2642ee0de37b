// A kit as a lent slice of its numbers: written as bytes, and read back.
ghost use Rattle.std.specs.Prelude.{◌≡◌, ◌≤◌, leb, length};
ghost use Rattle.grammar.specs.Parser.{kit_answer};
ghost use Rattle.kit.specs.Spelling.{spellings};
ghost use Rattle.kit.specs.Reader.{numbers_in};
ghost use Rattle.kit.specs.Writer.{KitWritten, KitRead, Put};

use grammar::{Judge, Progress};
use terms::KitRefusal;

// What is said of a kit that is given as its numbers.
#[tactic(auto, using(crate::proofs::Writing::hearing_first))]
pub fn check_numbers(numbers: &[u32]) -> Result<(), KitRefusal>
    ensures { result ≡ kit_answer numbers.now }
{
    let mut judge = Judge::new();
    for (i, &n) in numbers.iter().enumerate() {
        match judge.feed(n)? {
            Progress::More => {}
            Progress::Done if i + 1 < numbers.len() => return Err(KitRefusal::Excess),
            Progress::Done => return Ok(()),
        }
    }
    Err(KitRefusal::Cut)
}

// Whether the numbers' spellings have room.
fn has_room(numbers: &[u32], room: usize) -> bool
    ensures { result ≡ leb (length (spellings numbers.now)) room }
{
    let mut left = room;
    for &n in numbers {
        let size = number::spelling_length(n);
        if size > left {
            return false;
        }
        left -= size;
    }
    true
}

// Writes the numbers' spellings, where they have room. Gives the place after them.
fn put(numbers: &[u32], out: &mut [u8]) -> usize
    requires { length (spellings numbers.now) ≤ length out.old }
    ensures { Put numbers.now out.old out.new result }
{
    let mut at = 0;
    for &n in numbers {
        match number::write_number(out, at, n) {
            Some(next) => at = next,
            None => return at,
        }
    }
    at
}

// Writes a kit, and gives how many bytes it has. All its numbers are judged first, as a reader would, then the room; nothing is written
// before that.
#[tactic(auto, unfolding(crate::specs::Writer::write_of))]
pub fn write_kit(numbers: &[u32], out: &mut [u8]) -> Result<usize, KitRefusal>
    ensures { KitWritten numbers.now out.old out.new result }
{
    check_numbers(numbers)?;
    if !has_room(numbers, out.len()) {
        return Err(KitRefusal::NoRoom);
    }
    Ok(put(numbers, out))
}

// How many numbers can be read from the first byte on.
// The new form is no plainer: a number's place is known only once the one before it is read.
fn count_numbers(bytes: &[u8]) -> usize
    ensures { result ≡ length (numbers_in bytes.now).list }
{
    let mut count = 0;
    let mut at = 0;
    while let Ok(found) = number::read_number(bytes, at) {
        at = found.next;
        count += 1;
    }
    count
}

// Reads a kit back as its numbers, and gives how many there are. The bytes are judged first, then the room; nothing is filled in before that.
#[tactic(auto, using(crate::proofs::Writing::stretch_numbers), unfolding(crate::specs::Writer::read_of))]
pub fn read_kit(bytes: &[u8], numbers: &mut [u32]) -> Result<usize, KitRefusal>
    ensures { KitRead bytes.now numbers.old numbers.new result }
{
    crate::check(bytes)?;
    let count = count_numbers(bytes);
    if count > numbers.len() {
        return Err(KitRefusal::NoRoom);
    }
    crate::take_into(bytes, 0, &mut numbers[..count]);
    Ok(count)
}
