// A kit's numbers: groups of seven bits, the lowest first, the top bit set on every group but the last.
// At most five groups, the value below 2^32, the shortest form only.
#![tactic(auto)]

ghost use Rattle.std.specs.Prelude.{◌≡◌, ◌+◌, ◌*◌, ◌%◌, ◌^◌, ◌<◌, ◌≤◌, length, drop, ltb};
ghost use Rattle.number.specs.Number.{number_at, spelling, over, Written};
ghost use Rattle.number.specs.Groups.{number_in, under};

// A number that some bytes say at a place, and the place after it.
#[derive(Clone, Copy)]
pub struct Found {
    pub value: u32,
    pub next: usize,
}

// Why they say none there.
#[derive(Clone, Copy, Debug, PartialEq, Eq)]
pub enum Fault {
    // The bytes end too soon.
    Cut,
    // More than five groups, 2^32 or more, or not the shortest form.
    Bad,
}

// The number that some bytes say at a place; a place past their end is where they end too soon. Slice and place, no shrinking slice: what is
// promised speaks of places past the end too (`number_at`).
#[tactic(auto, using(crate::proofs::NumberLaws::past_end, crate::proofs::Reading::first_alone, crate::proofs::Reading::first_more))]
pub fn read_number(bytes: &[u8], at: usize) -> Result<Found, Fault>
    ensures { result ≡ number_at bytes.now at }
{
    let b = *bytes.get(at).ok_or(Fault::Cut)?;
    if is_last(b) {
        return Ok(Found {
            value: group(b),
            next: at + 1,
        });
    }
    later(bytes, at + 1, group(b))
}

// The second to the fifth group, over the bits of a first one that goes on. Each group adds its bits above those before it.
// A byte 00 is a last group that is not the only one, so the form is not the shortest.
fn later(bytes: &[u8], at: usize, first: u32) -> Result<Found, Fault>
    requires { first < 128 }
    ensures { result ≡ under 128 first (number_in 3 at (drop at bytes.now)) }
{
    let mut bits = first;
    let mut next = at;
    for shift in [7u32, 14, 21] {
        let b = *bytes.get(next).ok_or(Fault::Cut)?;
        if b == 0 {
            return Err(Fault::Bad);
        }
        next += 1;
        bits = joined(bits, group(b), shift);
        if is_last(b) {
            return Ok(Found { value: bits, next });
        }
    }
    fifth(bytes, next, bits)
}

// The fifth group, which has the four bits that 2^32 leaves it: a byte above 0F decides at once.
fn fifth(bytes: &[u8], at: usize, bits: u32) -> Result<Found, Fault>
    requires { bits < 2 ^ 28 }
    ensures { result ≡ under (2 ^ 28) bits (number_in 0 at (drop at bytes.now)) }
{
    let top = *bytes.get(at).ok_or(Fault::Cut)?;
    if top == 0 || top > 0x0f {
        return Err(Fault::Bad);
    }
    Ok(Found {
        value: joined(bits, group(top), 28),
        next: at + 1,
    })
}

// A byte's seven bits.
fn group(b: u8) -> u32
    ensures { result ≡ b % 128 }
{
    u32::from(b & 0x7f)
}

// Whether no group follows.
fn is_last(b: u8) -> bool
    ensures { result ≡ ltb b 128 }
{
    b & 0x80 == 0
}

// A group's bits above the lowest ones, which are so many as the shift.
fn joined(bits: u32, group: u32, shift: u32) -> u32
    requires bits_bound { (bits < 2 ^ shift) × (shift < 32) }
    requires shift_bound { group * 2 ^ shift < 2 ^ 32 }
    ensures { result ≡ group * 2 ^ shift + bits }
{
    bits | group << shift
}

// How many bytes a number's spelling has.
#[tactic(auto, unfolding(crate::specs::Number::spelling))]
pub fn spelling_length(n: u32) -> usize
    ensures { result ≡ length (spelling n) }
{
    match n {
        ..0x80 => 1,
        ..0x4000 => 2,
        ..0x20_0000 => 3,
        ..0x1000_0000 => 4,
        _ => 5,
    }
}

// Writes a number's spelling at a place, and no other byte, and answers the place after it; nothing where it has no room.
pub fn write_number(out: &mut [u8], at: usize, n: u32) -> Option<usize>
    ensures { Written out.old out.new at n result }
{
    let room = out.len().checked_sub(at)?;
    if room < spelling_length(n) {
        return None;
    }
    Some(put(out, at, n))
}

// Writes the spelling, for which there is room, and answers the place after it.
// The new form is no plainer: how many turns there are is seen from what is left of the number.
fn put(out: &mut [u8], at: usize, n: u32) -> usize
    requires { at + length (spelling n) ≤ length out.old }
    ensures { (result ≡ at + length (spelling n)) × (out.new ≡ over out.old at (spelling n)) }
{
    let mut left = n;
    let mut to = at;
    while left >= 0x80 {
        out[to] = going_on(left);
        left >>= 7;
        to += 1;
    }
    out[to] = left as u8;
    to + 1
}

// A number's lowest group, with the top bit set.
fn going_on(n: u32) -> u8
    ensures { result ≡ 128 + n % 128 }
{
    (n & 0x7f) as u8 | 0x80
}
