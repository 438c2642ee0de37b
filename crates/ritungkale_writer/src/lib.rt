// The library as C and Rust call it, to write a kit and to read its numbers back, on lent slices, each a pointer and a length to them. It
// stands apart from `ritungkale_player`: of two callers of the judge the compiler makes a call for every number, and reading would take half as long again.
#![tactic(auto)]

ghost use Rattle.std.specs.Prelude.{◌≡◌, ◌<◌, ◌^◌, IfOk};
ghost use Rattle.ritungkale_writer.specs.Packed.{packed, PackedWrite, PackedRead};

use terms::KitRefusal;

// How many places were filled in and the kit number, in one number. A kit is far shorter than what is asked here.
fn pack(outcome: Result<usize, KitRefusal>) -> u64
    requires { IfOk outcome (λ count. count < 2 ^ 32) }
    ensures { result ≡ packed outcome }
{
    match outcome {
        Ok(count) => 16 * count as u64,
        Err(refusal) => u64::from(u32::from(refusal)),
    }
}

// Writes a kit that is given as its numbers. Gives 16 times the bytes that were filled in, plus the kit number.
#[unsafe(no_mangle)]
pub extern "C" fn ritungkale_write_kit(numbers: &[u32], out: &mut [u8]) -> u64
    ensures { PackedWrite numbers.now out.old out.new result }
{
    pack(kit::writer::write_kit(numbers, out))
}

// Reads a kit's numbers. Gives 16 times the numbers that were filled in, plus the kit number.
#[unsafe(no_mangle)]
pub extern "C" fn ritungkale_read_kit(bytes: &[u8], numbers: &mut [u32]) -> u64
    ensures { PackedRead bytes.now numbers.old numbers.new result }
{
    pack(kit::writer::read_kit(bytes, numbers))
}
