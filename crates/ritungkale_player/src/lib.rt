// The library as C and Rust call it, to read and to play: a handful of functions on lent slices, each a pointer and a length to them. None
// asks anything of its caller but that memory is lent as C's and Rust's own rules say. Writing a kit and reading its numbers: crate `ritungkale_writer`.
#![tactic(auto)]

ghost use Rattle.std.specs.Prelude.{◌≡◌};
ghost use Rattle.terms.specs.Numbers.{kit_number_of};
ghost use Rattle.kit.specs.Reader.{check_of};
ghost use Rattle.text.specs.Text.{Lays};
ghost use Rattle.play_lines.specs.Whole.{Counts};
ghost use Rattle.play_text.specs.Printed.{printed_text};
ghost use Rattle.room_text.specs.RoomPrinted.{printed_room};

// The kit number of any bytes, 0 to 5.
#[unsafe(no_mangle)]
pub extern "C" fn ritungkale_kit_number(bytes: &[u8]) -> u32
    ensures { result ≡ kit_number_of (check_of bytes.now) }
{
    let answer = kit::check(bytes);
    terms::number_of_kit(answer)
}

// The printed play of any bytes, of which as much is put as the buffer has room for. Gives how many bytes were put.
#[unsafe(no_mangle)]
pub extern "C" fn ritungkale_play_text(bytes: &[u8], out: &mut [u8]) -> usize
    ensures lays { Lays out.old 0 (printed_text bytes.now) result out.new }
    ensures counts { Counts result out.new }
{
    play_text::printed_play(bytes, out)
}

// The same for the printed room after the first n events.
#[unsafe(no_mangle)]
pub extern "C" fn ritungkale_room_text(bytes: &[u8], n: usize, out: &mut [u8]) -> usize
    ensures lays { Lays out.old 0 (printed_room bytes.now n) result out.new }
    ensures counts { Counts result out.new }
{
    room_text::printed_room(bytes, n, out)
}
