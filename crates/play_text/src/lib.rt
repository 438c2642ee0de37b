// The printed play of a kit's bytes, in a lent buffer. What no longer fits is left out, and the place that is given back is then the
// buffer's end: a text that ends before it is whole.

#![tactic(auto)]

ghost use Rattle.text.specs.Text.{Lays};
ghost use Rattle.text.specs.Page.{Puts};
ghost use Rattle.play_lines.specs.Whole.{Counts};
ghost use Rattle.play_text.specs.Printed.{printed_text, program_text};

use played::View;
use terms::KitRefusal;
use text::Page;

// Bytes that the program reads.
pub const BYTES_MAX: usize = 65536;

// The printed play of these bytes: `kit` and its number where they are refused.
fn put_printed(page: &mut Page, bytes: &[u8])
    ensures { Puts page.old (printed_text bytes.now) page.new }
{
    match kit::check(bytes) {
        Ok(()) => {
            let settings = kit::open(bytes);
            played::put_played(page, bytes, &settings, settings.count, View::Play);
        }
        Err(refusal) => play_lines::put_kit(page, u32::from(refusal)),
    }
}

// What the program prints of its input: more bytes than it reads are refused before anything else.
fn put_input(page: &mut Page, bytes: &[u8])
    ensures { Puts page.old (program_text bytes.now) page.new }
{
    if BYTES_MAX < bytes.len() {
        return play_lines::put_kit(page, u32::from(KitRefusal::TooLong));
    }
    put_printed(page, bytes);
}

// The printed play of these bytes, from the buffer's start.
pub fn printed_play(bytes: &[u8], out: &mut [u8]) -> usize
    ensures lays { Lays out.old 0 (printed_text bytes.now) result out.new }
    ensures counts { Counts result out.new }
{
    let mut page = Page { out, at: 0 };
    put_printed(&mut page, bytes);
    page.at
}

// What the program prints of its input, from the buffer's start.
pub fn printed_input(bytes: &[u8], out: &mut [u8]) -> usize
    ensures lays { Lays out.old 0 (program_text bytes.now) result out.new }
    ensures counts { Counts result out.new }
{
    let mut page = Page { out, at: 0 };
    put_input(&mut page, bytes);
    page.at
}
