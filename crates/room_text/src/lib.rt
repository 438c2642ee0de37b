// The room after the first events of a kit, as text in a lent buffer. What no longer fits is left out, and the place that is given back is
// then the buffer's end: a text that ends before it is whole.

#![tactic(auto)]

ghost use Rattle.std.specs.Prelude.{◌≡◌, ◌≤◌, min};
ghost use Rattle.std.specs.List.{list_all};
ghost use Rattle.std.specs.Option.{option_copied};
ghost use Rattle.text.specs.Text.{Lays};
ghost use Rattle.text.specs.Page.{Puts};
ghost use Rattle.play_lines.specs.Whole.{Counts};
ghost use Rattle.room_text.specs.Asked.{is_digit, is_number, with_digit, number_asked, asked_max};
ghost use Rattle.room_text.specs.RoomPrinted.{past_text, moment_text, printed_room, input_room, asked_room, program_room};

use kit::Settings;
use played::View;
use terms::KitRefusal;
use text::Page;

// ---- any bytes, after so many events

// The line for one who asks for more events than there are.
fn put_past(page: &mut Page, count: usize)
    ensures { Puts page.old (past_text count) page.new }
{
    page.put_word(b"the kit has");
    play_lines::put_next(page, count as u64);
    page.put_word(b" events\n");
}

// The room of an accepted kit with these settings, for any n.
fn put_moment(page: &mut Page, bytes: &[u8], settings: &Settings, n: usize)
    ensures { Puts page.old (moment_text bytes.now settings.now n) page.new }
{
    let count = settings.count;
    if count < n {
        return put_past(page, count);
    }
    played::put_played(page, bytes, settings, n, View::Room);
}

// The room of any bytes after n events: `kit` and its number where they are refused.
fn put_printed(page: &mut Page, bytes: &[u8], n: usize)
    ensures { Puts page.old (printed_room bytes.now n) page.new }
{
    match kit::check(bytes) {
        Ok(()) => put_moment(page, bytes, &kit::open(bytes), n),
        Err(refusal) => play_lines::put_kit(page, u32::from(refusal)),
    }
}

// The room of these bytes after n events, from the buffer's start.
pub fn printed_room(bytes: &[u8], n: usize, out: &mut [u8]) -> usize
    ensures lays { Lays out.old 0 (printed_room bytes.now n) result out.new }
    ensures counts { Counts result out.new }
{
    let mut page = Page { out, at: 0 };
    put_printed(&mut page, bytes, n);
    page.at
}

// ---- the number that is asked for

// Whether a word is digits, and at least one.
fn is_number(word: &[u8]) -> bool
    ensures { result ≡ is_number word.now }
{
    all_digits(word) && !word.is_empty()
}

// Whether all bytes of a word are digits.
fn all_digits(word: &[u8]) -> bool
    ensures { result ≡ list_all is_digit word.now }
{
    word.iter().all(|byte| byte.is_ascii_digit())
}

// A number with one more digit, cut off at the bound.
fn with_digit(n: usize, byte: u8) -> usize
    requires { n ≤ asked_max }
    ensures { result ≡ min (with_digit n byte) asked_max }
{
    let digit = usize::from(byte.saturating_sub(b'0'));
    (10 * n + digit).min(65536)
}

// The number that a word of digits asks for, cut off at the bound.
fn number_asked(word: &[u8]) -> usize
    ensures { result ≡ min (number_asked word.now) asked_max }
{
    let mut n = 0;
    for byte in word {
        n = with_digit(n, *byte);
    }
    n
}

// ---- the program

// The room of the program's input after n events: more bytes than it reads are refused before anything else.
fn put_input(page: &mut Page, bytes: &[u8], n: usize)
    ensures { Puts page.old (input_room bytes.now n) page.new }
{
    if play_text::BYTES_MAX < bytes.len() {
        return play_lines::put_kit(page, u32::from(KitRefusal::TooLong));
    }
    put_printed(page, bytes, n);
}

// The same after as many events as a word says; one that is no number is answered in words.
fn put_asked(page: &mut Page, bytes: &[u8], word: &[u8])
    ensures { Puts page.old (asked_room bytes.now word.now) page.new }
{
    if is_number(word) {
        return put_input(page, bytes, number_asked(word));
    }
    page.put_word(b"the argument is not a number of events\n");
}

// The same, where a word is given; else the room after the last event.
fn put_answer(page: &mut Page, bytes: &[u8], word: Option<&[u8]>)
    ensures { Puts page.old (program_room bytes.now (option_copied word.entry)) page.new }
{
    match word {
        Some(word) => put_asked(page, bytes, word),
        None => {
            let settings = kit::open(bytes);
            put_input(page, bytes, settings.count);
        }
    }
}

// What the program prints of its input and its argument, from the buffer's start; with none given, the room after the last event.
pub fn room_input(bytes: &[u8], word: Option<&[u8]>, out: &mut [u8]) -> usize
    ensures lays { Lays out.old 0 (program_room bytes.now (option_copied word.entry)) result out.new }
    ensures counts { Counts result out.new }
{
    let mut page = Page { out, at: 0 };
    put_answer(&mut page, bytes, word);
    page.at
}
