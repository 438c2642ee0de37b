// The first events of a kit, played from a fresh room, and what they came to as text: the play, or the room. What no longer fits into the
// lent buffer is left out, and the page's place is then the buffer's end: a text that ends before it is whole.

#![tactic(auto)]

ghost use Rattle.text.specs.Page.{Puts};
ghost use Rattle.played.specs.Views.{view_text};

use kit::Settings;
use ledger::Book;
use room::Log;
use terms::{EVENTS, HISTORIES, History, REQUESTS, Submissions};
use text::Page;

// What is put of a play: the lines of its events, replicas and late tick; or the room that it came to.
// An enum and a `match`: a trait with a type for each view proves too, but is no plainer, since each would list the eight parts again.
#[derive(Clone, Copy)]
pub enum View {
    Play,
    Room,
}

// ---- the text

// The first n events of a kit with these settings, in one of the two views.
pub fn put_played(page: &mut Page, bytes: &[u8], settings: &Settings, n: usize, view: View)
    ensures { Puts page.old (view_text view bytes.now settings.now n) page.new }
{
    let roles = player::opening::roles_of(settings);
    let mut log = Log {
        answers: [0; EVENTS],
        clocks: [0; EVENTS],
    };
    let mut submissions = Submissions {
        requests: [0; REQUESTS],
        ticks: [0; REQUESTS],
    };
    let none = History {
        j: 0,
        k: 0,
        count: 0,
        list: [0; REQUESTS],
    };
    let mut histories = [none; HISTORIES];
    let mut book = Book::fresh();
    let played = player::play(
        bytes,
        settings,
        n,
        &mut log,
        &mut submissions,
        &mut histories,
        &mut book,
    );
    match view {
        View::Play => play_lines::put_play(page, &log, n, &played, &roles, &histories, &book),
        View::Room => room_lines::put_room(
            page,
            &log,
            n,
            &played,
            &roles,
            &submissions,
            &histories,
            &book,
        ),
    }
}
