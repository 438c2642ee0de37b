// The printed play: one line for each event, one for each replica, and the late tick; and the line of a refused kit. What no longer fits
// into the lent buffer is left out, and the page's place is then the buffer's end: a text that ends before it is whole.
#![tactic(auto)]

ghost use Rattle.std.specs.Prelude.{◌≡◌, List, ℕ, ◌<◌, length, get_or, min};
ghost use Rattle.terms.specs.Limits.{events_max, replicas_max};
ghost use Rattle.terms.specs.Numbers.{condition_word};
ghost use Rattle.text.specs.Page.{Puts};
ghost use Rattle.play_lines.specs.Lines.{lines_from, piece_of, spaced, event_line, replica_name, settled_line, late_text, kit_line};
ghost use Rattle.play_lines.specs.PlayLines.{event_at, replica_at, lines_of_play};

use ledger::Book;
use replica::Replicas;
use room::{Log, Played};
use terms::{Condition, EVENTS, Histories, REPLICAS, Roles};
use text::Page;

// A number after a space.
pub fn put_next(page: &mut Page, n: u64)
    ensures { Puts page.old (spaced n) page.new }
{
    page.put_byte(b' ');
    page.put_decimal(n);
}

// The line of a refused kit.
pub fn put_kit(page: &mut Page, number: u32)
    ensures { Puts page.old (kit_line number) page.new }
{
    page.put_word(b"kit");
    put_next(page, u64::from(number));
    page.put_byte(b'\n');
}

// ---- one after the other

// Pieces of a text, such as lines, that are put one after the other: one for each of so many things.
pub trait Pieces {
    ghost many: { Self → ℕ };

    ghost piece: { Self → ℕ → List ℕ };

    // How many there are.
    fn many(&self) -> usize
        ensures { result ≡ many self.now };

    // The piece of thing i, and nothing where there is none.
    fn put(&self, page: &mut Page, i: usize)
        ensures { Puts page.old (piece_of (many self.now) (piece self.now) i) page.new };
}

// All pieces, in their order.
pub fn put_all<P: Pieces>(page: &mut Page, pieces: &P)
    ensures { Puts page.old (lines_from 0 (P.many pieces.now) (P.piece pieces.now)) page.new }
{
    for i in 0..pieces.many() {
        pieces.put(page, i);
    }
}

// ---- events

// The line of an event: its number, the clock, the answer.
fn put_event(page: &mut Page, number: u64, clock: u64, answer: u64)
    ensures { Puts page.old (event_line number clock answer) page.new }
{
    page.put_decimal(number);
    put_next(page, clock);
    put_next(page, answer);
    page.put_byte(b'\n');
}

// The lines of the first n events, of 4,096 at the most.
#[derive(Clone, Copy)]
struct Events<'a> {
    log: &'a Log,
    n: usize,
}

impl<'a> Pieces for Events<'a> {
    ghost many = { λ e. min e.n events_max };

    ghost piece = { λ e. event_at e.log.now };

    fn many(&self) -> usize {
        self.n.min(EVENTS)
    }

    #[tactic(auto, using(crate::specs::LinesLaws::puts_past))]
    fn put(&self, page: &mut Page, i: usize) {
        if i < self.many() {
            let answer = u64::from(self.log.answers[i]);
            put_event(page, (i + 1) as u64, self.log.clocks[i], answer);
        }
    }
}

// ---- replicas

// A condition's word.
fn put_condition(page: &mut Page, condition: Condition)
    ensures { Puts page.old (condition_word condition) page.new }
{
    match condition {
        Condition::Running => page.put_word(b"running"),
        Condition::Halted => page.put_word(b"halted"),
        Condition::Closed => page.put_word(b"closed"),
        Condition::Faulty => page.put_word(b"faulty"),
    }
}

// The requests of a list, each after a space.
#[derive(Clone, Copy)]
struct Spaced<'a> {
    list: &'a [u32],
}

impl<'a> Pieces for Spaced<'a> {
    ghost many = { λ s. length s.list.now };

    ghost piece = { λ s i. spaced (get_or s.list.now i 0) };

    fn many(&self) -> usize {
        self.list.len()
    }

    #[tactic(auto, using(crate::specs::LinesLaws::puts_past))]
    fn put(&self, page: &mut Page, i: usize) {
        if let Some(request) = self.list.get(i) {
            put_next(page, u64::from(*request));
        }
    }
}

// A replica's number and condition.
pub fn put_name(page: &mut Page, x: usize, condition: Condition)
    ensures { Puts page.old (replica_name x condition) page.new }
{
    page.put_word(b"replica");
    put_next(page, x as u64);
    page.put_word(b" ");
    put_condition(page, condition);
}

// The line of a replica that has settled a list: number, condition, settled count, mark, settled requests.
fn put_settled(page: &mut Page, x: usize, condition: Condition, mark: u32, list: &[u32])
    ensures { Puts page.old (settled_line x condition mark list.now) page.new }
{
    put_name(page, x, condition);
    put_next(page, list.len() as u64);
    put_next(page, u64::from(mark));
    put_all(page, &Spaced { list });
    page.put_byte(b'\n');
}

// The line of replica x from its record. A faulty one has settled nothing, and its mark is shown as 0.
fn put_replica(
    page: &mut Page,
    x: usize,
    replicas: &Replicas,
    roles: &Roles,
    histories: &Histories,
    book: &Book,
)
    requires { x < replicas_max }
    ensures { Puts page.old (replica_at roles.now histories.now book.now replicas.now x) page.new }
{
    let p = &replicas[x];
    let mark = room::settled::shown(*p).mark;
    let settled = room::settled::settled_of(x, p, roles, histories, book);
    put_settled(page, x, p.condition, mark, settled);
}

// One line for each of the kit's replicas, of seven at the most.
#[derive(Clone, Copy)]
struct Lines<'a> {
    replicas: &'a Replicas,
    roles: &'a Roles,
    histories: &'a Histories,
    book: &'a Book,
}

impl<'a> Pieces for Lines<'a> {
    ghost many = { λ l. min l.roles.now.size replicas_max };

    ghost piece = { λ l. replica_at l.roles.now l.histories.now l.book.now l.replicas.now };

    fn many(&self) -> usize {
        self.roles.size.min(REPLICAS)
    }

    #[tactic(auto, using(crate::specs::LinesLaws::puts_past))]
    fn put(&self, page: &mut Page, i: usize) {
        if i < self.many() {
            put_replica(
                page,
                i,
                self.replicas,
                self.roles,
                self.histories,
                self.book,
            );
        }
    }
}

// ---- the whole

// The line of the late tick, or of none.
pub fn put_late(page: &mut Page, late: Option<u64>)
    ensures { Puts page.old (late_text late) page.new }
{
    page.put_word(b"late");
    match late {
        Some(due) => {
            put_next(page, due);
            page.put_byte(b'\n');
        }
        None => page.put_word(b" none\n"),
    }
}

// The play of the first n events: events, replicas, late tick.
pub fn put_play(
    page: &mut Page,
    log: &Log,
    n: usize,
    played: &Played,
    roles: &Roles,
    histories: &Histories,
    book: &Book,
)
    ensures { Puts page.old (lines_of_play log.now n played.now.desk played.now.replicas roles.now histories.now book.now) page.new }
{
    let replicas = &played.replicas;
    put_all(page, &Events { log, n });
    put_all(
        page,
        &Lines {
            replicas,
            roles,
            histories,
            book,
        },
    );
    put_late(page, played.desk.late);
}
