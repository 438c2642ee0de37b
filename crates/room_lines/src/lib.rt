// The room after some events as text: the event, submissions, histories, counters, replicas. What no longer fits into the lent buffer is
// left out, and the page's place is then the buffer's end: a text that ends before it is whole.
#![tactic(auto)]

ghost use Rattle.std.specs.Prelude.{◌≡◌, false, ◌<◌, [], ◌∷◌, ◌++◌, length, get_or, take, min};
ghost use Rattle.terms.specs.Limits.{counters, places_max, requests_max, histories_max, replicas_max};
ghost use Rattle.terms.specs.Lists.{pick};
ghost use Rattle.text.specs.Text.{decimal};
ghost use Rattle.text.specs.Page.{Puts};
ghost use Rattle.room_lines.specs.Pieces.{listed, clock_text, event_text, submission_text, history_text, parts_text, content_text, held_text, entry_text, entries_from, accepted_text, opening_text};
ghost use Rattle.room_lines.specs.RoomLines.{answer_in, submission_at, submitted_line, history_at, choice_text, content_at_place, counter_line, counters_at, kept_in, record_line, replica_at, lines_of_room};

use ledger::Book;
use play_lines::Pieces;
use replica::{Replica, Replicas};
use room::{Desk, Log, Played};
use terms::{
    AG, Accepted, Answers, Condition, Content, EVENTS, HISTORIES, Histories, History, NAMES,
    PLACES, REPLICAS, REQUESTS, Roles, SW, Submissions, UP,
};
use text::Page;

// ---- lists

// The numbers of a list, each after a comma.
#[derive(Clone, Copy)]
struct Commas<'a> {
    list: &'a [u32],
}

impl<'a> Pieces for Commas<'a> {
    ghost many = { λ s. length s.list.now };

    ghost piece = { λ s i. (44 ∷ []) ++ decimal (get_or s.list.now i 0) };

    fn many(&self) -> usize {
        self.list.len()
    }

    #[tactic(auto, using(play_lines::specs::LinesLaws::puts_past))]
    fn put(&self, page: &mut Page, i: usize) {
        if let Some(number) = self.list.get(i) {
            page.put_byte(b',');
            page.put_decimal(u64::from(*number));
        }
    }
}

// The numbers of a list with commas between them, "-" for none.
fn put_listed(page: &mut Page, list: &[u32])
    ensures { Puts page.old (listed list.now) page.new }
{
    match list.split_first() {
        None => page.put_byte(b'-'),
        Some((first, rest)) => {
            page.put_decimal(u64::from(*first));
            play_lines::put_all(page, &Commas { list: rest });
        }
    }
}

// A word, and the first n numbers of a list, or all where there are fewer: the arrays of a record and of a history are of fixed size, and what is
// in use is counted beside them.
fn put_part(page: &mut Page, word: &[u8], list: &[u32], n: usize)
    ensures { Puts page.old (word.now ++ listed (take n list.now)) page.new }
{
    page.put_word(word);
    put_listed(page, &list[..n.min(list.len())]);
}

// ---- the event

// The answer to event n, counted from 1; "-" where there is none.
fn put_answer(page: &mut Page, answers: &Answers, n: usize)
    ensures { Puts page.old (answer_in answers.now n) page.new }
{
    if 1 <= n && n <= EVENTS {
        page.put_decimal(u64::from(answers[n - 1]));
    } else {
        page.put_byte(b'-');
    }
}

// The number of an event, and the clock after it.
fn put_clock(page: &mut Page, n: usize, clock: u64)
    ensures { Puts page.old (clock_text n clock) page.new }
{
    page.put_word(b"event");
    play_lines::put_next(page, n as u64);
    page.put_word(b" clock");
    play_lines::put_next(page, clock);
}

// The line of the last event: its number, the clock, its answer, the late tick.
fn put_event(page: &mut Page, answers: &Answers, n: usize, desk: &Desk)
    ensures { Puts page.old (event_text n desk.now.clock (answer_in answers.now n) desk.now.late) page.new }
{
    put_clock(page, n, desk.clock);
    page.put_word(b" answer ");
    put_answer(page, answers, n);
    page.put_byte(b' ');
    play_lines::put_late(page, desk.late);
}

// ---- submissions

// A request, "@", its tick.
fn put_submission(page: &mut Page, request: u32, tick: u64)
    ensures { Puts page.old (submission_text request tick) page.new }
{
    play_lines::put_next(page, u64::from(request));
    page.put_byte(b'@');
    page.put_decimal(tick);
}

// The first n submissions, of 64 at the most.
#[derive(Clone, Copy)]
struct First<'a> {
    submissions: &'a Submissions,
    n: usize,
}

impl<'a> Pieces for First<'a> {
    ghost many = { λ s. min s.n requests_max };

    ghost piece = { λ s. submission_at s.submissions.now };

    fn many(&self) -> usize {
        self.n.min(REQUESTS)
    }

    #[tactic(auto, using(play_lines::specs::LinesLaws::puts_past))]
    fn put(&self, page: &mut Page, i: usize) {
        if i < self.many() {
            let request = self.submissions.requests[i];
            put_submission(page, request, self.submissions.ticks[i]);
        }
    }
}

// The line of the submissions.
fn put_submitted(page: &mut Page, submissions: &Submissions, n: usize)
    ensures { Puts page.old (submitted_line submissions.now n) page.new }
{
    page.put_word(b"submitted");
    play_lines::put_all(page, &First { submissions, n });
    page.put_byte(b'\n');
}

// ---- histories

// The line of history h: its number, j, k, and the requests of its list.
fn put_history(page: &mut Page, h: usize, history: &History)
    ensures { Puts page.old (history_text h history.now.j history.now.k (take history.now.count history.now.list)) page.new }
{
    page.put_word(b"history");
    play_lines::put_next(page, h as u64);
    play_lines::put_next(page, history.j as u64);
    play_lines::put_next(page, history.k as u64);
    put_part(page, b" ", &history.list, history.count);
    page.put_byte(b'\n');
}

// The lines of the first n histories, of eight at the most.
#[derive(Clone, Copy)]
struct Filed<'a> {
    histories: &'a Histories,
    n: usize,
}

impl<'a> Pieces for Filed<'a> {
    ghost many = { λ f. min f.n histories_max };

    ghost piece = { λ f. history_at f.histories.now };

    fn many(&self) -> usize {
        self.n.min(HISTORIES)
    }

    #[tactic(auto, using(play_lines::specs::LinesLaws::puts_past))]
    fn put(&self, page: &mut Page, i: usize) {
        if i < self.many() {
            put_history(page, i, &self.histories[i]);
        }
    }
}

// ---- counters

// The kind, a and b of a content, with ":" between them.
fn put_parts(page: &mut Page, kind: u64, a: u64, b: u64)
    ensures { Puts page.old (parts_text kind a b) page.new }
{
    play_lines::put_next(page, kind);
    page.put_byte(b':');
    page.put_decimal(a);
    page.put_byte(b':');
    page.put_decimal(b);
}

// A content.
fn put_content(page: &mut Page, content: Content)
    ensures { Puts page.old (content_text content) page.new }
{
    let [kind, a, b] = <[u32; 3]>::from(content);
    put_parts(page, u64::from(kind), u64::from(a), u64::from(b));
}

// A content, or nothing.
#[tactic(auto, using(text::specs::PageLaws::puts_none))]
fn put_choice(page: &mut Page, choice: Option<Content>)
    ensures { Puts page.old (choice_text choice) page.new }
{
    if let Some(content) = choice {
        put_content(page, content);
    }
}

// The first n contents of a counter, of 96 at the most.
#[derive(Clone, Copy)]
struct Contents<'a> {
    book: &'a Book,
    x: usize,
    name: usize,
    n: usize,
}

impl<'a> Pieces for Contents<'a> {
    ghost many = { λ c. min c.n places_max };

    ghost piece = { λ c. content_at_place c.book.now c.x c.name };

    fn many(&self) -> usize {
        self.n.min(PLACES)
    }

    #[tactic(auto, using(play_lines::specs::LinesLaws::puts_past))]
    fn put(&self, page: &mut Page, i: usize) {
        if i < self.many() {
            let value = (i + 1) as u32;
            put_choice(page, self.book.look_up(self.x, self.name, value));
        }
    }
}

// The line of a counter; none where it issued nothing.
fn put_counter(page: &mut Page, book: &Book, x: usize, name: usize)
    ensures { Puts page.old (counter_line book.now x name) page.new }
{
    let n = book.total(x, name);
    if n == 0 {
        return;
    }
    page.put_word(b"counter");
    play_lines::put_next(page, x as u64);
    page.put_byte(b'.');
    page.put_decimal(name as u64);
    play_lines::put_all(page, &Contents { book, x, name, n });
    page.put_byte(b'\n');
}

// The lines of replica x's counters.
fn put_own(page: &mut Page, book: &Book, x: usize)
    ensures { Puts page.old (counters_at book.now x) page.new }
{
    put_counter(page, book, x, AG);
    put_counter(page, book, x, UP);
    put_counter(page, book, x, SW);
}

// The lines of the counters of the first `size` replicas, of seven at the most.
#[derive(Clone, Copy)]
struct Counters<'a> {
    book: &'a Book,
    size: usize,
}

impl<'a> Pieces for Counters<'a> {
    ghost many = { λ c. min c.size replicas_max };

    ghost piece = { λ c. counters_at c.book.now };

    fn many(&self) -> usize {
        self.size.min(REPLICAS)
    }

    #[tactic(auto, using(play_lines::specs::LinesLaws::puts_past))]
    fn put(&self, page: &mut Page, i: usize) {
        if i < self.many() {
            put_own(page, self.book, i);
        }
    }
}

// ---- replicas

// The number of the history that is held, or "-".
fn put_held(page: &mut Page, held: Option<u32>)
    ensures { Puts page.old (held_text held) page.new }
{
    page.put_word(b" held=");
    match held {
        Some(h) => page.put_decimal(u64::from(h)),
        None => page.put_byte(b'-'),
    }
}

// A comma, where others have begun the list.
fn put_between(page: &mut Page, begun: bool)
    ensures { Puts page.old (pick begun (44 ∷ []) []) page.new }
{
    if begun {
        page.put_byte(b',');
    }
}

// The last accepted value of entry c: its sender, its name, the value; nothing where that is 0.
fn put_entry(page: &mut Page, begun: bool, c: usize, value: u32)
    ensures { Puts page.old (entry_text begun c value) page.new }
{
    if value == 0 {
        return;
    }
    put_between(page, begun);
    page.put_decimal((c / NAMES) as u64);
    page.put_byte(b'.');
    page.put_decimal((c % NAMES) as u64);
    page.put_byte(b':');
    page.put_decimal(u64::from(value));
}

// The accepted values that are not 0, or "-".
fn put_entries(page: &mut Page, accepted: &Accepted)
    ensures { Puts page.old (entries_from (λ c. get_or accepted.now c 0) false 0 counters) page.new }
{
    let mut begun = false;
    for (c, value) in accepted.iter().enumerate() {
        put_entry(page, begun, c, *value);
        begun |= *value != 0;
    }
    if !begun {
        page.put_byte(b'-');
    }
}

// A replica's number, condition, settled count and mark.
fn put_opening(page: &mut Page, x: usize, condition: Condition, settled: usize, mark: u32)
    ensures { Puts page.old (opening_text x condition settled mark) page.new }
{
    play_lines::put_name(page, x, condition);
    page.put_word(b" settled=");
    page.put_decimal(settled as u64);
    page.put_word(b" mark=");
    page.put_decimal(u64::from(mark));
}

// What a replica has accepted: the word and the values.
fn put_accepted(page: &mut Page, accepted: &Accepted)
    ensures { Puts page.old (accepted_text (λ c. get_or accepted.now c 0)) page.new }
{
    page.put_word(b" accepted=");
    put_entries(page, accepted);
}

// What a replica keeps: the history held, the requests noted, the pairs' marks, the values accepted.
fn put_kept(page: &mut Page, p: &Replica)
    ensures { Puts page.old (kept_in p.now) page.new }
{
    put_held(page, p.held);
    put_part(page, b" noted=", &p.noted, p.count);
    put_part(page, b" pairmarks=", &p.marks, p.pairs);
    put_accepted(page, &p.accepted);
}

// The line of a replica with this record, which has settled this list.
fn put_record(page: &mut Page, x: usize, p: &Replica, list: &[u32])
    ensures { Puts page.old (record_line x p.now list.now) page.new }
{
    put_opening(page, x, p.condition, list.len(), p.mark);
    put_kept(page, p);
    page.put_word(b" list=");
    put_listed(page, list);
    page.put_byte(b'\n');
}

// The line of replica x: what is shown of its record, and what it has settled.
fn put_replica(
    page: &mut Page,
    x: usize,
    replicas: &Replicas,
    roles: &Roles,
    histories: &Histories,
    book: &Book,
)
    requires { x < replicas_max }
    ensures { Puts page.old (replica_at roles.now histories.now book.now replicas.now x) page.new }
{
    let p = &replicas[x];
    let shown = room::settled::shown(*p);
    let settled = room::settled::settled_of(x, p, roles, histories, book);
    put_record(page, x, &shown, settled);
}

// One line for each of the kit's replicas, of seven at the most. As `play_lines` has it for its own line: a type for the line, a trait and two units
// of it would be longer.
#[derive(Clone, Copy)]
struct Records<'a> {
    replicas: &'a Replicas,
    roles: &'a Roles,
    histories: &'a Histories,
    book: &'a Book,
}

impl<'a> Pieces for Records<'a> {
    ghost many = { λ l. min l.roles.now.size replicas_max };

    ghost piece = { λ l. replica_at l.roles.now l.histories.now l.book.now l.replicas.now };

    fn many(&self) -> usize {
        self.roles.size.min(REPLICAS)
    }

    #[tactic(auto, using(play_lines::specs::LinesLaws::puts_past))]
    fn put(&self, page: &mut Page, i: usize) {
        if i < self.many() {
            put_replica(
                page,
                i,
                self.replicas,
                self.roles,
                self.histories,
                self.book,
            );
        }
    }
}

// ---- the whole

// The room after n events: event, submissions, histories, counters, replicas. The parts are lent one by one, as the player has them.
pub fn put_room(
    page: &mut Page,
    log: &Log,
    n: usize,
    played: &Played,
    roles: &Roles,
    submissions: &Submissions,
    histories: &Histories,
    book: &Book,
)
    ensures { Puts page.old (lines_of_room log.now n played.now.desk played.now.replicas roles.now submissions.now histories.now book.now) page.new }
{
    let desk = &played.desk;
    let replicas = &played.replicas;
    let size = roles.size;
    put_event(page, &log.answers, n, desk);
    put_submitted(page, submissions, desk.submitted);
    let n = desk.histories;
    play_lines::put_all(page, &Filed { histories, n });
    play_lines::put_all(page, &Counters { book, size });
    play_lines::put_all(
        page,
        &Records {
            replicas,
            roles,
            histories,
            book,
        },
    );
}
