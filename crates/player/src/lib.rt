// The player: the first events of a kit, one after the other, on the room's parts. The loop owns the replicas' records and is lent the rest, so
// that no function takes the room; an event is read, the clock ticks, what it comes to is decided, and that is carried out.

#![tactic(auto)]

ghost use Rattle.std.specs.Prelude.{◌≡◌};
ghost use Rattle.player.specs.Turn.{left, play_on};

use kit::Settings;
use ledger::Book;
use room::{Desk, Log, Played};
use terms::{EVENTS, Histories, REQUESTS, Submissions};

pub mod opening;

// Plays the first `most` events of a kit with these settings, from the room that they open and what is lent. After it the log's answers[k] and
// clocks[k] are event k's; entries past the last event are as they were.
#[tactic(auto, unfolding(crate::specs::Turn::play_on, crate::specs::Turn::played_from_records))]
pub fn play(
    bytes: &[u8],
    settings: &Settings,
    most: usize,
    log: &mut Log,
    submissions: &mut Submissions,
    histories: &mut Histories,
    book: &mut Book,
) -> Played
    ensures { left result log.new submissions.new histories.new book.new ≡ play_on bytes.now settings.now most log.old submissions.old histories.old book.old }
{
    let roles = opening::roles_of(settings);
    let mut replicas = opening::fresh_replicas(&settings.table);
    let mut desk = Desk::fresh();
    let mut list = [0u32; REQUESTS];
    let mut at = settings.first;
    for k in 0..most.min(EVENTS) {
        let e = kit::next_event(bytes, at, &mut list);
        desk = clock::tick(desk, e.gap, &roles, submissions, book);
        log.clocks[k] = desk.clock;
        let me = decide::concerned(e.event, &roles);
        let p = replicas[me];
        let decision = decide::decide(e.event, &p, &desk, &roles, submissions, histories, book);
        log.answers[k] = decide::answer_of(decision);
        carry_out::enter(decision, &desk, &p, &list, e.count, submissions, histories);
        if carry_out::moves(decision) {
            replicas[me] = carry_out::apply(p, decision, &desk, me, &roles, histories, book);
        }
        desk = desk.counted(decision);
        at = e.next;
    }
    Played { desk, replicas }
}
