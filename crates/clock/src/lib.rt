// The clock comes first in every event: the gap is added, and lateness is tested once, before the event. Here is what that does to the
// desk, and whether a request is answered. Nothing else is touched: lateness halts nobody.

#![tactic(auto)]

ghost use Rattle.std.specs.Prelude.{◌≡◌};
ghost use Rattle.ledger.specs.ActivesLaws.{asked_of};
ghost use Rattle.clock.specs.AnsweredOn.{has_updated, answered_on};
ghost use Rattle.clock.specs.Tick.{due_at, is_due, passed, first_open, tick_on};

use ledger::Book;
use room::Desk;
use terms::{Content, PLACES, REQUESTS, Roles, Submissions, UP};

// Whether every active replica's up value is UPDATE of this request with this mark.
#[tactic(auto, unfolding(crate::specs::AnsweredOn::has_updated, ledger::specs::ActivesLaws::asked_of))]
fn updated(roles: &Roles, value: u32, request: u32, mark: u32, book: &Book) -> bool
    ensures { result ≡ asked_of roles.now.table 0 (has_updated value request mark book.now) }
{
    let update = Content::Update(request, mark);
    roles.table.iter().enumerate().all(|(y, &number)| {
        !terms::marks_active(number) || book.is_content(y, UP, value, update)
    })
}

// A request is answered when for some value every active replica's up value is the same UPDATE of it, mark included: the leader's.
#[tactic(auto, unfolding(crate::specs::AnsweredOn::answered_on))]
pub fn answered(roles: &Roles, request: u32, book: &Book) -> bool
    ensures { result ≡ answered_on roles.now request book.now }
{
    for value in (1..=PLACES as u32).rev() {
        let mark = book.second_at(roles.leader, UP, value);
        if updated(roles, value, request, mark, book) {
            return true;
        }
    }
    false
}

// The tick of a submission plus the patience.
#[tactic(auto, unfolding(crate::specs::Tick::due_at))]
fn due_at(tick: u64, patience: u32) -> u64
    ensures { result ≡ due_at tick patience }
{
    tick.wrapping_add(u64::from(patience))
}

// Whether a submission of this tick has waited at least the patience.
#[tactic(auto, unfolding(crate::specs::Tick::is_due))]
fn is_due(tick: u64, patience: u32, clock: u64) -> bool
    ensures { result ≡ is_due tick patience clock }
{
    due_at(tick, patience) <= clock
}

// Whether submission i is due and answered.
#[tactic(auto, unfolding(crate::specs::Tick::passed))]
fn is_passed(i: usize, clock: u64, roles: &Roles, submissions: &Submissions, book: &Book) -> bool
    ensures { result ≡ passed clock roles.now submissions.now book.now i }
{
    i < REQUESTS
        && is_due(submissions.ticks[i], roles.patience, clock)
        && answered(roles, submissions.requests[i], book)
}

// The first submission, of those not known to be answered, that is not both due and answered. Ticks never fall, so that no later one is due
// where this one is not.
#[tactic(auto, unfolding(crate::specs::Tick::first_open))]
fn first_open(
    known: usize,
    submitted: usize,
    clock: u64,
    roles: &Roles,
    submissions: &Submissions,
    book: &Book,
) -> usize
    ensures { result ≡ first_open known submitted clock roles.now submissions.now book.now }
{
    for i in known..submitted {
        if !is_passed(i, clock, roles, submissions, book) {
            return i;
        }
    }
    known.max(submitted)
}

// Adds the gap. Where nothing was late before and some submission is unanswered and has waited at least the patience, the late tick is that
// of the earliest such submission plus the patience.
#[tactic(auto, unfolding(crate::specs::Tick::tick_on, crate::specs::Tick::stops_at))]
pub fn tick(mut desk: Desk, gap: u32, roles: &Roles, submissions: &Submissions, book: &Book) -> Desk
    ensures { result ≡ tick_on desk gap roles.now submissions.now book.now }
{
    desk.clock = desk.clock.wrapping_add(u64::from(gap));
    if desk.late.is_none() {
        let k = first_open(
            desk.known,
            desk.submitted,
            desk.clock,
            roles,
            submissions,
            book,
        );
        desk.known = k;
        if k < desk.submitted
            && k < REQUESTS
            && is_due(submissions.ticks[k], roles.patience, desk.clock)
        {
            desk.late = Some(due_at(submissions.ticks[k], roles.patience));
        }
    }
    desk
}
