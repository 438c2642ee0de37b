// What a decided event does: what is entered in the room's lists, and what the replica concerned does with its record and its counters.

#![tactic(auto)]

ghost use Rattle.std.specs.Prelude.{◌≡◌};
ghost use Rattle.terms.specs.Mark.{mark_of};
ghost use Rattle.ledger.specs.Ledger.{issue_on};
ghost use Rattle.carry_out.specs.Enter.{store_request, file_on, add_missing, built_on, entered, enter_on};
ghost use Rattle.carry_out.specs.Apply.{applied, request_at, settle_on, lead_on, prepare_on, commit_on, pair_on, held_mark, switch_on, hand_on, build_on, act_on, apply_on, moves_on};

use ledger::Book;
use replica::Replica;
use room::Desk;
use terms::{
    AG, Act, Condition, Content, Decision, Deed, HISTORIES, Histories, History, REQUESTS, Requests,
    Roles, SW, Submissions, UP,
};

// ---- what is entered

// The request and its tick are remembered as the n-th submission.
#[tactic(auto, unfolding(crate::specs::Enter::store_request))]
fn store_request(n: usize, request: u32, clock: u64, submissions: &mut Submissions)
    ensures { submissions.new ≡ store_request n request clock submissions.old }
{
    if n < REQUESTS {
        submissions.requests[n] = request;
        submissions.ticks[n] = clock;
    }
}

// The h-th history is filed.
#[tactic(auto, unfolding(crate::specs::Enter::file_on))]
fn file(h: usize, history: History, histories: &mut Histories)
    ensures { histories.new ≡ file_on h history histories.old }
{
    if h < HISTORIES {
        histories[h] = history;
    }
}

// A request goes to the end of a history's list, if it is not among the noted ones.
#[tactic(auto, unfolding(crate::specs::Enter::add_missing))]
fn add_missing(noted: &[u32], request: u32, history: &mut History)
    ensures { history.new ≡ add_missing noted.now request history.old }
{
    if history.count < REQUESTS && !terms::holds(noted, request) {
        history.list[history.count] = request;
        history.count += 1;
    }
}

// The history that the switch leader builds: its noted requests and then the submitted ones that it has not noted, in order of submission.
#[tactic(auto, unfolding(crate::specs::Enter::built_on))]
fn built(p: &Replica, submitted: &[u32], j: usize, k: usize) -> History
    ensures { result ≡ built_on p.now submitted.now j k }
{
    let mut history = History {
        j,
        k,
        count: p.count,
        list: p.noted,
    };
    let noted = terms::first(&p.noted, p.count);
    for &request in submitted {
        add_missing(noted, request, &mut history);
    }
    history
}

// What a decision enters in the room's lists: a submitted request with its tick, a filed history with its list, the n first of `list`, or the
// history that the switch leader builds. `p` is the record of the replica concerned.
// `list` and `n` stay two, no slice: a filed history takes over all 64 places, those past n too (`enter_on`).
#[tactic(auto, unfolding(crate::specs::Enter::enter_on))]
pub fn enter(
    decision: Decision,
    desk: &Desk,
    p: &Replica,
    list: &Requests,
    n: usize,
    submissions: &mut Submissions,
    histories: &mut Histories,
)
    ensures { entered submissions.new histories.new ≡ enter_on decision desk.now p.now list.now n submissions.old histories.old }
{
    let h = desk.histories;
    match decision {
        Ok(Deed::Submit(request)) => {
            store_request(desk.submitted, request, desk.clock, submissions);
        }
        Ok(Deed::File(j, k)) => {
            let history = History {
                j: j as usize,
                k: k as usize,
                count: n,
                list: *list,
            };
            file(h, history, histories);
        }
        Ok(Deed::Build(j, k)) => {
            let submitted = terms::first(&submissions.requests, desk.submitted);
            let history = built(p, submitted, j, k);
            file(h, history, histories);
        }
        _ => {}
    }
}

// ---- settling

// The request at a place of a list, 0 past its end.
#[tactic(auto, unfolding(crate::specs::Apply::request_at))]
fn request_at(list: &Requests, c: usize) -> u32
    ensures { result ≡ request_at list.now c }
{
    list.get(c).copied().unwrap_or(0)
}

// A replica that had settled c and now has settled d: when that has risen it executes the request that comes next and issues UPDATE on up.
#[tactic(auto, unfolding(crate::specs::Apply::settle_on))]
fn settle(p: Replica, c: usize, d: usize, me: usize, book: &mut Book) -> Replica
    ensures { applied result book.new ≡ settle_on p c d me book.old }
{
    if d <= c {
        return p;
    }
    let request = request_at(&p.noted, c);
    let mark = terms::next_mark(p.mark, request);
    book.issue(me, UP, Content::Update(request, mark));
    p.with_mark(mark)
}

// ---- what each decision does

// A running leader notes the request and issues PREPARE on ag.
#[tactic(auto, unfolding(crate::specs::Apply::lead_on))]
fn lead(p: Replica, request: u32, me: usize, book: &mut Book) -> Replica
    ensures { applied result book.new ≡ lead_on p request me book.old }
{
    match p.condition {
        Condition::Running => {
            book.issue(me, AG, Content::Prepare(request));
            in_place::noted(p, request)
        }
        _ => p,
    }
}

// A faulty replica, x, issues what it likes; the record stays.
fn issue_freely(p: Replica, x: usize, name: usize, content: Content, book: &mut Book) -> Replica
    ensures { applied result book.new ≡ applied p (issue_on book.old x name content) }
{
    book.issue(x, name, content);
    p
}

// The receiver of a PREPARE notes the request, issues COMMIT on ag naming the leader's value, and settles.
#[tactic(auto, unfolding(crate::specs::Apply::prepare_on))]
fn prepare(
    p: Replica,
    sender: usize,
    value: u32,
    request: u32,
    me: usize,
    roles: &Roles,
    book: &mut Book,
) -> Replica
    ensures { applied result book.new ≡ prepare_on p sender value request me roles.now book.old }
{
    let c = p.settled_count(roles, me, book.total(me, AG));
    let accepting = in_place::noted(p, request).accept(sender, AG, value);
    book.issue(me, AG, Content::Commit(request, value));
    let d = accepting.settled_count(roles, me, book.total(me, AG));
    settle(accepting, c, d, me, book)
}

// The receiver of a COMMIT accepts it and settles.
#[tactic(auto, unfolding(crate::specs::Apply::commit_on))]
fn commit(
    p: Replica,
    sender: usize,
    value: u32,
    me: usize,
    roles: &Roles,
    book: &mut Book,
) -> Replica
    ensures { applied result book.new ≡ commit_on p sender value me roles.now book.old }
{
    let own = book.total(me, AG);
    let c = p.settled_count(roles, me, own);
    let accepting = p.accept(sender, AG, value);
    let d = accepting.settled_count(roles, me, own);
    settle(accepting, c, d, me, book)
}

// The receiver of an UPDATE accepts it; its mark is that of its last settled pair.
#[tactic(auto, unfolding(crate::specs::Apply::pair_on))]
fn accept_pair(p: Replica, sender: usize, value: u32, me: usize, roles: &Roles) -> Replica
    ensures { result ≡ pair_on p sender value me roles.now }
{
    let accepting = p.accept(sender, UP, value);
    let c = accepting.settled_count(roles, me, 0);
    accepting.with_mark(accepting.mark_of_pair(c))
}

// The mark of a list.
fn mark_of(list: &[u32]) -> u32
    ensures { result ≡ mark_of list.now }
{
    list.iter()
        .fold(0, |mark, &request| terms::next_mark(mark, request))
}

// The mark of the list of the history that is held, 0 where there is none.
#[tactic(auto, unfolding(crate::specs::Apply::held_mark))]
fn held_mark(held: Option<u32>, histories: &Histories) -> u32
    ensures { result ≡ held_mark held histories.now }
{
    match held {
        Some(h) if (h as usize) < HISTORIES => {
            let history = &histories[h as usize];
            mark_of(terms::first(&history.list, history.count))
        }
        _ => 0,
    }
}

// The receiver of a SWITCH accepts it; with f senders accepted it closes, with the mark of the list that it holds.
#[tactic(auto, unfolding(crate::specs::Apply::switch_on))]
fn accept_switch(
    p: Replica,
    sender: usize,
    value: u32,
    roles: &Roles,
    histories: &Histories,
) -> Replica
    ensures { result ≡ switch_on p sender value roles.now histories.now }
{
    let accepting = p.accept(sender, SW, value);
    if accepting.switches(roles.size) < roles.f {
        return accepting;
    }
    let mark = held_mark(accepting.held, histories);
    in_place::closed(accepting, mark)
}

// The receiver of a history holds it and issues SWITCH of it on sw.
#[tactic(auto, unfolding(crate::specs::Apply::hand_on))]
fn hand(p: Replica, history: u32, me: usize, book: &mut Book) -> Replica
    ensures { applied result book.new ≡ hand_on p history me book.old }
{
    book.issue(me, SW, Content::Switch(history));
    in_place::held(p, history)
}

// The switch leader issues HISTORY of the h-th history on ag and up, holds it, and issues SWITCH of it on sw.
#[tactic(auto, unfolding(crate::specs::Apply::build_on))]
fn build(p: Replica, h: usize, me: usize, book: &mut Book) -> Replica
    ensures { applied result book.new ≡ build_on p h me book.old }
{
    if HISTORIES <= h {
        return p;
    }
    let history = h as u32;
    book.issue(me, AG, Content::History(history));
    book.issue(me, UP, Content::History(history));
    hand(p, history, me, book)
}

// Whether a decision does anything to a record or a counter.
#[tactic(auto, unfolding(crate::specs::Apply::moves_on))]
pub fn moves(decision: Decision) -> bool
    ensures { result ≡ moves_on decision }
{
    matches!(
        decision,
        Ok(Deed::Submit(_) | Deed::Issue(_, _, _) | Deed::Act(_) | Deed::Build(_, _))
    )
}

// What the replica concerned, `me`, does at what has reached it.
#[tactic(auto, unfolding(crate::specs::Apply::act_on))]
fn act_on(
    p: Replica,
    act: Act,
    me: usize,
    roles: &Roles,
    histories: &Histories,
    book: &mut Book,
) -> Replica
    ensures { applied result book.new ≡ act_on p act me roles.now histories.now book.old }
{
    match act {
        Act::Prepare(sender, value, request) => {
            prepare(p, sender, value, request, me, roles, book)
        }
        Act::Commit(sender, value) => commit(p, sender, value, me, roles, book),
        Act::KnownPair(sender, value) => accept_pair(p, sender, value, me, roles),
        Act::NewPair(sender, value, request, mark) => {
            accept_pair(p.note_pair(request, mark), sender, value, me, roles)
        }
        Act::Switch(sender, value) => accept_switch(p, sender, value, roles, histories),
        Act::Hand(history) => hand(p, history, me, book),
        Act::Panic => p.halt(),
    }
}

// What a decision does to the record of the replica concerned, `me`, and to the counters. The desk is the one before the decision is
// counted, the histories those after it is entered.
#[tactic(auto, unfolding(crate::specs::Apply::apply_on))]
pub fn apply(
    p: Replica,
    decision: Decision,
    desk: &Desk,
    me: usize,
    roles: &Roles,
    histories: &Histories,
    book: &mut Book,
) -> Replica
    ensures { applied result book.new ≡ apply_on p decision desk.now me roles.now histories.now book.old }
{
    match decision {
        Ok(Deed::Submit(request)) => lead(p, request, me, book),
        Ok(Deed::Issue(x, name, content)) => issue_freely(p, x, name, content, book),
        Ok(Deed::Act(act)) => act_on(p, act, me, roles, histories, book),
        Ok(Deed::Build(_, _)) => build(p, desk.histories, me, book),
        Ok(Deed::Idle | Deed::File(_, _)) | Err(_) => p,
    }
}
