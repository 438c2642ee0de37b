// Whether the counters bear a history out: what the hand asks before a history is held. Contents are compared with what was issued.

#![tactic(auto)]

ghost use Rattle.std.specs.Prelude.{◌≡◌, ◌≤◌, length, suc};
ghost use Rattle.std.specs.List.{list_all, enumerate_from};
ghost use Rattle.terms.specs.Limits.{requests_max};
ghost use Rattle.terms.specs.Lists.{all_below};
ghost use Rattle.ledger.specs.ActivesLaws.{asked_of};
ghost use Rattle.validity.specs.Validity.{is_committed_at, is_common_to, is_settled_at, is_settled_on, is_borne_out, is_filed_at, is_valid_on};
ghost use Rattle.validity.specs.ValidityLaws.{is_new};

use ledger::Book;
use terms::{AG, Content, HISTORIES, Histories, History, REQUESTS, Roles, UP};

// The switch leader's ag value is COMMIT of that request and value, the leader's is PREPARE of it.
#[tactic(auto, unfolding(crate::specs::Validity::is_committed_at))]
fn is_committed(book: &Book, roles: &Roles, value: u32, request: u32) -> bool
    ensures { result ≡ is_committed_at book.now roles.now value request }
{
    book.is_content(roles.switcher, AG, value, Content::Commit(request, value))
        && book.is_content(roles.leader, AG, value, Content::Prepare(request))
}

// The requests of a list are committed, each at the value of its place, counted from 1.
fn are_committed(book: &Book, roles: &Roles, list: &[u32]) -> bool
    requires { length list.now ≤ requests_max }
    ensures { result ≡ list_all (λ entry. is_committed_at book.now roles.now (suc entry.0) entry.1) (enumerate_from 0 list.now) }
{
    list.iter().enumerate().all(|(i, &request)| is_committed(book, roles, i as u32 + 1, request))
}

// The ag value of every active replica is that COMMIT too; leader and switch leader excepted.
#[tactic(auto, unfolding(crate::specs::Validity::is_common_to, ledger::specs::ActivesLaws::asked_of))]
fn are_common(book: &Book, roles: &Roles, value: u32, request: u32) -> bool
    ensures { result ≡ asked_of roles.now.table 0 (is_common_to book.now roles.now value request) }
{
    let commit = Content::Commit(request, value);
    roles.table.iter().enumerate().all(|(y, &number)| {
        !terms::marks_active(number)
            || y == roles.leader
            || y == roles.switcher
            || book.is_content(y, AG, value, commit)
    })
}

// All active replicas have that COMMIT, and the switch leader's up value is UPDATE of that request and mark.
#[tactic(auto, unfolding(crate::specs::Validity::is_settled_at), using(ledger::specs::ActivesLaws::all_actives))]
fn is_settled(book: &Book, roles: &Roles, value: u32, request: u32, mark: u32) -> bool
    ensures { result ≡ is_settled_at book.now roles.now value request mark }
{
    are_common(book, roles, value, request)
        && book.is_content(roles.switcher, UP, value, Content::Update(request, mark))
}

// The requests of a list are settled, each with the mark of those up to it.
#[tactic(auto, unfolding(crate::specs::Validity::is_settled_on))]
fn are_settled(book: &Book, roles: &Roles, list: &[u32]) -> bool
    requires { length list.now ≤ requests_max }
    ensures { result ≡ all_below (length list.now) (is_settled_on book.now roles.now list.now) }
{
    let mut mark = 0;
    for (i, &request) in list.iter().enumerate() {
        mark = terms::next_mark(mark, request);
        if !is_settled(book, roles, i as u32 + 1, request, mark) {
            return false;
        }
    }
    true
}

// The whole list is submitted and without repeats.
fn is_listed(submitted: &[u32], list: &[u32]) -> bool
    ensures { result ≡ list_all (is_new submitted.now list.now) (enumerate_from 0 list.now) }
{
    list.iter().enumerate().all(|(i, &request)| {
        !terms::holds(&list[..i], request) && terms::holds(submitted, request)
    })
}

// A history (j, k, list) is valid, as far as its own numbers, its list and the counters say.
#[tactic(auto, unfolding(crate::specs::Validity::is_borne_out), using(crate::specs::ValidityLaws::borne_out_within))]
fn is_borne_out(book: &Book, roles: &Roles, submitted: &[u32], history: &History) -> bool
    ensures { result ≡ is_borne_out book.now roles.now submitted.now history.now }
{
    if REQUESTS < history.count || history.count < history.k || history.k < history.j {
        return false;
    }
    are_committed(book, roles, &history.list[..history.k])
        && are_settled(book, roles, &history.list[..history.j])
        && is_listed(submitted, &history.list[..history.count])
}

// The history of number h, of the first `count`, is borne out, and p and q are the values after its k and its j.
#[tactic(auto, unfolding(crate::specs::Validity::is_filed_at))]
fn is_filed(
    book: &Book,
    roles: &Roles,
    submitted: &[u32],
    histories: &Histories,
    count: usize,
    h: usize,
    p: u32,
    q: u32,
) -> bool
    ensures { result ≡ is_filed_at book.now roles.now submitted.now histories.now count h p q }
{
    if count <= h || HISTORIES <= h {
        return false;
    }
    let history = &histories[h];
    ledger::is_next(p, history.k)
        && ledger::is_next(q, history.j)
        && is_borne_out(book, roles, submitted, history)
}

// The history of number h, of the first `count`, is valid at the switch leader's ag value p and up value q: both are HISTORY of it, and the
// counters bear it out. `submitted` and `count` stand beside arrays, since memory is fixed: the desk counts what is in use.
// h, p and q are one hand's numbers; nothing else takes them together, so that a struct for them would be no plainer.
// It is kept out of its caller: there, what else is compiled decides where its loops come to lie, and a history of 64 requests that is handed
// again and again took a quarter longer.
#[inline(never)]
#[tactic(auto, unfolding(crate::specs::Validity::is_valid_on))]
pub fn is_valid(
    book: &Book,
    roles: &Roles,
    submitted: &[u32],
    histories: &Histories,
    count: usize,
    h: u32,
    p: u32,
    q: u32,
) -> bool
    ensures { result ≡ is_valid_on book.now roles.now submitted.now histories.now count h p q }
{
    book.is_content(roles.switcher, AG, p, Content::History(h))
        && book.is_content(roles.switcher, UP, q, Content::History(h))
        && is_filed(book, roles, submitted, histories, count, h as usize, p, q)
}
