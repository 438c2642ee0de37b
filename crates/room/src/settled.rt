// What a replica has settled, and what is shown of its record: both texts read them here.
ghost use Rattle.std.specs.Prelude.{◌≡◌};
ghost use Rattle.room.specs.Settled.{noted_settled, held_settled, settled_of, shown_record};

use ledger::Book;
use replica::Replica;
use terms::{AG, Condition, HISTORIES, Histories, Roles};

// Of a replica that has not closed: the first of its noted requests.
#[tactic(auto, unfolding(crate::specs::Settled::noted_settled))]
fn noted<'a>(x: usize, p: &'a Replica, roles: &Roles, book: &Book) -> &'a [u32]
    ensures { result.now ≡ noted_settled roles.now book.now x p.now }
{
    let c = p.settled_count(roles, x, book.total(x, AG));
    terms::first(&p.noted, c.min(p.count))
}

// Of a closed one: the whole list of the history that it holds.
#[tactic(auto, unfolding(crate::specs::Settled::held_settled))]
fn held<'a>(p: &Replica, histories: &'a Histories) -> &'a [u32]
    ensures { result.now ≡ held_settled histories.now p.now }
{
    match p.held {
        Some(h) if (h as usize) < HISTORIES => {
            let history = &histories[h as usize];
            terms::first(&history.list, history.count)
        }
        _ => &[],
    }
}

// What replica x with this record has settled, lent from its record or from its history. A faulty one has settled nothing.
#[tactic(auto, unfolding(crate::specs::Settled::settled_of))]
pub fn settled_of<'a>(
    x: usize,
    p: &'a Replica,
    roles: &Roles,
    histories: &'a Histories,
    book: &Book,
) -> &'a [u32]
    ensures { result.now ≡ settled_of roles.now histories.now book.now x p.now }
{
    match p.condition {
        Condition::Running | Condition::Halted => noted(x, p, roles, book),
        Condition::Closed => held(p, histories),
        Condition::Faulty => &[],
    }
}

// The record that is shown of a replica: of a faulty one a fresh record, with mark 0 and nothing held, noted or accepted.
#[tactic(auto, unfolding(crate::specs::Settled::shown_record))]
pub fn shown(p: Replica) -> Replica
    ensures { result ≡ shown_record p }
{
    match p.condition {
        Condition::Faulty => Replica::fresh(true),
        _ => p,
    }
}
