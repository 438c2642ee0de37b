// Records changed where they stand. A thin function is lent one replica's record by `&mut`, calls the by-value step of crate `replica` and stores
// what it gives; over it stands a function of a record that is given, which lends it.
// Document 01 asks for both forms, by `&mut` and by value, so they stand side by side.
#![tactic(auto)]

ghost use Rattle.std.specs.Prelude.{◌≡◌};
ghost use Rattle.replica.specs.Record.{note_on, hold_on, close_on};

use replica::Replica;

// ---- a record that is lent

// Notes a request.
pub fn note_in(r: &mut Replica, request: u32)
    ensures { r.new ≡ note_on r.old request }
{
    *r = r.note(request);
}

// Holds a handed history.
pub fn hold_in(r: &mut Replica, history: u32)
    ensures { r.new ≡ hold_on r.old history }
{
    *r = r.hold(history);
}

// Closes, with the mark of the list that it has settled.
pub fn close_in(r: &mut Replica, mark: u32)
    ensures { r.new ≡ close_on r.old mark }
{
    *r = r.close(mark);
}

// ---- a record that is given

// The record with a request noted.
pub fn noted(p: Replica, request: u32) -> Replica
    ensures { result ≡ note_on p request }
{
    let mut record = p;
    note_in(&mut record, request);
    record
}

// The record with a history held.
pub fn held(p: Replica, history: u32) -> Replica
    ensures { result ≡ hold_on p history }
{
    let mut record = p;
    hold_in(&mut record, history);
    record
}

// The record closed.
pub fn closed(p: Replica, mark: u32) -> Replica
    ensures { result ≡ close_on p mark }
{
    let mut record = p;
    close_in(&mut record, mark);
    record
}
