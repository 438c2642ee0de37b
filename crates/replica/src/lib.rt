// A replica's record: a fixed-size value, with the steps that change it. Each step gives the record anew; a step that has no room leaves
// it as it is.
#![tactic(auto)]

ghost use Rattle.std.specs.Prelude.{◌≡◌};
ghost use Rattle.replica.specs.Record.{fresh_record, note_on, note_pair_on, accept_on, accepted_in, mark_on, halt_on, hold_on, close_on, active_in, lesser_of, least_seen, settled_in, switched_in, switches_in, mark_in};

use terms::{
    AG, Accepted, COUNTERS, Condition, Marks, NAMES, REPLICAS, REQUESTS, Requests, Roles, SW,
    Table, UP,
};

// What a replica keeps. `noted` has `count` requests, `marks` the marks of `pairs` pairs, `accepted` the last accepted value of each
// sender's three counters; `held` is the number of the history that it holds. Whatever is not in use is 0.
// The arrays stay arrays with a count beside them: the record is of a fixed size and copied (document 01).
#[derive(Clone, Copy)]
pub struct Replica {
    pub condition: Condition,
    pub noted: Requests,
    pub count: usize,
    pub marks: Marks,
    pub pairs: usize,
    pub mark: u32,
    pub accepted: Accepted,
    pub held: Option<u32>,
}

// The replicas of a room, as many as a kit can have.
pub type Replicas = [Replica; REPLICAS];

impl Replica {
    // Requests that a replica can note.
    pub const NOTED_MAX: usize = REQUESTS;
    // Replicas that can send to it.
    pub const SENDERS_MAX: usize = REPLICAS;
    // Names of counters.
    pub const NAMES_MAX: usize = NAMES;

    // A replica before the first event.
    #[tactic(auto, unfolding(crate::specs::Record::fresh_record))]
    pub fn fresh(faulty: bool) -> Replica
        ensures { result ≡ fresh_record faulty }
    {
        Replica {
            condition: if faulty {
                Condition::Faulty
            } else {
                Condition::Running
            },
            noted: [0; REQUESTS],
            count: 0,
            marks: [0; REQUESTS],
            pairs: 0,
            mark: 0,
            accepted: [0; COUNTERS],
            held: None,
        }
    }

    // Notes a request.
    #[tactic(auto, unfolding(crate::specs::Record::note_on))]
    pub fn note(mut self, request: u32) -> Replica
        ensures { result ≡ note_on self request }
    {
        if self.count < Replica::NOTED_MAX {
            self.noted[self.count] = request;
            self.count += 1;
        }
        self
    }

    // Notes a pair: a request with the mark that came with it.
    #[tactic(auto, unfolding(crate::specs::Record::note_pair_on))]
    pub fn note_pair(mut self, request: u32, mark: u32) -> Replica
        ensures { result ≡ note_pair_on self request mark }
    {
        if Replica::NOTED_MAX <= self.count || Replica::NOTED_MAX <= self.pairs {
            return self;
        }
        self.noted[self.count] = request;
        self.count += 1;
        self.marks[self.pairs] = mark;
        self.pairs += 1;
        self
    }

    // The value is the last one accepted of that sender's counter.
    #[tactic(auto, unfolding(crate::specs::Record::accept_on))]
    pub fn accept(mut self, sender: usize, name: usize, value: u32) -> Replica
        ensures { result ≡ accept_on self sender name value }
    {
        if sender < Replica::SENDERS_MAX && name < Replica::NAMES_MAX {
            self.accepted[Replica::NAMES_MAX * sender + name] = value;
        }
        self
    }

    // The mark after an execution.
    #[tactic(auto, unfolding(crate::specs::Record::mark_on))]
    pub fn with_mark(mut self, mark: u32) -> Replica
        ensures { result ≡ mark_on self mark }
    {
        self.mark = mark;
        self
    }

    // A running replica halts; any other stays as it is.
    #[tactic(auto, unfolding(crate::specs::Record::halt_on))]
    pub fn halt(mut self) -> Replica
        ensures { result ≡ halt_on self }
    {
        match self.condition {
            Condition::Running => self.condition = Condition::Halted,
            _ => {}
        }
        self
    }

    // Holds a history.
    #[tactic(auto, unfolding(crate::specs::Record::hold_on))]
    pub fn hold(mut self, history: u32) -> Replica
        ensures { result ≡ hold_on self history }
    {
        self.held = Some(history);
        self
    }

    // Closes, with the mark of the list that it has settled.
    #[tactic(auto, unfolding(crate::specs::Record::close_on, crate::specs::Record::mark_on))]
    pub fn close(mut self, mark: u32) -> Replica
        ensures { result ≡ close_on self mark }
    {
        self.condition = Condition::Closed;
        self.with_mark(mark)
    }

    // The last accepted value of a sender's counter; 0 of one that is not there.
    #[tactic(auto, unfolding(crate::specs::Record::accepted_in))]
    pub fn accepted_of(&self, sender: usize, name: usize) -> u32
        ensures { result ≡ accepted_in self.now.accepted sender name }
    {
        if sender < REPLICAS && name < NAMES {
            self.accepted[NAMES * sender + name]
        } else {
            0
        }
    }

    // The lesser of the count so far and what is seen of one more active replica y.
    #[tactic(auto, unfolding(crate::specs::Record::lesser_of))]
    fn lesser(&self, active: bool, me: usize, own: usize, y: usize, c: usize) -> usize
        ensures { result ≡ lesser_of active self.now.accepted me own y c }
    {
        if active && y == me {
            own.min(c)
        } else if active {
            (self.accepted_of(y, AG) as usize).min(c)
        } else {
            (self.accepted_of(y, UP) as usize).min(c)
        }
    }

    // The least, over all active replicas and of `first`, of what replica `me` has seen of them; `own` is its own ag total.
    #[tactic(auto, unfolding(crate::specs::Record::least_seen))]
    fn least_seen(&self, table: &Table, active: bool, me: usize, own: usize, first: usize) -> usize
        ensures { result ≡ least_seen table.now self.now.accepted active me own first }
    {
        let mut c = first;
        for (y, entry) in table.iter().enumerate() {
            if terms::marks_active(*entry) {
                c = self.lesser(active, me, own, y, c);
            }
        }
        c
    }

    // The settled count of replica `me` with this record and `own` values on ag.
    #[tactic(auto, unfolding(crate::specs::Record::settled_in))]
    pub fn settled_count(&self, roles: &Roles, me: usize, own: usize) -> usize
        ensures { result ≡ settled_in self.now.accepted roles.now.table roles.now.leader me own }
    {
        let active = is_active_at(&roles.table, me);
        let first = if active {
            own
        } else {
            self.accepted_of(roles.leader, UP) as usize
        };
        self.least_seen(&roles.table, active, me, own, first)
    }

    // Whether a SWITCH of replica y, one of the first `size`, was accepted.
    #[tactic(auto, unfolding(crate::specs::Record::switched_in))]
    fn switched(&self, size: usize, y: usize) -> bool
        ensures { result ≡ switched_in self.now.accepted size y }
    {
        y < size && 1 <= self.accepted_of(y, SW)
    }

    // Of how many of the first `size` replicas a SWITCH was accepted.
    #[tactic(auto, unfolding(crate::specs::Record::switches_in))]
    pub fn switches(&self, size: usize) -> u32
        ensures { result ≡ switches_in self.now.accepted size }
    {
        let mut n = 0;
        for y in 0..REPLICAS {
            if self.switched(size, y) {
                n += 1;
            }
        }
        n
    }

    // The mark of the last of c pairs, 0 before the first.
    #[tactic(auto, unfolding(crate::specs::Record::mark_in))]
    pub fn mark_of_pair(&self, c: usize) -> u32
        ensures { result ≡ mark_in self.now.marks c }
    {
        if c == 0 || REQUESTS < c {
            0
        } else {
            self.marks[c - 1]
        }
    }
}

// Whether the table marks replica x as active.
#[tactic(auto, unfolding(crate::specs::Record::active_in))]
pub fn is_active_at(table: &Table, x: usize) -> bool
    ensures { result ≡ active_in table.now x }
{
    table
        .get(x)
        .is_some_and(|&entry| terms::marks_active(entry))
}
