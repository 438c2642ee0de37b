// What an event comes to: the answers in their order, and what is to be done where the event is taken. Everything is read, nothing changed.

#![tactic(auto)]

ghost use Rattle.std.specs.Prelude.{◌≡◌, ◌<◌, Some, take};
ghost use Rattle.terms.specs.Limits.{ag};
ghost use Rattle.terms.specs.Numbers.{answer_number};
ghost use Rattle.terms.specs.Lists.{holds};
ghost use Rattle.rules.specs.Reading.{entry_at};
ghost use Rattle.rules.specs.Outcome.{answer_of};
ghost use Rattle.rules.specs.Submit.{decide_submit, names_unfiled, decide_issue, decide_file};
ghost use Rattle.rules.specs.Deliver.{decide_prepare, decide_commit, decide_pair, decide_update, decide_sw, decide_content, is_too_late, has_wrong_roles, decide_receive, decide_deliver};
ghost use Rattle.rules.specs.Switching.{decide_panic, decide_build, decide_hold, decide_hand};
ghost use Rattle.ledger.specs.Ledger.{total_of, content_on};
ghost use Rattle.replica.specs.Record.{accepted_in, active_in, settled_in};
ghost use Rattle.decide.specs.Decided.{concerned_in, is_new_in, sight_in, valid_in, handing_in, decide_on};

use ledger::Book;
use replica::Replica;
use room::Desk;
use terms::{
    AG, Act, Condition, Content, Decision, Deed, Event, FILED, Histories, PLACES, REPLICAS,
    REQUESTS, Refusal, Requests, Roles, SW, Submissions, Table, UP,
};

// An entry of a list by its value, and values count from 1; 0 where the list has none.
fn entry_at(list: &Requests, value: u32) -> u32
    ensures { result ≡ entry_at list.now value }
{
    let i = (value as usize).saturating_sub(1);
    list.get(i).copied().unwrap_or(0)
}

// The replica whose record an event concerns: the leader where a request is submitted, the switch leader where it builds. It is one of the
// seven.
#[tactic(auto, unfolding(crate::specs::Decided::concerned_in, crate::specs::Decided::below_seven))]
pub fn concerned(event: Event, roles: &Roles) -> usize
    ensures replica { result ≡ concerned_in event roles.now }
    ensures within { result < REPLICAS }
{
    let n = match event {
        Event::Submit(_) => roles.leader,
        Event::Issue(x, _, _) => x,
        Event::Deliver(_, _, _, to) | Event::Hand(_, _, to) | Event::Panic(to) => to,
        Event::Build => roles.switcher,
        Event::Idle | Event::File(_, _) => 0,
    };
    if n < REPLICAS { n } else { 0 }
}

// On ag or up to a halted or closed receiver; on sw to a closed one.
#[tactic(auto, unfolding(rules::specs::Deliver::is_too_late))]
fn is_too_late(name: usize, condition: Condition) -> bool
    ensures { result ≡ is_too_late name condition }
{
    if name == SW {
        condition == Condition::Closed
    } else {
        condition != Condition::Running
    }
}

// The sender is not the receiver; ag needs both active; up needs an active sender and a passive receiver.
#[tactic(auto, unfolding(rules::specs::Deliver::has_wrong_roles, replica::specs::Record::active_in))]
fn has_wrong_roles(table: &Table, sender: usize, name: usize, to: usize) -> bool
    ensures { result ≡ has_wrong_roles (active_in table.now) sender name to }
{
    let from = replica::is_active_at(table, sender);
    let at = replica::is_active_at(table, to);
    let wrong = match name {
        AG => !from || !at,
        UP => !from || at,
        _ => false,
    };
    sender == to || wrong
}

// HISTORY or SWITCH of a number that is not filed yet.
fn names_unfiled(histories: usize, content: Content) -> bool
    ensures { result ≡ names_unfiled histories content }
{
    match content {
        Content::History(number) | Content::Switch(number) => histories <= number as usize,
        _ => false,
    }
}

// What an event is decided by: the record of the replica concerned, and what is read of the room.
#[derive(Clone, Copy)]
struct Seen<'a> {
    p: &'a Replica,
    desk: &'a Desk,
    roles: &'a Roles,
    submissions: &'a Submissions,
    histories: &'a Histories,
    book: &'a Book,
}

impl Seen<'_> {
    // The submitted requests.
    fn submitted(&self) -> &[u32]
        ensures { result.now ≡ take self.now.desk.now.submitted self.now.submissions.now.requests }
    {
        terms::first(&self.submissions.requests, self.desk.submitted)
    }

    // ---- events of the client and of faulty replicas

    // Kind 1: already submitted; 64 submitted.
    #[tactic(auto, unfolding(rules::specs::Submit::decide_submit, rules::specs::Outcome::refuse_if))]
    fn submit(&self, request: u32) -> Decision
        ensures { result ≡ decide_submit (λ q. holds q (take self.now.desk.now.submitted self.now.submissions.now.requests)) self.now.desk.now.submitted request }
    {
        if terms::holds(self.submitted(), request) {
            return Err(Refusal::AlreadySubmitted);
        }
        if REQUESTS <= self.desk.submitted {
            return Err(Refusal::SubmissionsFull);
        }
        Ok(Deed::Submit(request))
    }

    // Kind 2: not faulty; an unfiled history named; the counter full.
    #[tactic(auto, unfolding(rules::specs::Submit::decide_issue, ledger::specs::Ledger::total_of, rules::specs::Outcome::refuse_if))]
    fn issue(&self, x: usize, name: usize, content: Content) -> Decision
        ensures { result ≡ decide_issue self.now.p.now.condition self.now.desk.now.histories (total_of self.now.book.now x name) x name content }
    {
        if self.p.condition != Condition::Faulty {
            return Err(Refusal::NotFaulty);
        }
        if names_unfiled(self.desk.histories, content) {
            return Err(Refusal::Unexpected);
        }
        if PLACES <= self.book.total(x, name) {
            return Err(Refusal::CounterFull);
        }
        Ok(Deed::Issue(x, name, content))
    }

    // Kind 8: events 8 have filed seven.
    #[tactic(auto, unfolding(rules::specs::Submit::decide_file, rules::specs::Outcome::refuse_if))]
    fn file(&self, j: u32, k: u32) -> Decision
        ensures { result ≡ decide_file self.now.desk.now.filed j k }
    {
        if FILED <= self.desk.filed {
            return Err(Refusal::FilesFull);
        }
        Ok(Deed::File(j, k))
    }

    // ---- a delivered content

    // A request that is submitted and that the receiver has not noted yet.
    fn is_new(&self, request: u32) -> bool
        ensures { result ≡ is_new_in self.now.p.now self.now.desk.now self.now.submissions.now request }
    {
        let noted = terms::first(&self.p.noted, self.p.count);
        terms::holds(self.submitted(), request) && !terms::holds(noted, request)
    }

    // From the leader: PREPARE of a new request.
    #[tactic(auto, unfolding(rules::specs::Deliver::decide_prepare, rules::specs::Reading::same_content, rules::specs::Outcome::refuse_if))]
    fn prepare(&self, sender: usize, value: u32, content: Content) -> Decision
        ensures { result ≡ decide_prepare (is_new_in self.now.p.now self.now.desk.now self.now.submissions.now) sender value (Some content) }
    {
        match content {
            Content::Prepare(request) if self.is_new(request) => {
                Ok(Deed::Act(Act::Prepare(sender, value, request)))
            }
            _ => Err(Refusal::Unexpected),
        }
    }

    // From another active replica: COMMIT of the receiver's noted request of that value, which must exist.
    #[tactic(auto, unfolding(rules::specs::Deliver::decide_commit, rules::specs::Reading::same_content, rules::specs::Outcome::refuse_if))]
    fn commit(&self, sender: usize, value: u32, content: Content) -> Decision
        ensures { result ≡ decide_commit self.now.p.now.count (entry_at self.now.p.now.noted) sender value (Some content) }
    {
        let is_noted = value as usize <= self.p.count;
        let noted = entry_at(&self.p.noted, value);
        match content {
            Content::Commit(request, named) if is_noted && request == noted && named == value => {
                Ok(Deed::Act(Act::Commit(sender, value)))
            }
            _ => Err(Refusal::Unexpected),
        }
    }

    // A pair that the receiver has noted: UPDATE equal to it.
    #[tactic(auto, unfolding(rules::specs::Deliver::decide_pair, rules::specs::Reading::same_content, rules::specs::Outcome::refuse_if))]
    fn known_pair(&self, sender: usize, value: u32, content: Content) -> Decision
        ensures { result ≡ decide_pair (entry_at self.now.p.now.noted) (entry_at self.now.p.now.marks) sender value (Some content) }
    {
        let noted = entry_at(&self.p.noted, value);
        let marked = entry_at(&self.p.marks, value);
        match content {
            Content::Update(request, mark) if request == noted && mark == marked => {
                Ok(Deed::Act(Act::KnownPair(sender, value)))
            }
            _ => Err(Refusal::Unexpected),
        }
    }

    // A pair that the receiver has not noted: UPDATE of a new request.
    #[tactic(auto, unfolding(rules::specs::Deliver::decide_update, rules::specs::Reading::same_content, rules::specs::Outcome::refuse_if))]
    fn new_pair(&self, sender: usize, value: u32, content: Content) -> Decision
        ensures { result ≡ decide_update (is_new_in self.now.p.now self.now.desk.now self.now.submissions.now) sender value (Some content) }
    {
        match content {
            Content::Update(request, mark) if self.is_new(request) => {
                Ok(Deed::Act(Act::NewPair(sender, value, request, mark)))
            }
            _ => Err(Refusal::Unexpected),
        }
    }

    // On sw: SWITCH of the history that the receiver holds.
    #[tactic(auto, unfolding(rules::specs::Deliver::decide_sw, rules::specs::Reading::same_content, rules::specs::Outcome::refuse_if))]
    fn switch(&self, sender: usize, value: u32, content: Content) -> Decision
        ensures { result ≡ decide_sw self.now.p.now.held sender value (Some content) }
    {
        match content {
            Content::Switch(history) if self.p.held == Some(history) => {
                Ok(Deed::Act(Act::Switch(sender, value)))
            }
            _ => Err(Refusal::Unexpected),
        }
    }

    // What is expected, by the counter's name.
    #[tactic(auto, unfolding(rules::specs::Deliver::decide_content, rules::specs::Deliver::decide_ag, rules::specs::Deliver::decide_up))]
    fn on_content(&self, sender: usize, name: usize, value: u32, content: Content) -> Decision
        ensures { result ≡ decide_content (sight_in self.now.p.now self.now.desk.now self.now.roles.now self.now.submissions.now) sender name value (Some content) }
    {
        match name {
            AG if sender == self.roles.leader => self.prepare(sender, value, content),
            AG => self.commit(sender, value, content),
            UP if value as usize <= self.p.count => self.known_pair(sender, value, content),
            UP => self.new_pair(sender, value, content),
            _ => self.switch(sender, value, content),
        }
    }

    // Kind 3 once the certificate is known to be issued: too late; on sw to a receiver that holds no history; roles; not the next value;
    // then the content.
    #[tactic(auto, unfolding(rules::specs::Deliver::decide_receive, replica::specs::Record::active_in, replica::specs::Record::accepted_in, rules::specs::Outcome::refuse_if))]
    fn receive(
        &self,
        sender: usize,
        name: usize,
        value: u32,
        to: usize,
        content: Content,
    ) -> Decision
        ensures { result ≡ decide_receive (sight_in self.now.p.now self.now.desk.now self.now.roles.now self.now.submissions.now) (active_in self.now.roles.now.table) (accepted_in self.now.p.now.accepted sender name) (record { sender = sender; name = name; value = value; to = to }) (Some content) }
    {
        if is_too_late(name, self.p.condition) {
            return Err(Refusal::TooLate);
        }
        if name == SW && self.p.held.is_none() {
            return Err(Refusal::TooEarly);
        }
        if has_wrong_roles(&self.roles.table, sender, name, to) {
            return Err(Refusal::WrongRoles);
        }
        let last = self.p.accepted_of(sender, name) as usize;
        if !ledger::is_next(value, last) {
            return Err(Refusal::NotNext);
        }
        self.on_content(sender, name, value, content)
    }

    // Kind 3: receiver faulty; not issued; then what the receiver makes of it.
    #[tactic(auto, unfolding(rules::specs::Deliver::decide_deliver, replica::specs::Record::active_in, replica::specs::Record::accepted_in, rules::specs::Outcome::refuse_if))]
    fn deliver(&self, sender: usize, name: usize, value: u32, to: usize) -> Decision
        ensures { result ≡ decide_deliver (sight_in self.now.p.now self.now.desk.now self.now.roles.now self.now.submissions.now) (active_in self.now.roles.now.table) (accepted_in self.now.p.now.accepted sender name) (record { sender = sender; name = name; value = value; to = to }) (content_on self.now.book.now sender name value) }
    {
        if self.p.condition == Condition::Faulty {
            return Err(Refusal::ReceiverFaulty);
        }
        let found = self.book.look_up(sender, name, value);
        let content = found.ok_or(Refusal::NotIssued)?;
        self.receive(sender, name, value, to, content)
    }

    // ---- the way to the fall-back

    // Kind 4 once both certificates are known to be issued, the one on ag of history h: too late; too early; roles; not valid.
    #[tactic(auto, unfolding(rules::specs::Switching::decide_hold, rules::specs::Outcome::refuse_if))]
    fn hold(&self, first: u32, second: u32, to: usize, h: u32) -> Decision
        ensures { result ≡ decide_hold self.now.p.now.condition self.now.p.now.held (valid_in self.now.desk.now self.now.roles.now self.now.submissions.now self.now.histories.now self.now.book.now first second h) self.now.roles.now.switcher to h }
    {
        if self.p.held.is_some() || self.p.condition == Condition::Closed {
            return Err(Refusal::TooLate);
        }
        if self.p.condition == Condition::Running {
            return Err(Refusal::TooEarly);
        }
        if to == self.roles.switcher {
            return Err(Refusal::WrongRoles);
        }
        if !validity::is_valid(
            self.book,
            self.roles,
            self.submitted(),
            self.histories,
            self.desk.histories,
            h,
            first,
            second,
        ) {
            return Err(Refusal::NotValid);
        }
        Ok(Deed::Act(Act::Hand(h)))
    }

    // Kind 4: receiver faulty; either certificate not issued, the one on ag with value `first`, the one on up with value `second`; then
    // whether the history is held.
    #[tactic(auto, unfolding(rules::specs::Switching::decide_hand, rules::specs::Outcome::refuse_if))]
    fn hand(&self, first: u32, second: u32, to: usize) -> Decision
        ensures { result ≡ decide_hand self.now.p.now.condition self.now.p.now.held (handing_in self.now.desk.now self.now.roles.now self.now.submissions.now self.now.histories.now self.now.book.now first second to) }
    {
        if self.p.condition == Condition::Faulty {
            return Err(Refusal::ReceiverFaulty);
        }
        let on_ag = self.book.look_up(self.roles.switcher, AG, first);
        let on_up = self.book.look_up(self.roles.switcher, UP, second);
        let content = on_ag.ok_or(Refusal::NotIssued)?;
        on_up.ok_or(Refusal::NotIssued)?;
        self.hold(first, second, to, ledger::first_of(content))
    }

    // Kind 5: receiver faulty; halted or closed.
    #[tactic(auto, unfolding(rules::specs::Switching::decide_panic, rules::specs::Outcome::refuse_if))]
    fn panic(&self) -> Decision
        ensures { result ≡ decide_panic self.now.p.now.condition }
    {
        match self.p.condition {
            Condition::Running => Ok(Deed::Act(Act::Panic)),
            Condition::Halted | Condition::Closed => Err(Refusal::TooLate),
            Condition::Faulty => Err(Refusal::ReceiverFaulty),
        }
    }

    // Kind 7: the switch leader faulty, running, or holding a history. j is its settled count, k its ag total.
    #[tactic(auto, unfolding(rules::specs::Switching::decide_build, replica::specs::Record::settled_in, ledger::specs::Ledger::total_of, rules::specs::Outcome::refuse_if))]
    fn build(&self) -> Decision
        ensures { result ≡ decide_build self.now.p.now.condition self.now.p.now.held (settled_in self.now.p.now.accepted self.now.roles.now.table self.now.roles.now.leader self.now.roles.now.switcher (total_of self.now.book.now self.now.roles.now.switcher ag)) (total_of self.now.book.now self.now.roles.now.switcher ag) }
    {
        match self.p.condition {
            Condition::Halted | Condition::Closed if self.p.held.is_none() => {
                let k = self.book.total(self.roles.switcher, AG);
                let j = self.p.settled_count(self.roles, self.roles.switcher, k);
                Ok(Deed::Build(j, k))
            }
            _ => Err(Refusal::CannotBuild),
        }
    }
}

// What an event comes to: a refusal, by the answers in their order, or what is to be done. `p` is the record of the replica concerned.
#[tactic(auto, unfolding(crate::specs::Decided::decide_on))]
pub fn decide(
    event: Event,
    p: &Replica,
    desk: &Desk,
    roles: &Roles,
    submissions: &Submissions,
    histories: &Histories,
    book: &Book,
) -> Decision
    ensures { result ≡ decide_on event p.now desk.now roles.now submissions.now histories.now book.now }
{
    let seen = Seen {
        p,
        desk,
        roles,
        submissions,
        histories,
        book,
    };
    match event {
        Event::Submit(request) => seen.submit(request),
        Event::Issue(x, name, content) => seen.issue(x, name, content),
        Event::Deliver(sender, name, value, to) => seen.deliver(sender, name, value, to),
        Event::Hand(first, second, to) => seen.hand(first, second, to),
        Event::Panic(_) => seen.panic(),
        Event::Idle => Ok(Deed::Idle),
        Event::Build => seen.build(),
        Event::File(j, k) => seen.file(j, k),
    }
}

// The paper's number of what was decided: 0, or the refusal's.
pub fn answer_of(decision: Decision) -> u32
    ensures { result ≡ answer_number (answer_of decision) }
{
    match decision {
        Ok(_) => 0,
        Err(refusal) => u32::from(refusal),
    }
}
