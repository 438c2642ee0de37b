// What all layers speak of: limits and the names of the counters, contents, conditions, events, and the numbers that are given back; the arrays
// that are lent from one layer to the next; and small functions of numbers and lists.
#![tactic(auto)]

ghost use Rattle.std.specs.Prelude.{◌≡◌, take, ok_or, slice_index};
ghost use Rattle.terms.specs.Numbers.{content_of, content_numbers, kind_of, kind_number, kit_number_of, kit_refusal_number, refusal_number};
ghost use Rattle.terms.specs.Mark.{next_mark};
ghost use Rattle.terms.specs.Kit.{marks_active, marks_faulty};
ghost use Rattle.terms.specs.Lists.{holds};

// ---- limits, as specs/Limits.antt has them, and the names of the counters

// The names of a replica's counters, and how many there are.
pub const AG: usize = 0;

pub const UP: usize = 1;

pub const SW: usize = 2;

pub const NAMES: usize = 3;
// Replicas that a kit can have.
pub const REPLICAS: usize = 7;
// Their counters.
pub const COUNTERS: usize = 21;
// Places of one counter.
pub const PLACES: usize = 96;
// Requests that can be submitted, noted by one replica, or listed in one history.
pub const REQUESTS: usize = 64;
// Histories that can be filed, and how many of them by events 8.
pub const HISTORIES: usize = 8;

pub const FILED: usize = 7;
// Events of a kit.
pub const EVENTS: usize = 4096;

// ---- the arrays that are lent; what is not in use is 0

// One number a replica: 1 if it is active, plus 2 if it is faulty.
pub type Table = [u32; REPLICAS];
// Requests in order: those submitted, those that a replica has noted, those of a history.
pub type Requests = [u32; REQUESTS];
// The ticks of the submissions.
pub type Ticks = [u64; REQUESTS];
// The marks of a passive replica's pairs.
pub type Marks = [u32; REQUESTS];
// The last accepted value of each sender's counters.
pub type Accepted = [u32; COUNTERS];
// The histories, those filed by events 8 and the built one.
pub type Histories = [History; HISTORIES];
// The clock after each event, and the number that it was answered by.
pub type Clocks = [u64; EVENTS];

pub type Answers = [u32; EVENTS];

// ---- what is lent together

// What a kit's settings say of the replicas, with the table, and the patience.
#[derive(Clone, Copy)]
pub struct Roles {
    pub f: u32,
    pub size: usize,
    pub leader: usize,
    pub switcher: usize,
    pub patience: u32,
    pub table: Table,
}

// What clients have submitted: the requests in order, and the ticks of their events. Two arrays, not one of pairs: the requests are searched
// as a list (`holds`).
#[derive(Clone, Copy)]
pub struct Submissions {
    pub requests: Requests,
    pub ticks: Ticks,
}

// One history: j and k, how many requests it lists, and its list: an array with a number beside it, since memory is fixed.
#[derive(Clone, Copy)]
pub struct History {
    pub j: usize,
    pub k: usize,
    pub count: usize,
    pub list: Requests,
}

// ---- words

// What a certificate says. A content's kind, a and b are `<[u32; 3]>::from(content)`.
#[derive(Clone, Copy, PartialEq, Eq)]
pub enum Content {
    // Of a request.
    Prepare(u32),
    // Of a request, naming the leader's ag value.
    Commit(u32, u32),
    // Of a request, with the mark after it.
    Update(u32, u32),
    // Of a history, by its number.
    History(u32),
    // To a history, by its number.
    Switch(u32),
}

// What a replica is doing.
#[derive(Clone, Copy, Debug, PartialEq, Eq)]
pub enum Condition {
    Running,
    Halted,
    Closed,
    Faulty,
}

// The eight kinds of event.
#[derive(Clone, Copy)]
pub enum Kind {
    Submit,
    Issue,
    Deliver,
    Hand,
    Panic,
    Idle,
    Build,
    File,
}

// One event with its operands. The requests of a filed history stand beside it.
#[derive(Clone, Copy)]
pub enum Event {
    // A client submits this request to all active replicas.
    Submit(u32),
    // A faulty replica issues on the counter of this name.
    Issue(usize, usize, Content),
    // Sender, name, value, to: a certificate and its content are delivered.
    Deliver(usize, usize, u32, usize),
    // The ag and the up value of the switch leader's history, to.
    Hand(u32, u32, usize),
    // PANIC reaches one replica.
    Panic(usize),
    Idle,
    // The switch leader builds its history.
    Build,
    // j and k of a filed history.
    File(u32, u32),
}

// What refuses a whole kit.
#[derive(Clone, Copy, Debug, PartialEq, Eq)]
pub enum KitRefusal {
    // The bytes end too soon.
    Cut,
    // A number is spelled wrong.
    Misspelled,
    // f, leader, patience or table wrong.
    WrongSettings,
    // Event count, gap, kind or operand wrong.
    WrongEvent,
    // Bytes after the last event.
    Excess,
    // The writer's buffer is shorter than the kit.
    NoRoom,
    // More bytes than the program reads.
    TooLong,
}

// What refuses an event.
#[derive(Clone, Copy, Debug, PartialEq, Eq)]
pub enum Refusal {
    AlreadySubmitted,
    SubmissionsFull,
    NotFaulty,
    CounterFull,
    NotIssued,
    ReceiverFaulty,
    TooLate,
    TooEarly,
    NotNext,
    WrongRoles,
    Unexpected,
    NotValid,
    FilesFull,
    CannotBuild,
}

// What is to be done where an event is taken. The replica concerned is known beside it.
#[derive(Clone, Copy)]
pub enum Deed {
    // The request is remembered; the leader, if it runs, prepares it.
    Submit(u32),
    // A faulty replica issues on its counter of this name.
    Issue(usize, usize, Content),
    // The replica concerned acts.
    Act(Act),
    Idle,
    // j and k of the history that the switch leader builds.
    Build(usize, usize),
    // j and k of the history that is filed.
    File(u32, u32),
}

// What an event comes to, once it is decided: what is to be done, or a refusal.
pub type Decision = Result<Deed, Refusal>;

// What a replica does at what has reached it: its own record changes, and it may issue on its own counters; nothing else of the room is touched.
#[derive(Clone, Copy)]
pub enum Act {
    // Sender, value, request: it notes and commits the request.
    Prepare(usize, u32, u32),
    // Sender, value: it accepts a COMMIT.
    Commit(usize, u32),
    // Sender, value: it accepts an UPDATE of a pair that it has noted.
    KnownPair(usize, u32),
    // Sender, value, request, mark: it notes the pair.
    NewPair(usize, u32, u32, u32),
    // Sender, value: it accepts a SWITCH.
    Switch(usize, u32),
    // It holds this history.
    Hand(u32),
    // It halts.
    Panic,
}

// A kind, a and b that are no content's.
#[derive(Clone, Copy, Debug, PartialEq, Eq)]
pub struct NoContent;

// The content of a kind, a and b: kinds are 1 to 5, and a b that the kind does not use is 0.
impl TryFrom<[u32; 3]> for Content {
    type Error = NoContent;

    ghost try_from_gives = { λ p r. r ≡ ok_or (content_of (slice_index p 0) (slice_index p 1) (slice_index p 2)) (record {}) };

    #[tactic(auto, unfolding(crate::specs::Numbers::content_of))]
    fn try_from(p: [u32; 3]) -> Result<Content, NoContent> {
        match p {
            [1, a, 0] => Ok(Content::Prepare(a)),
            [2, a, b] => Ok(Content::Commit(a, b)),
            [3, a, b] => Ok(Content::Update(a, b)),
            [4, a, 0] => Ok(Content::History(a)),
            [5, a, 0] => Ok(Content::Switch(a)),
            _ => Err(NoContent),
        }
    }
}

// The kind, a and b of a content.
impl From<Content> for [u32; 3] {
    ghost from_gives = { λ c r. r ≡ content_numbers c };

    fn from(c: Content) -> [u32; 3] {
        match c {
            Content::Prepare(a) => [1, a, 0],
            Content::Commit(a, b) => [2, a, b],
            Content::Update(a, b) => [3, a, b],
            Content::History(a) => [4, a, 0],
            Content::Switch(a) => [5, a, 0],
        }
    }
}

// A number that is no kind's.
#[derive(Clone, Copy, Debug, PartialEq, Eq)]
pub struct NoKind;

// The kind of a number: kinds are 1 to 8.
impl TryFrom<u32> for Kind {
    type Error = NoKind;

    ghost try_from_gives = { λ n r. r ≡ ok_or (kind_of n) (record {}) };

    #[tactic(auto, unfolding(crate::specs::Numbers::kind_of))]
    fn try_from(n: u32) -> Result<Kind, NoKind> {
        match n {
            1 => Ok(Kind::Submit),
            2 => Ok(Kind::Issue),
            3 => Ok(Kind::Deliver),
            4 => Ok(Kind::Hand),
            5 => Ok(Kind::Panic),
            6 => Ok(Kind::Idle),
            7 => Ok(Kind::Build),
            8 => Ok(Kind::File),
            _ => Err(NoKind),
        }
    }
}

// The paper's number of a kind.
impl From<Kind> for u32 {
    ghost from_gives = { λ k n. n ≡ kind_number k };

    fn from(k: Kind) -> u32 {
        match k {
            Kind::Submit => 1,
            Kind::Issue => 2,
            Kind::Deliver => 3,
            Kind::Hand => 4,
            Kind::Panic => 5,
            Kind::Idle => 6,
            Kind::Build => 7,
            Kind::File => 8,
        }
    }
}

// The paper's number of what is said of a kit: 0 where it is accepted.
pub fn number_of_kit(answer: Result<(), KitRefusal>) -> u32
    ensures { result ≡ kit_number_of answer }
{
    match answer {
        Ok(()) => 0,
        Err(refusal) => u32::from(refusal),
    }
}

// The paper's number of a kit's refusal.
impl From<KitRefusal> for u32 {
    ghost from_gives = { λ refusal n. n ≡ kit_refusal_number refusal };

    fn from(refusal: KitRefusal) -> u32 {
        match refusal {
            KitRefusal::Cut => 1,
            KitRefusal::Misspelled => 2,
            KitRefusal::WrongSettings => 3,
            KitRefusal::WrongEvent => 4,
            KitRefusal::Excess => 5,
            KitRefusal::NoRoom => 6,
            KitRefusal::TooLong => 9,
        }
    }
}

// The paper's number of a refusal.
impl From<Refusal> for u32 {
    ghost from_gives = { λ refusal n. n ≡ refusal_number refusal };

    fn from(refusal: Refusal) -> u32 {
        match refusal {
            Refusal::AlreadySubmitted => 11,
            Refusal::SubmissionsFull => 12,
            Refusal::NotFaulty => 13,
            Refusal::CounterFull => 14,
            Refusal::NotIssued => 15,
            Refusal::ReceiverFaulty => 16,
            Refusal::TooLate => 17,
            Refusal::TooEarly => 18,
            Refusal::NotNext => 19,
            Refusal::WrongRoles => 20,
            Refusal::Unexpected => 21,
            Refusal::NotValid => 22,
            Refusal::FilesFull => 23,
            Refusal::CannotBuild => 24,
        }
    }
}

// The mark after one more request: twice the old mark, plus the request, both wrapping at 2^32.
#[tactic(auto, unfolding(crate::specs::Mark::next_mark))]
pub fn next_mark(mark: u32, request: u32) -> u32
    ensures { result ≡ next_mark mark request }
{
    mark.wrapping_add(mark).wrapping_add(request)
}

// ---- small functions of numbers and lists

// Whether a table's number marks an active replica. A function for each of the two words: one that is given the numbers would be no plainer.
pub fn marks_active(n: u32) -> bool
    ensures { result ≡ marks_active n }
{
    matches!(n, 1 | 3)
}

// Whether a table's number marks a faulty replica.
pub fn marks_faulty(n: u32) -> bool
    ensures { result ≡ marks_faulty n }
{
    matches!(n, 2 | 3)
}

// The first n of these requests, or all where there are fewer: memory is fixed, so what is in use of an array is counted beside it.
pub fn first(list: &Requests, n: usize) -> &[u32]
    ensures { result.now ≡ take n list.now }
{
    &list[..n.min(REQUESTS)]
}

// Whether a list holds a request. The newest is looked at first: a repeated request is nearly always a client's second try.
pub fn holds(list: &[u32], request: u32) -> bool
    ensures { result ≡ holds request list.now }
{
    list.iter().rev().any(|&noted| request == noted)
}
