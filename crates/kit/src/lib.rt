// The reader and the writer of a kit: its bytes, number by number, before the judge.
#![tactic(auto)]

ghost use Rattle.std.specs.Prelude.{◌≡◌, ◌≤◌, length};
ghost use Rattle.kit.specs.Reader.{check_of, taken_at, stretch_at, size_of, settings_in, refusal_of, read_at, Stepped, Stretched, OfKind, RequestsRead};

use grammar::{Judge, Progress, operands};
use number::{Fault, Found};
use terms::{Event, Kind, KitRefusal, REPLICAS, REQUESTS, Requests, Table};

pub mod writer;

// What a kit says before its events: f, 2f+1, the leader, the patience, the table, how many events, and the place of the first.
#[derive(Clone, Copy)]
pub struct Settings {
    pub f: u32,
    pub size: usize,
    pub leader: usize,
    pub patience: u32,
    pub table: Table,
    pub count: usize,
    pub first: usize,
}

// An event with its gap, how many requests it files, and the place of the event after it.
#[derive(Clone, Copy)]
pub struct Next {
    pub gap: u32,
    pub event: Event,
    pub count: usize,
    pub next: usize,
}

// A number that cannot be read, as what refuses a kit.
fn refusal_of(fault: Fault) -> KitRefusal
    ensures { result ≡ refusal_of fault }
{
    match fault {
        Fault::Cut => KitRefusal::Cut,
        Fault::Bad => KitRefusal::Misspelled,
    }
}

// The number at a place, or what refuses a kit that has none there.
fn read(bytes: &[u8], at: usize) -> Result<Found, KitRefusal>
    ensures { result ≡ read_at bytes.now at }
{
    number::read_number(bytes, at).map_err(refusal_of)
}

// What is said of any bytes: each number goes before the judge once it is read.
// The new form is no plainer: a number's place is known only once the one before it is read.
pub fn check(bytes: &[u8]) -> Result<(), KitRefusal>
    ensures { result ≡ check_of bytes.now }
{
    let mut judge = Judge::new();
    let mut at = 0;
    loop {
        let found = read(bytes, at)?;
        at = found.next;
        match judge.feed(found.value)? {
            Progress::More => {}
            Progress::Done if at < bytes.len() => return Err(KitRefusal::Excess),
            Progress::Done => return Ok(()),
        }
    }
}

// The number at a place, or 0 where there is none.
#[tactic(auto, unfolding(crate::specs::Reader::taken_at))]
fn take(bytes: &[u8], at: usize) -> Found
    ensures { result ≡ taken_at bytes.now at }
{
    number::read_number(bytes, at).unwrap_or(Found { value: 0, next: at })
}

// The numbers from a place on, as many as there is room for in what is lent. Gives the place after them.
fn take_into(bytes: &[u8], at: usize, out: &mut [u32]) -> usize
    ensures { Stretched (stretch_at (length out.old) bytes.now at) out.new result }
{
    let mut next = at;
    for slot in out {
        let found = take(bytes, next);
        *slot = found.value;
        next = found.next;
    }
    next
}

// How many replicas there are: 2f+1, where f is at most 3.
fn size_of(f: u32) -> usize
    ensures is { result ≡ size_of f }
    ensures few { result ≤ 7 }
{
    if f > 3 { 0 } else { (f + f + 1) as usize }
}

// The settings, and the place of the first event.
pub fn open(bytes: &[u8]) -> Settings
    ensures { result ≡ settings_in bytes.now }
{
    let f = take(bytes, 0);
    let leader = take(bytes, f.next);
    let patience = take(bytes, leader.next);
    let size = size_of(f.value);
    let mut table = [0; REPLICAS];
    let at = take_into(bytes, patience.next, &mut table[..size]);
    let count = take(bytes, at);
    Settings {
        f: f.value,
        size,
        leader: leader.value as usize,
        patience: patience.value,
        table,
        count: count.value as usize,
        first: count.next,
    }
}

// The requests of a history, with zeros behind them; the other kinds have none and leave the list. Gives the place after them.
fn requests(bytes: &[u8], kind: Kind, at: usize, count: usize, list: &mut Requests) -> usize
    requires { count ≤ 64 }
    ensures { RequestsRead bytes.now kind at count list.old list.new result }
{
    match kind {
        Kind::File => {
            *list = [0; REQUESTS];
            take_into(bytes, at, &mut list[..count])
        }
        _ => at,
    }
}

// What follows a gap and a kind.
fn event_of_kind(bytes: &[u8], gap: u32, kind: Kind, at: usize, list: &mut Requests) -> Next
    ensures { OfKind bytes.now gap kind at list.old list.new result }
{
    let mut ops = [0; 5];
    let row = operands::operands_of(kind);
    let after = take_into(bytes, at, &mut ops[..row.len()]);
    let event = operands::event_of(kind, &ops);
    let count = operands::filed_by(kind, ops[1], ops[2]) as usize;
    let next = requests(bytes, kind, after, count, list);
    Next {
        gap,
        event,
        count,
        next,
    }
}

// The event at a place, and the place of the one after it; the requests that it files go to the list that is lent.
pub fn next_event(bytes: &[u8], at: usize, list: &mut Requests) -> Next
    ensures { Stepped bytes.now at list.old list.new result }
{
    let gap = take(bytes, at);
    let number = take(bytes, gap.next);
    match Kind::try_from(number.value) {
        Err(_) => Next {
            gap: gap.value,
            event: Event::Idle,
            count: 0,
            next: number.next,
        },
        Ok(kind) => event_of_kind(bytes, gap.value, kind, number.next, list),
    }
}
