// What the counters have issued, and what is read of it. Each of a room's counters, three for each of at most seven replicas, has 96 places, all
// empty at the start: a place has a content or none. `issued` says how many places of a counter are taken. Nothing above this crate knows the
// layout; others look contents up, compare them, and issue.
#![tactic(auto)]

ghost use Rattle.std.specs.Prelude.{◌≡◌, ◌<◌, suc, eqb, IfSome, Some};
ghost use Rattle.rules.specs.Reading.{is_content, first_of, second_of};
ghost use Rattle.ledger.specs.Ledger.{place_index};

use terms::{COUNTERS, Content, NAMES, PLACES, REPLICAS};

// One counter: its places, and how many values it has issued. The number stands beside an array, since document 01 asks for 96 places and
// memory is fixed.
#[derive(Clone, Copy)]
pub struct Counter {
    pub places: [Option<Content>; PLACES],
    pub issued: usize,
}

// The counters, three for each replica.
#[derive(Clone, Copy)]
pub struct Book {
    pub counters: [Counter; COUNTERS],
}

// The row of a replica's counter of this name, if there is one.
#[tactic(auto, unfolding(crate::specs::Ledger::place_index))]
fn place_index(replica: usize, name: usize) -> Option<usize>
    ensures row { result ≡ place_index replica name }
    ensures within { IfSome result (λ c. c < COUNTERS) }
{
    if replica < REPLICAS && name < NAMES {
        Some(NAMES * replica + name)
    } else {
        None
    }
}

impl Book {
    ghost use Rattle.ledger.specs.Ledger.{fresh_book, look_up, content_on, total_of, issue_on};

    // Nothing is issued before the first event: all places are empty, and none is taken.
    pub fn fresh() -> Book
        ensures { result ≡ fresh_book }
    {
        let empty = Counter {
            places: [None; PLACES],
            issued: 0,
        };
        Book {
            counters: [empty; COUNTERS],
        }
    }

    // ---- looking up and issuing

    // How many values a counter has issued.
    #[tactic(auto, unfolding(crate::specs::Ledger::total_of))]
    pub fn total(&self, replica: usize, name: usize) -> usize
        ensures { result ≡ total_of self.now replica name }
    {
        place_index(replica, name).map_or(0, |c| self.counters[c].issued)
    }

    // The content that a counter's value is bound to, or none where it was not issued: value 0 never is.
    #[tactic(auto, unfolding(crate::specs::Ledger::look_up))]
    pub fn look_up(&self, replica: usize, name: usize, value: u32) -> Option<Content>
        ensures { result ≡ look_up self.now replica name value }
    {
        let c = place_index(replica, name)?;
        let v = value as usize;
        if v == 0 || self.counters[c].issued < v || PLACES < v {
            return None;
        }
        self.counters[c].places[v - 1]
    }

    // Binds the counter's next value to a content; a counter with no empty place stays as it is.
    #[tactic(auto, unfolding(crate::specs::Ledger::issue_on))]
    pub fn issue(&mut self, replica: usize, name: usize, content: Content)
        ensures { self.new ≡ issue_on self.old replica name content }
    {
        if let Some(c) = place_index(replica, name) {
            let counter = &mut self.counters[c];
            if counter.issued < PLACES {
                counter.places[counter.issued] = Some(content);
                counter.issued += 1;
            }
        }
    }

    // ---- contents read and compared

    // Whether a counter's value is bound to this content.
    #[tactic(auto, using(crate::specs::ContentLaws::found_eq))]
    pub fn is_content(&self, replica: usize, name: usize, value: u32, content: Content) -> bool
        ensures { result ≡ is_content (content_on self.now replica name value) content }
    {
        self.look_up(replica, name, value) == Some(content)
    }

    // b of what a counter's value is bound to, which is the mark of an UPDATE; 0 where it was not issued.
    pub fn second_at(&self, replica: usize, name: usize, value: u32) -> u32
        ensures { result ≡ second_of (content_on self.now replica name value) }
    {
        self.look_up(replica, name, value).map_or(0, second_of)
    }
}

// ---- contents and values

// Whether a value is the one after the last.
pub fn is_next(value: u32, last: usize) -> bool
    ensures { result ≡ eqb value (suc last) }
{
    value != 0 && (value - 1) as usize == last
}

// What a content speaks of: its a. A function for each of the two words: one that is given the place would be no plainer.
pub fn first_of(content: Content) -> u32
    ensures { result ≡ first_of (Some content) }
{
    let numbers = <[u32; 3]>::from(content);
    numbers[1]
}

// What a content names beside: its b, 0 where it has none.
pub fn second_of(content: Content) -> u32
    ensures { result ≡ second_of (Some content) }
{
    let numbers = <[u32; 3]>::from(content);
    numbers[2]
}
