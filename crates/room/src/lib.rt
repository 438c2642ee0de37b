// What the player keeps of the room beside the replicas and the counters, and what it leaves of a play.
#![tactic(auto)]

ghost use Rattle.std.specs.Prelude.{◌≡◌};
ghost use Rattle.room.specs.Desk.{fresh_desk, counted_on};

use replica::Replicas;
use terms::{Answers, Clocks, Decision, Deed, HISTORIES, REQUESTS};

pub mod settled;

// The clock, the late tick where it was late, how many of the first submissions are known to be answered, and how many requests were
// submitted, histories filed, and histories filed by events 8.
#[derive(Clone, Copy)]
pub struct Desk {
    pub clock: u64,
    pub late: Option<u64>,
    pub known: usize,
    pub submitted: usize,
    pub histories: usize,
    pub filed: usize,
}

// What is said of each event: the number that it was answered by, and the clock after it. Two arrays, not one of pairs: the printed room reads
// the answers alone.
#[derive(Clone, Copy)]
pub struct Log {
    pub answers: Answers,
    pub clocks: Clocks,
}

// What the loop itself owned when the play ended; the other parts stand in what it was lent.
#[derive(Clone, Copy)]
pub struct Played {
    pub desk: Desk,
    pub replicas: Replicas,
}

impl Desk {
    // Requests that can be submitted.
    pub const REQUESTS_MAX: usize = REQUESTS;
    // Histories that can be filed.
    pub const HISTORIES_MAX: usize = HISTORIES;

    // Before the first event.
    #[tactic(auto, unfolding(crate::specs::Desk::fresh_desk))]
    pub fn fresh() -> Desk
        ensures { result ≡ fresh_desk }
    {
        Desk {
            clock: 0,
            late: None,
            known: 0,
            submitted: 0,
            histories: 0,
            filed: 0,
        }
    }

    // The counts after what was decided is done.
    #[tactic(auto, unfolding(crate::specs::Desk::counted_on))]
    pub fn counted(mut self, decision: Decision) -> Desk
        ensures { result ≡ counted_on self decision }
    {
        match decision {
            Ok(Deed::Submit(_)) if self.submitted < Desk::REQUESTS_MAX => {
                self.submitted += 1;
            }
            Ok(Deed::Build(_, _)) if self.histories < Desk::HISTORIES_MAX => {
                self.histories += 1;
            }
            Ok(Deed::File(_, _))
                if self.histories < Desk::HISTORIES_MAX && self.filed < Desk::HISTORIES_MAX => {
                self.histories += 1;
                self.filed += 1;
            }
            _ => {}
        }
        self
    }
}
