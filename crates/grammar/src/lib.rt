// The grammar of a kit: a judge that takes a kit's numbers one at a time.
#![tactic(auto)]

ghost use Rattle.std.specs.Prelude.{◌≡◌};
ghost use Rattle.grammar.specs.Automaton.{plus_one};

use terms::{Kind, KitRefusal};

pub mod operands;

// What the next number is.
#[derive(Clone, Copy, Debug, PartialEq, Eq)]
pub enum Phase {
    F,
    Leader,
    Patience,
    // A replica of the table.
    Table,
    // The event count.
    Count,
    Gap,
    Kind,
    Operand,
    // A request of kind 8.
    Request,
    // Nothing: the kit is complete.
    Over,
}

// What follows a number that is taken.
#[derive(Clone, Copy, Debug, PartialEq, Eq)]
pub enum Progress {
    More,
    // The kit is complete.
    Done,
}

// What the judge says of a number.
pub type Said = Result<Progress, KitRefusal>;

// The judge: what a kit's numbers so far leave to know. Four fields of a byte and then numbers of four, so that it has no padding.
#[derive(Clone, Copy)]
pub struct Judge {
    pub phase: Phase,
    // The kind of the event at hand, and how many of its operands were read.
    pub kind: Kind,
    pub at: u8,
    // Whether the leader was active.
    pub leads: bool,
    // 2f+1
    pub size: u32,
    // How many replicas of the table are left at the leader's, itself counted.
    pub turn: u32,
    // How many of its replicas are still to come, and how many were active and faulty.
    pub coming: u32,
    pub active: u32,
    pub faulty: u32,
    // How many events are left, the one at hand counted.
    pub left: u32,
    // The first three operands of the event at hand.
    pub ops: [u32; 3],
    // How many requests of kind 8 are left.
    pub requests: u32,
}

// One more where the test holds, as far as 32 bits go.
#[tactic(auto, unfolding(crate::specs::Automaton::plus_one))]
fn plus_one(holds: bool, x: u32) -> u32
    ensures { result ≡ plus_one holds x }
{
    if holds { x.saturating_add(1) } else { x }
}

impl Judge {
    ghost use Rattle.std.specs.Prelude.{◌<◌};
    ghost use Rattle.grammar.specs.Automaton.{Made, state_of, judge_of, tally_of, pending_of, with_tally, with_pending, begun, kept, at_f, at_leader, at_patience, at_table, tallied, table_done, at_count, at_gap, at_kind, operand_goes, filing, at_operand, at_request, completed, feed_of, fresh};

    // Before a kit's first number.
    #[tactic(auto, unfolding(crate::specs::Automaton::fresh))]
    pub fn new() -> Judge
        ensures { result ≡ fresh }
    {
        Judge {
            phase: Phase::F,
            kind: Kind::Idle,
            at: 0,
            leads: false,
            size: 0,
            turn: 0,
            coming: 0,
            active: 0,
            faulty: 0,
            left: 0,
            ops: [0; 3],
            requests: 0,
        }
    }

    // What is said of the next number; the judge is then the one after it.
    #[tactic(auto, unfolding(crate::specs::Automaton::feed_of))]
    pub fn feed(&mut self, n: u32) -> Said
        ensures said { result ≡ (feed_of self.old n).said }
        ensures judge { self.new ≡ (feed_of self.old n).judge }
    {
        match self.phase {
            Phase::F => self.at_f(n),
            Phase::Leader => self.at_leader(n),
            Phase::Patience => self.at_patience(n),
            Phase::Table => self.at_table(n),
            Phase::Count => self.at_count(n),
            Phase::Gap => self.at_gap(n),
            Phase::Kind => self.at_kind(n),
            Phase::Operand => self.at_operand(n),
            Phase::Request => self.at_request(n),
            Phase::Over => Err(KitRefusal::Excess),
        }
    }

    // f is 1 to 3.
    #[tactic(auto, unfolding(crate::specs::Automaton::at_f))]
    fn at_f(&mut self, n: u32) -> Said
        requires { self.old.phase ≡ Phase.F }
        ensures { Made (at_f (state_of self.old) n) self.new result }
    {
        if !matches!(n, 1..=3) {
            return Err(KitRefusal::WrongSettings);
        }
        self.size = n + n + 1;
        self.phase = Phase::Leader;
        Ok(Progress::More)
    }

    // The leader is one of the replicas.
    #[tactic(auto, unfolding(crate::specs::Automaton::at_leader))]
    fn at_leader(&mut self, n: u32) -> Said
        requires { self.old.phase ≡ Phase.Leader }
        ensures { Made (at_leader (state_of self.old) n) self.new result }
    {
        if n >= self.size {
            return Err(KitRefusal::WrongSettings);
        }
        self.turn = self.size - n;
        self.phase = Phase::Patience;
        Ok(Progress::More)
    }

    // The patience is 1 to 2^28-1 ticks.
    #[tactic(auto, unfolding(crate::specs::Automaton::at_patience))]
    fn at_patience(&mut self, n: u32) -> Said
        requires { self.old.phase ≡ Phase.Patience }
        ensures { Made (at_patience (state_of self.old) n) self.new result }
    {
        if !matches!(n, 1..=0xfff_ffff) {
            return Err(KitRefusal::WrongSettings);
        }
        self.coming = self.size;
        self.active = 0;
        self.faulty = 0;
        self.leads = false;
        self.phase = Phase::Table;
        Ok(Progress::More)
    }

    // A replica's number is 1 if active, plus 2 if faulty.
    #[tactic(auto, unfolding(crate::specs::Automaton::at_table))]
    fn at_table(&mut self, n: u32) -> Said
        requires { self.old.phase ≡ Phase.Table }
        ensures { Made (at_table (state_of self.old) n) self.new result }
    {
        if n > 3 {
            return Err(KitRefusal::WrongSettings);
        }
        self.count(n);
        if self.coming > 0 {
            return Ok(Progress::More);
        }
        self.table_done()
    }

    // Counts one more replica of the table.
    #[tactic(auto, unfolding(crate::specs::Automaton::tallied))]
    fn count(&mut self, n: u32)
        ensures { self.new ≡ judge_of self.old.phase (with_tally (state_of self.old) (tallied (tally_of self.old) self.old.turn n)) }
    {
        let active = terms::marks_active(n);
        self.leads = self.leads || active && self.coming == self.turn;
        self.coming = self.coming.saturating_sub(1);
        self.active = plus_one(active, self.active);
        self.faulty = plus_one(terms::marks_faulty(n), self.faulty);
    }

    // After the table's last replica: the leader is active, f+1 are active, at most f faulty.
    #[tactic(auto, unfolding(crate::specs::Automaton::table_done))]
    fn table_done(&mut self) -> Said
        requires { self.old.phase ≡ Phase.Table }
        ensures { Made (table_done (state_of self.old)) self.new result }
    {
        let f = self.size / 2;
        if !self.leads || self.active != f + 1 || self.faulty > f {
            return Err(KitRefusal::WrongSettings);
        }
        self.phase = Phase::Count;
        Ok(Progress::More)
    }

    // At most 4,096 events.
    #[tactic(auto, unfolding(crate::specs::Automaton::at_count))]
    fn at_count(&mut self, n: u32) -> Said
        requires { self.old.phase ≡ Phase.Count }
        ensures { Made (at_count (state_of self.old) n) self.new result }
    {
        if n > 4096 {
            return Err(KitRefusal::WrongEvent);
        }
        if n == 0 {
            self.phase = Phase::Over;
            return Ok(Progress::Done);
        }
        self.left = n;
        self.phase = Phase::Gap;
        Ok(Progress::More)
    }

    // A gap is 0 to 2^28-1 ticks.
    #[tactic(auto, unfolding(crate::specs::Automaton::at_gap))]
    fn at_gap(&mut self, n: u32) -> Said
        requires { self.old.phase ≡ Phase.Gap }
        ensures { Made (at_gap (state_of self.old) n) self.new result }
    {
        if n > 0xfff_ffff {
            return Err(KitRefusal::WrongEvent);
        }
        self.phase = Phase::Kind;
        Ok(Progress::More)
    }

    // A kind is 1 to 8.
    #[tactic(auto, unfolding(crate::specs::Automaton::at_kind))]
    fn at_kind(&mut self, n: u32) -> Said
        requires { self.old.phase ≡ Phase.Kind }
        ensures { Made (at_kind (state_of self.old) n) self.new result }
    {
        match Kind::try_from(n) {
            Err(_) => Err(KitRefusal::WrongEvent),
            Ok(kind) => {
                self.kind = kind;
                self.at = 0;
                self.ops = [0; 3];
                self.operand_goes()
            }
        }
    }

    // An operand is what the table has at its place.
    #[tactic(auto, unfolding(crate::specs::Automaton::at_operand, crate::specs::Operands::operand_of))]
    fn at_operand(&mut self, n: u32) -> Said
        requires { self.old.phase ≡ Phase.Operand }
        ensures { Made (at_operand (state_of self.old) n) self.new result }
    {
        let row = operands::operands_of(self.kind);
        let at = self.at as usize;
        if at >= row.len() || !row[at].fits(self.size, &self.ops, n) {
            return Err(KitRefusal::WrongEvent);
        }
        self.keep(n);
        self.operand_goes()
    }

    // One more operand of the event; the first three are kept.
    fn keep(&mut self, n: u32)
        requires { self.old.at < 255 }
        ensures { self.new ≡ judge_of self.old.phase (with_pending (state_of self.old) (kept (pending_of self.old) n)) }
    {
        match self.at {
            0 => self.ops[0] = n,
            1 => self.ops[1] = n,
            2 => self.ops[2] = n,
            _ => {}
        }
        self.at += 1;
    }

    // To the next operand, if there is one.
    #[tactic(auto, unfolding(crate::specs::Automaton::operand_goes))]
    fn operand_goes(&mut self) -> Said
        ensures { Made (operand_goes (state_of self.old)) self.new result }
    {
        if (self.at as usize) < operands::operands_of(self.kind).len() {
            self.phase = Phase::Operand;
            return Ok(Progress::More);
        }
        self.file()
    }

    // The operands are complete: kind 8 has its requests still to come.
    #[tactic(auto, unfolding(crate::specs::Automaton::filing))]
    fn file(&mut self) -> Said
        ensures { Made (filing (state_of self.old)) self.new result }
    {
        let requests = operands::filed_by(self.kind, self.ops[1], self.ops[2]);
        if requests == 0 {
            return self.complete();
        }
        self.requests = requests;
        self.phase = Phase::Request;
        Ok(Progress::More)
    }

    // A request is not 0.
    #[tactic(auto, unfolding(crate::specs::Automaton::at_request))]
    fn at_request(&mut self, n: u32) -> Said
        requires { self.old.phase ≡ Phase.Request }
        ensures { Made (at_request (state_of self.old) n) self.new result }
    {
        if n == 0 {
            return Err(KitRefusal::WrongEvent);
        }
        if self.requests <= 1 {
            return self.complete();
        }
        self.requests -= 1;
        Ok(Progress::More)
    }

    // An event is complete.
    #[tactic(auto, unfolding(crate::specs::Automaton::completed))]
    fn complete(&mut self) -> Said
        ensures { Made (completed (state_of self.old)) self.new result }
    {
        if self.left <= 1 {
            self.phase = Phase::Over;
            return Ok(Progress::Done);
        }
        self.left -= 1;
        self.phase = Phase::Gap;
        Ok(Progress::More)
    }
}
