// The operands of each kind of event, and what each of them has to be.
ghost use Rattle.std.specs.Prelude.{◌≡◌, ◌≤◌, length};
ghost use Rattle.grammar.specs.Operands.{operands_of, fits, event_of, filed_of, filed_by};

use self::Operand::{Any, B, Content, E, K, Name, Replica, Request};
use terms::{Event, Kind};

// What an operand has to be.
#[derive(Clone, Copy, Debug, PartialEq, Eq)]
pub enum Operand {
    // Any number.
    Any,
    // A replica's number.
    Replica,
    // A counter's name.
    Name,
    // A content kind.
    Content,
    // 0 where the content kind before it has no b.
    B,
    // A request, which is not 0.
    Request,
    // k, at least the j before it.
    K,
    // e, with the k before it at most 64.
    E,
}

// The operands of a kind, the requests of kind 8 apart: document 01's table.
pub fn operands_of(kind: Kind) -> &'static [Operand]
    ensures row { result.now ≡ operands_of kind }
    ensures few { length result.now ≤ 5 }
{
    match kind {
        Kind::Submit => &[Request],
        Kind::Issue => &[Replica, Name, Content, Any, B],
        Kind::Deliver => &[Replica, Name, Any, Replica],
        Kind::Hand => &[Any, Any, Replica],
        Kind::Panic => &[Replica],
        Kind::Idle | Kind::Build => &[],
        Kind::File => &[Any, K, E],
    }
}

impl Operand {
    // Whether a number is what the operand has to be: size is how many replicas there are, ops the first operands before it.
    pub fn fits(self, size: u32, ops: &[u32; 3], n: u32) -> bool
        ensures { result ≡ fits self size ops.now n }
    {
        match self {
            Any => true,
            Replica => n < size,
            Name => n <= 2,
            // Content kinds are 1 to 5.
            Content => matches!(n, 1..=5),
            // A b that is not 0 needs COMMIT or UPDATE before it.
            B => matches!(ops[2], 2..=3) || n == 0,
            Request => n != 0,
            K => ops[0] <= n,
            // k+e does not wrap.
            E => ops[1].saturating_add(n) <= 64,
        }
    }
}

// How many requests k and e file, none where they are more than 64.
#[tactic(auto, unfolding(crate::specs::Operands::filed_of))]
fn filed_of(k: u32, e: u32) -> u32
    ensures { result ≡ filed_of k e }
{
    let filed = k.saturating_add(e);
    if filed <= 64 { filed } else { 0 }
}

// How many requests follow the operands: only kind 8 has some.
pub fn filed_by(kind: Kind, second: u32, third: u32) -> u32
    ensures { result ≡ filed_by kind second third }
{
    match kind {
        Kind::File => filed_of(second, third),
        _ => 0,
    }
}

// What a faulty replica issues, or nothing where the content is none.
fn issue_of(ops: &[u32; 5]) -> Event
    ensures { result ≡ event_of Kind.Issue ops.now }
{
    match terms::Content::try_from([ops[2], ops[3], ops[4]]) {
        Ok(content) => Event::Issue(ops[0] as usize, ops[1] as usize, content),
        Err(_) => Event::Idle,
    }
}

// The event of a kind and its operands.
pub fn event_of(kind: Kind, ops: &[u32; 5]) -> Event
    ensures { result ≡ event_of kind ops.now }
{
    match kind {
        Kind::Submit => Event::Submit(ops[0]),
        Kind::Issue => issue_of(ops),
        Kind::Deliver => {
            Event::Deliver(ops[0] as usize, ops[1] as usize, ops[2], ops[3] as usize)
        }
        Kind::Hand => Event::Hand(ops[0], ops[1], ops[2] as usize),
        Kind::Panic => Event::Panic(ops[0] as usize),
        Kind::Idle => Event::Idle,
        Kind::Build => Event::Build,
        Kind::File => Event::File(ops[0], ops[1]),
    }
}
