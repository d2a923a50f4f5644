//! Who holds tokens of one block.
ghost use Rattle.std.specs.Prelude.{◌≡◌, ℕ, ◌^◌, cond, ◌==◌};
ghost use Rattle.std.specs.Int.{bit_at};
ghost use Rattle.book.specs.Holdings.{Lowest};
ghost use Rattle.further.specs.Held.{tokens_of, TakenBy};

use book::{Take, Thread};
use fault::Fault;

/// Either some threads hold one token each or one thread holds all: no other holding can be written down.
#[derive(Clone, Copy, PartialEq, Eq)]
pub(crate) enum Holders {
    /// bit t for thread t
    Readers(u16),
    Writer(Thread),
}

impl Holders {
    pub(crate) fn tokens(self, thread: Thread) -> u64
        ensures { result ≡ tokens_of self thread.number }
    {
        match self {
            Holders::Readers(set) => (set >> thread.index() & 1) as u64,
            Holders::Writer(writer) => { if writer == thread { 64 } else { 0 } }
        }
    }

    /// The holders after a take by the thread, or the refusal that names the lowest-numbered thread in the way.
    #[tactic(auto, using(crate::proofs::Sets::takes))]
    pub(crate) fn taken(self, take: Take, thread: Thread) -> Result<Holders, Fault>
        ensures { TakenBy take self thread.number result }
    {
        match (self, take) {
            (Holders::Readers(set), Take::Load) => Ok(Holders::Readers(set | bit_of(thread))),
            (Holders::Readers(set), Take::Store) => match lowest(without(set, thread)) {
                Some(other) => Err(take.refused_by(other)),
                None => Ok(Holders::Writer(thread)),
            },
            (Holders::Writer(writer), _) => {
                if writer == thread {
                    Ok(self)
                } else {
                    Err(take.refused_by(writer.number()))
                }
            }
        }
    }

    /// The holders once the thread has given back all that it held.
    pub(crate) fn without(self, thread: Thread) -> Holders
        ensures { (t : ℕ) → tokens_of result t ≡ cond (t == thread.number) 0 (tokens_of self t) }
    {
        match self {
            Holders::Readers(set) => Holders::Readers(without(set, thread)),
            Holders::Writer(writer) => {
                if writer == thread {
                    Holders::Readers(0)
                } else {
                    self
                }
            }
        }
    }
}

/// The set of one thread.
fn bit_of(thread: Thread) -> u16
    ensures { result ≡ 2 ^ thread.number }
{
    1 << thread.index()
}

#[tactic(auto, using(crate::proofs::Sets::bit_cleared))]
fn without(set: u16, thread: Thread) -> u16
    ensures { (t : ℕ) → bit_at result t ≡ cond (t == thread.number) 0 (bit_at set t) }
{
    set & !bit_of(thread)
}

/// The lowest-numbered thread of a set.
#[tactic(auto, using(crate::proofs::Sets::lowest_bit))]
fn lowest(set: u16) -> Option<u64>
    ensures { Lowest (λ t. bit_at set t == 1) 16 result }
{
    if set == 0 {
        None
    } else {
        Some(set.trailing_zeros() as u64)
    }
}
