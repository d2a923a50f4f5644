//! What one thread holds of one block.
ghost use Rattle.std.specs.Prelude.{◌≡◌, nat_le};
ghost use Rattle.book.specs.Holdings.{wanted, barred_by};
ghost use Rattle.full.specs.Held.{tokens_of};

use book::Take;

#[derive(Clone, Copy, PartialEq, Eq, PartialOrd, Ord)]
pub(crate) enum Holding {
    Nothing,
    One,
    All,
}

// What a granted take leaves its thread with.
impl From<Take> for Holding {
    ghost from_gives = { λ take holding. tokens_of holding ≡ wanted take };

    fn from(take: Take) -> Holding {
        match take {
            Take::Load => Holding::One,
            Take::Store => Holding::All,
        }
    }
}

impl Holding {
    pub(crate) fn tokens(self) -> u64
        ensures { result ≡ tokens_of self }
    {
        match self {
            Holding::Nothing => 0,
            Holding::One => 1,
            Holding::All => 64,
        }
    }

    /// Whether its own thread may go on without taking more.
    pub(crate) fn suffices(self, take: Take) -> bool
        ensures { result ≡ nat_le (wanted take) (tokens_of self) }
    {
        self >= Holding::from(take)
    }

    /// Whether it refuses the take to any other thread.
    pub(crate) fn bars(self, take: Take) -> bool
        ensures { result ≡ nat_le (barred_by take) (tokens_of self) }
    {
        let least = match take {
            Take::Load => Holding::All,
            Take::Store => Holding::One,
        };
        self >= least
    }
}
