//! The rules of marks: fission and fusion, the debit, the code.
ghost use Rattle.std.specs.Prelude.{◌≡◌, IfOk};
ghost use Rattle.fault.specs.declared.Layer.TheVariants.{Marks};
ghost use Rattle.fault.specs.declared.Refusal.TheVariants.{MarksApart};
ghost use Rattle.marks.specs.Codes.{code_of, copy_code_of};
ghost use Rattle.marks.specs.Rules.{mark_of, split_of, fuse_of, readers_of, state_in, states_in, fused_in};
ghost use Rattle.marks.specs.States.{debit_of, shown_by};
ghost use Rattle.marks.specs.declared.states.Metastate.TheVariants.{Anonymous};

use crate::{Debit, Mark, Metastate};
use fault::{Fault, Layer, Refusal};

/// The code where a board has no copy of a block.
pub const NO_COPY: u64 = 65535;

/// The tokens of a block, all of which a writer takes.
pub const TOKENS: u64 = 64;

const THREADS: u64 = 16;

impl Mark {
    /// The mark of a block that no token was taken from: (0, –).
    pub fn untouched() -> Self
        ensures { result.state ≡ Anonymous 0 }
    {
        Mark {
            state: Metastate::Anonymous(0),
        }
    }

    /// The mark with this metastate, unless its count is above 63 or its thread above 15.
    pub fn new(state: Metastate) -> Option<Self>
        ensures { state_in result ≡ mark_of state }
    {
        let in_range = match state {
            Metastate::Anonymous(count) => count < TOKENS,
            Metastate::Reader(thread) => thread < THREADS,
            Metastate::Writer(thread) => thread < THREADS,
        };
        // not bool::then: its closure is not told the range
        if in_range { Some(Mark { state }) } else { None }
    }

    pub fn state(self) -> Metastate
        ensures { result ≡ self.state }
    {
        self.state
    }

    /// What the mark shows as taken.
    pub fn debit(self) -> Debit
        ensures { result.tokens ≡ debit_of self.state }
    {
        match self.state {
            Metastate::Anonymous(count) => Debit::new(count),
            Metastate::Reader(_) => Debit::new(1),
            Metastate::Writer(_) => Debit::new(TOKENS),
        }
    }

    /// The mark's code, a single number.
    pub fn code(self) -> u64
        ensures { result ≡ code_of self.state }
    {
        match self.state {
            Metastate::Anonymous(count) => count,
            Metastate::Reader(thread) => 16384 + thread,
            Metastate::Writer(thread) => 32768 + thread,
        }
    }

    /// Fission: the mark that stays and the mark of a new copy. Every copy must show a writer;
    /// readers are shown once.
    pub fn split(self) -> (Mark, Mark)
        ensures value { states_in result ≡ split_of self.state }
        ensures conserves { shown_by result.0.state result.1.state ≡ debit_of self.state }
    {
        match self.state {
            Metastate::Writer(_) => (self, self),
            Metastate::Anonymous(_) | Metastate::Reader(_) => (self, Mark::untouched()),
        }
    }

    /// Fusion: the one mark that stands for two copies.
    pub fn fuse(self, other: Mark) -> Result<Mark, Fault>
        ensures value { fused_in result ≡ fuse_of self.state other.state }
        ensures conserves { IfOk result (λ m. debit_of m.state ≡ shown_by self.state other.state) }
    {
        let sum = self.debit().plus(other.debit()).tokens();
        match (self.state, other.state) {
            (Metastate::Writer(x), Metastate::Writer(y)) if x == y => Ok(self),
            (Metastate::Writer(_), _) | (_, Metastate::Writer(_)) => Err(apart(sum)),
            (_, Metastate::Anonymous(0)) => Ok(self),
            (Metastate::Anonymous(0), _) => Ok(other),
            (_, _) => readers(sum),
        }
    }
}

/// The code of a board's copy, or of none.
pub fn copy_code(copy: Option<Mark>) -> u64
    ensures { result ≡ copy_code_of (state_in copy) }
{
    copy.map_or(NO_COPY, Mark::code)
}

/// Two marks that cannot stand for one block together.
fn apart(sum: u64) -> Fault
    ensures { result ≡ record { layer = Marks; refusal = MarksApart sum } }
{
    Layer::Marks.refuses(Refusal::MarksApart(sum))
}

/// Readers of two copies, counted together.
fn readers(sum: u64) -> Result<Mark, Fault>
    ensures { fused_in result ≡ readers_of sum }
{
    Mark::new(Metastate::Anonymous(sum)).ok_or(apart(sum))
}
