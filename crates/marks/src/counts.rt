//! Two kinds of token count. A debit is made by a mark alone, a credit as what a token log records.
//! A debit is compared with a credit, and a release takes a credit off a debit; the types allow
//! nothing else between them. The number that is read off either is an ordinary number, and no call
//! outside this crate makes a count from one.
ghost use Rattle.std.specs.Prelude.{◌≡◌, ◌-◌, ◌↔◌, IsTrue};
ghost use Rattle.marks.specs.Counts.{sum_of};

use crate::TOKENS;
use std::marker::PhantomData;

/// A count of tokens, on one side of a book.
#[derive(Clone, Copy, PartialEq, Eq, Debug)]
pub struct Count<Side> {
    tokens: u64,
    side: PhantomData<Side>,
}

/// The side of the marks.
#[derive(Clone, Copy, PartialEq, Eq, Debug)]
pub struct Shown;

/// The side of the token logs.
#[derive(Clone, Copy, PartialEq, Eq, Debug)]
pub struct Logged;

/// Tokens that marks show as taken from a block.
pub type Debit = Count<Shown>;

/// Tokens that a log records as taken by a thread.
pub type Credit = Count<Logged>;

impl<Side> Count<Side> {
    /// For this crate alone: a mark makes debits by it, and the makers of a credit stand below.
    pub(crate) fn new(tokens: u64) -> Self
        ensures { result.tokens ≡ tokens }
    {
        Count {
            tokens,
            side: PhantomData,
        }
    }

    pub fn tokens(self) -> u64
        ensures { result ≡ self.tokens }
    {
        let Self { tokens, .. } = self;
        tokens
    }

    /// What two marks show together, or two records give; held at the largest 64-bit number.
    pub fn plus(self, other: Self) -> Self
        ensures { result.tokens ≡ sum_of self.tokens other.tokens }
    {
        Count::new(self.tokens.saturating_add(other.tokens))
    }
}

impl Debit {
    /// Whether the debit is as large as the credit: `==` compares values of one type alone.
    pub fn equals(&self, other: &Credit) -> bool
        ensures { IsTrue result ↔ (self.now.tokens ≡ other.now.tokens) }
    {
        self.tokens == other.tokens
    }

    /// The debit that is left when a thread releases its credit: 0 where the credit is larger.
    pub fn less(self, released: Credit) -> Debit
        ensures { result.tokens ≡ self.tokens - released.tokens }
    {
        Count::new(self.tokens.saturating_sub(released.tokens))
    }
}

impl Credit {
    /// No tokens.
    pub fn none() -> Credit
        ensures { result.tokens ≡ 0 }
    {
        Count::new(0)
    }

    /// The token that a load takes.
    pub fn one() -> Credit
        ensures { result.tokens ≡ 1 }
    {
        Count::new(1)
    }

    /// All tokens of a block, which a store needs.
    pub fn all() -> Credit
        ensures { result.tokens ≡ 64 }
    {
        Count::new(TOKENS)
    }

    /// What a store takes beside the credit that is there: 0 where that is above 64.
    pub fn rest(self) -> Credit
        ensures { result.tokens ≡ 64 - self.tokens }
    {
        Count::new(TOKENS.saturating_sub(self.tokens))
    }
}
