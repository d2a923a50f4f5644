//! Marks: what a memory block, or a board's copy of it, shows of the tokens taken from it.
//!
//! Every block has 64 tokens. A transaction takes one to load from the block and all 64 to store
//! to it. TokenTM keeps two books of that: a mark shows a debit (tokens taken from the block), a
//! token log records a credit (tokens that a thread took).
#![tactic(auto)]

ghost use Rattle.std.specs.Prelude.{◌≡◌, true};
ghost use Rattle.marks.specs.States.{in_range};

mod counts;
mod rules;
mod states;

pub use counts::{Count, Credit, Debit, Logged, Shown};
pub use rules::{NO_COPY, TOKENS, copy_code};
pub use states::Metastate;

/// A metastate whose numbers are in range. There is no other mark.
#[derive(Clone, Copy, PartialEq, Eq, Debug)]
pub struct Mark {
    state: Metastate,
    ghost range: { in_range state ≡ true },
}
