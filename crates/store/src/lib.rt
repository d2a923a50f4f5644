//! The store: jobs over any memory and any book.
//!
//! A job is a transaction: it takes tokens on the blocks that it touches, stores new words in place, notes the old
//! ones in an undo log, and commits, or puts them back.
#![tactic(auto)]

mod calls;
mod made;
mod runs;

use book::Book;
use fault::Fault;
use memory::Memory;
pub use runs::{replay, replay_marked};
use threads::Table;

/// What can be asked of the store. Threads, addresses and words in the order of the call.
#[derive(Clone, Copy, PartialEq, Eq, Debug)]
pub enum Call {
    /// a thread begins a job
    Begin(u64),
    /// thread, address
    Load(u64, u64),
    /// thread, address, word
    Store(u64, u64, u64),
    /// a thread's job takes effect
    Commit(u64),
    /// a thread's job is put back
    Abort(u64),
    /// thread, board: the thread works on that board from now on
    Seat(u64, u64),
    /// board, block: the board gives up its copy of the block's mark
    Drop(u64, u64),
}

/// What a granted call answers.
#[derive(Clone, Copy, PartialEq, Eq, Debug)]
pub enum Answer {
    Done,
    Word(u64),
    /// records dropped, and the figure of the book's release
    Ended(u64, u64),
}

/// A call with a place for its answer.
#[derive(Clone, Copy, PartialEq, Eq, Debug)]
pub struct Turn {
    pub call: Call,
    pub answer: Option<Result<Answer, Fault>>,
}

/// The words in place are the memory's, the holdings are the book's; the table has each thread's state and undo log.
#[derive(Drop)]
pub struct Store<M, B> {
    memory: M,
    book: B,
    table: Table,
}
