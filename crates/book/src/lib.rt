//! Books: which thread holds how many of a block's tokens.
//!
//! A block has 64 tokens. A thread takes one to load from the block and all to store to it, and
//! keeps them until it releases everything that it holds.
#![tactic(auto)]

ghost use Rattle.std.specs.Prelude.{◌≡◌, Ok};
ghost use Rattle.book.specs.Holdings.{Holdings, Sound};
ghost use Rattle.book.specs.Numbers.{number_in};
ghost use Rattle.book.specs.Moves.{Move, loaded, stored, released, seated, dropped};
ghost use Rattle.book.specs.Rules.{by_book, conflict, on_thread, on_board, on_block, load_take, after_load, store_take, after_store, holding_answer, Released, after_release, seat_answer, drop_answer};

use fault::{Fault, Layer, Refusal};
pub use marked::Marked;
pub use numbers::{BlockNumber, Board, Bounded, Thread};

mod marked;
mod numbers;

/// What tokens are taken for.
#[derive(Clone, Copy, PartialEq, Eq, Debug)]
pub enum Take {
    Load,
    Store,
}

impl Take {
    /// The refusal that names the thread in the way.
    pub fn refused_by(self, thread: u64) -> Fault
        ensures { result ≡ by_book (conflict self thread) }
    {
        Layer::Book.refuses(match self {
            Take::Load => Refusal::LoadConflict(thread),
            Take::Store => Refusal::StoreConflict(thread),
        })
    }
}

// One name for each number, since each has a refusal of its own; so none is a TryFrom<u64> either.

/// A thread's number. Refuses one above 15, under the books' letter.
pub fn check_thread(thread: u64) -> Result<Thread, Fault>
    ensures { number_in result ≡ on_thread thread (Ok thread) }
{
    Bounded::new(thread, Refusal::ThreadOutOfRange(thread))
}

/// A board's number. Refuses one above 3.
pub fn check_board(board: u64) -> Result<Board, Fault>
    ensures { number_in result ≡ on_board board (Ok board) }
{
    Bounded::new(board, Refusal::BoardOutOfRange(board))
}

/// A block's number. Refuses one above 63.
pub fn check_block(block: u64) -> Result<BlockNumber, Fault>
    ensures { number_in result ≡ on_block block (Ok block) }
{
    Bounded::new(block, Refusal::BlockOutOfRange(block))
}

/// A book of holdings. Its users know only what stands here.
pub trait Book {
    // the tokens that a thread holds of a block
    ghost holding: { Self → Holdings };

    // what the book itself promises of one call: its marks, its logs, its release figure
    ghost moves: { Self → Move → Self → Type 0 };

    // Two methods for the two takes: each promises a move of its own, and a book with marks does two different things.

    /// Takes one token of the block, unless the thread has one already or another thread has all.
    fn take_for_load(&mut self, thread: u64, block: u64) -> Result<(), Fault>
        ensures answer { result ≡ load_take (holding self.old) thread block }
        ensures after { holding self.new ≡ after_load (holding self.old) thread block }
        ensures own { moves self.old (loaded thread block result) self.new };

    /// Takes all tokens of the block, unless the thread has them already or another thread has any.
    fn take_for_store(&mut self, thread: u64, block: u64) -> Result<(), Fault>
        ensures answer { result ≡ store_take (holding self.old) thread block }
        ensures after { holding self.new ≡ after_store (holding self.old) thread block }
        ensures own { moves self.old (stored thread block result) self.new };

    /// Gives back all that the thread holds. The figure is the book's own, within bounds.
    fn release(&mut self, thread: u64) -> Result<u64, Fault>
        ensures answer { Released (holding self.old) thread result }
        ensures after { holding self.new ≡ after_release (holding self.old) thread }
        ensures own { moves self.old (released thread result) self.new };

    /// How many tokens of the block the thread holds.
    fn held(&self, thread: u64, block: u64) -> Result<u64, Fault>
        ensures answer { result ≡ holding_answer (holding self.now) thread block };

    /// Puts the thread on a board.
    fn seat(&mut self, thread: u64, board: u64) -> Result<(), Fault>
        ensures answer { result ≡ seat_answer thread board }
        ensures after { holding self.new ≡ holding self.old }
        ensures own { moves self.old (seated thread board result) self.new };

    /// Has the board give up its copy of the block.
    fn drop_copy(&mut self, board: u64, block: u64) -> Result<(), Fault>
        ensures answer { result ≡ drop_answer board block }
        ensures after { holding self.new ≡ holding self.old }
        ensures own { moves self.old (dropped board block result) self.new };

    ghost sound: { (k : Self) → Sound (holding k) };
}
