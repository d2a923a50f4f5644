//! The board book: tokens are shown by marks on the boards and recorded in token logs, after
//! TokenTM.
#![tactic(auto)]

ghost use Rattle.std.specs.Prelude.{◌≡◌};
ghost use Rattle.book.specs.Marking.{Marking};
ghost use Rattle.book.specs.Picture.{fresh_picture, holdings_of};
ghost use Rattle.board.specs.Drawn.{drawn};
ghost use Rattle.book.proofs.Balances.{balanced_from, balanced_sound, balanced_shows};

use book::{Book, Marked, check_block, check_board, check_thread};
use fault::Fault;
use ledger::Ledger;

mod block;
mod ledger;
mod record;
mod tokens;

/// Keeps every token twice: as a debit on the marks of its block, and as a credit in the token log
/// of its thread.
#[derive(Drop)]
pub struct BoardBook {
    ledger: Ledger,
}

impl BoardBook {
    /// A book with no token taken and every thread on board 0.
    pub fn new() -> BoardBook
        ensures { drawn result.ledger ≡ fresh_picture }
    {
        BoardBook {
            ledger: Ledger::fresh(),
        }
    }
}

impl Book for BoardBook {
    ghost holding = { λ k. holdings_of (drawn k.ledger) };

    ghost moves = { λ k m l. Marking (drawn k.ledger) m (drawn l.ledger) };

    ghost sound = { λ k. balanced_sound (drawn k.ledger) (balanced_from (drawn k.ledger) k.ledger.balanced) };

    /// Public calls take any number, so each checks its own first, in the order of the refusals.
    fn take_for_load(&mut self, thread: u64, block: u64) -> Result<(), Fault> {
        let thread = check_thread(thread)?;
        let block = check_block(block)?;
        self.ledger.load(thread, block)
    }

    fn take_for_store(&mut self, thread: u64, block: u64) -> Result<(), Fault> {
        let thread = check_thread(thread)?;
        let block = check_block(block)?;
        self.ledger.store(thread, block)
    }

    fn release(&mut self, thread: u64) -> Result<u64, Fault> {
        let thread = check_thread(thread)?;
        Ok(self.ledger.release(thread))
    }

    fn held(&self, thread: u64, block: u64) -> Result<u64, Fault> {
        let thread = check_thread(thread)?;
        let block = check_block(block)?;
        Ok(self.ledger.credit(thread, block).tokens())
    }

    fn seat(&mut self, thread: u64, board: u64) -> Result<(), Fault> {
        let thread = check_thread(thread)?;
        let board = check_board(board)?;
        self.ledger.seat(thread, board);
        Ok(())
    }

    fn drop_copy(&mut self, board: u64, block: u64) -> Result<(), Fault> {
        let board = check_board(board)?;
        let block = check_block(block)?;
        self.ledger.drop_copy(board, block);
        Ok(())
    }
}

impl Marked for BoardBook {
    ghost picture = { λ k. drawn k.ledger };

    ghost shows = { λ k b l. balanced_shows (drawn k.ledger) (balanced_from (drawn k.ledger) k.ledger.balanced) b l };

    fn tokens(&self, block: u64) -> Result<u64, Fault> {
        let block = check_block(block)?;
        Ok(self.ledger.tokens(block))
    }

    fn codes(&self, block: u64) -> Result<[u64; 5], Fault> {
        let block = check_block(block)?;
        Ok(self.ledger.codes(block))
    }
}
