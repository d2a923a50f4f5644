//! The full book: a table of all holdings, sixteen threads by sixty-four blocks.
#![tactic(auto)]

ghost use Rattle.std.specs.Prelude.{◌≡◌};
ghost use Rattle.book.specs.Holdings.{Lowest, is_in_the_way, blocks_held, cleared};
ghost use Rattle.book.specs.Rules.{take_answer, after_take};
ghost use Rattle.book.specs.Exact.{Exactly};
ghost use Rattle.full.specs.Held.{held_in};
ghost use Rattle.book.proofs.Kept.{sound_from};

use book::{BlockNumber, Book, Take, Thread, check_block, check_board, check_thread};
use fault::Fault;
use holding::Holding;
use std::mem;
pub use table::FullBook;

mod holding;
mod table;

impl FullBook {
    /// A book in which nothing is held.
    #[tactic(auto, using(crate::proofs::Rows::fresh_held, crate::proofs::Rows::fresh_kept))]
    pub fn new() -> FullBook
        ensures { held_in result.rows ≡ (λ t b. 0) }
    {
        FullBook {
            rows: [[Holding::Nothing; 64]; 16],
        }
    }

    /// The lowest-numbered thread whose holding refuses the take.
    fn in_the_way(&self, take: Take, thread: Thread, block: BlockNumber) -> Option<u64>
        ensures { Lowest (is_in_the_way take (held_in self.now.rows) thread.number block.number) 16 result }
    {
        self.rows
            .iter()
            .enumerate()
            .position(|(other, row)| other != thread.index() && row[block.index()].bars(take))
            .map(|other| other as u64)
    }

    /// A take of either kind. The thread's own holding is looked at first.
    fn take_for(&mut self, take: Take, thread: u64, block: u64) -> Result<(), Fault>
        ensures answer { result ≡ take_answer take (held_in self.old.rows) thread block }
        ensures after { held_in self.new.rows ≡ after_take take (held_in self.old.rows) thread block }
    {
        let thread = check_thread(thread)?;
        let block = check_block(block)?;
        if self.rows[thread.index()][block.index()].suffices(take) {
            return Ok(());
        }
        if let Some(other) = self.in_the_way(take, thread, block) {
            return Err(take.refused_by(other));
        }
        self.rows[thread.index()][block.index()] = Holding::from(take);
        Ok(())
    }

    /// Empties the thread's row, and counts the blocks that it held tokens of.
    fn clear(&mut self, thread: Thread) -> u64
        ensures answer { result ≡ blocks_held (held_in self.old.rows) thread.number }
        ensures after { held_in self.new.rows ≡ cleared (held_in self.old.rows) thread.number }
    {
        let row = mem::replace(&mut self.rows[thread.index()], [Holding::Nothing; 64]);
        row.iter().map(|cell| u64::from(cell.tokens() > 0)).sum()
    }
}

impl Book for FullBook {
    ghost holding = { λ k. held_in k.rows };

    ghost moves = { λ k m l. Exactly (held_in k.rows) m (held_in l.rows) };

    ghost sound = { λ k. sound_from (held_in k.rows) k.sound };

    /// Public calls take any number, so each checks its own first, in the order of the refusals.
    fn take_for_load(&mut self, thread: u64, block: u64) -> Result<(), Fault> {
        self.take_for(Take::Load, thread, block)
    }

    fn take_for_store(&mut self, thread: u64, block: u64) -> Result<(), Fault> {
        self.take_for(Take::Store, thread, block)
    }

    fn release(&mut self, thread: u64) -> Result<u64, Fault> {
        let thread = check_thread(thread)?;
        Ok(self.clear(thread))
    }

    fn held(&self, thread: u64, block: u64) -> Result<u64, Fault> {
        let thread = check_thread(thread)?;
        let block = check_block(block)?;
        Ok(self.rows[thread.index()][block.index()].tokens())
    }

    /// The table does not say where a thread sits.
    fn seat(&mut self, thread: u64, board: u64) -> Result<(), Fault> {
        check_thread(thread)?;
        check_board(board)?;
        Ok(())
    }

    /// The table has no copies.
    fn drop_copy(&mut self, board: u64, block: u64) -> Result<(), Fault> {
        check_board(board)?;
        check_block(block)?;
        Ok(())
    }
}
