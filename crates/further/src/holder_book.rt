//! A book that keeps for each block who holds it.
ghost use Rattle.std.specs.Prelude.{◌≡◌, length};
ghost use Rattle.book.specs.Holdings.{blocks_held, cleared};
ghost use Rattle.book.specs.Rules.{take_answer, after_take};
ghost use Rattle.book.specs.Exact.{Exactly};
ghost use Rattle.further.specs.Held.{held_in};
ghost use Rattle.further.specs.Alone.{holders_sound};

use crate::holders::Holders;
use book::{Book, Take, Thread, check_block, check_board, check_thread};
use fault::Fault;

#[derive(Drop)]
pub struct HolderBook {
    blocks: [Holders; 64],
    ghost whole: { length blocks ≡ 64 },
}

impl HolderBook {
    /// A book in which nothing is held.
    #[tactic(auto, using(crate::proofs::Blocks::fresh_held))]
    pub fn new() -> HolderBook
        ensures { held_in result.blocks ≡ (λ t b. 0) }
    {
        HolderBook {
            blocks: [Holders::Readers(0); 64],
        }
    }

    fn take_for(&mut self, take: Take, thread: u64, block: u64) -> Result<(), Fault>
        ensures answer { result ≡ take_answer take (held_in self.old.blocks) thread block }
        ensures after { held_in self.new.blocks ≡ after_take take (held_in self.old.blocks) thread block }
    {
        let thread = check_thread(thread)?;
        let block = check_block(block)?;
        let at = block.index();
        self.blocks[at] = self.blocks[at].taken(take, thread)?;
        Ok(())
    }
}

/// Takes the thread out of every block, and counts the blocks that it held tokens of.
fn clear(blocks: &mut [Holders; 64], thread: Thread) -> u64
    ensures answer { result ≡ blocks_held (held_in blocks.old) thread.number }
    ensures after { held_in blocks.new ≡ cleared (held_in blocks.old) thread.number }
    ensures whole { length blocks.new ≡ 64 }
{
    let mut held = 0;
    for holders in blocks.iter_mut() {
        if holders.tokens(thread) > 0 {
            held += 1;
        }
        *holders = holders.without(thread);
    }
    held
}

impl Book for HolderBook {
    ghost holding = { λ k. held_in k.blocks };

    ghost moves = { λ k m l. Exactly (held_in k.blocks) m (held_in l.blocks) };

    ghost sound = { λ k. holders_sound k.blocks };

    fn take_for_load(&mut self, thread: u64, block: u64) -> Result<(), Fault> {
        self.take_for(Take::Load, thread, block)
    }

    fn take_for_store(&mut self, thread: u64, block: u64) -> Result<(), Fault> {
        self.take_for(Take::Store, thread, block)
    }

    fn release(&mut self, thread: u64) -> Result<u64, Fault> {
        let thread = check_thread(thread)?;
        Ok(clear(&mut self.blocks, thread))
    }

    fn held(&self, thread: u64, block: u64) -> Result<u64, Fault> {
        let thread = check_thread(thread)?;
        let block = check_block(block)?;
        Ok(self.blocks[block.index()].tokens(thread))
    }

    /// The holders do not say where a thread sits.
    fn seat(&mut self, thread: u64, board: u64) -> Result<(), Fault> {
        check_thread(thread)?;
        check_board(board)?;
        Ok(())
    }

    /// There are no copies.
    fn drop_copy(&mut self, board: u64, block: u64) -> Result<(), Fault> {
        check_board(board)?;
        check_block(block)?;
        Ok(())
    }
}
