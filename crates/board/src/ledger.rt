//! The ledger of the board book: debits on the marks of the blocks, credits in the token logs. It is
//! always in balance: a function that writes both sides does so before the ledger is used again.
ghost use Rattle.std.specs.Prelude.{◌≡◌, ℕ, ◌-◌, ◌<◌, ◌≤◌, length, Ok, nat_lt};
ghost use Rattle.marks.specs.States.{debit_of};
ghost use Rattle.book.specs.Balance.{Balanced};
ghost use Rattle.book.specs.Holdings.{Lowest, is_in_the_way, cleared};
ghost use Rattle.book.specs.Marking.{one_taken, load_picture, all_taken, store_picture, gathered, release_picture, seat_picture, drop_picture};
ghost use Rattle.book.specs.Picture.{fresh_picture, credit_of, holdings_of, shown, codes_of};
ghost use Rattle.book.specs.Rules.{load_take, after_load, store_take, after_store, Released};
ghost use Rattle.book.specs.declared.Take.TheVariants.{Store};
ghost use Rattle.board.specs.Tables.{picture_of};

use crate::block::Block;
use crate::tokens::TokenLog;
use book::{BlockNumber, Board, Take, Thread, check_board};
use fault::Fault;
use marks::{Credit, TOKENS};

/// What is kept of a thread: the board that it works on, and the tokens that it took.
#[derive(Clone, Copy)]
pub(crate) struct Account {
    board: Board,
    log: TokenLog,
}

#[derive(Drop)]
pub(crate) struct Ledger {
    blocks: [Block; 64],
    accounts: [Account; 16],
    ghost balanced: { ∥ Balanced (picture_of blocks accounts) ∥₁ },
}

impl Ledger {
    ghost use Rattle.board.specs.Drawn.{drawn};

    // thread and block are two parameters, as the trait Book asks for them

    /// No token taken, every thread on board 0.
    pub(crate) fn fresh() -> Ledger
        ensures { drawn result ≡ fresh_picture }
    {
        let account = Account {
            board: check_board(0).unwrap(),
            log: TokenLog::new(),
        };
        Ledger {
            blocks: [Block::fresh(); 64],
            accounts: [account; 16],
        }
    }

    /// The thread's credit on the block.
    pub(crate) fn credit(&self, thread: Thread, block: BlockNumber) -> Credit
        ensures { result.tokens ≡ holdings_of (drawn self.now) thread.number block.number }
    {
        self.accounts[thread.index()].log.credit(block)
    }

    /// Whether the thread has any.
    fn holds(&self, thread: Thread, block: BlockNumber) -> bool
        ensures { result ≡ nat_lt 0 (holdings_of (drawn self.now) thread.number block.number) }
    {
        self.accounts[thread.index()].log.holds(block)
    }

    /// The lowest-numbered other thread with credit on the block. Only a refused store asks.
    #[cold]
    #[inline(never)]
    fn other_holder(&self, thread: Thread, block: BlockNumber) -> Option<u64>
        ensures { Lowest (is_in_the_way Store (holdings_of (drawn self.now)) thread.number block.number) 16 result }
    {
        self.accounts
            .iter()
            .enumerate()
            .position(|(other, account)| { other != thread.index() && account.log.holds(block) })
            .map(|other| other as u64)
    }

    /// Notes the thread's board.
    pub(crate) fn seat(&mut self, thread: Thread, board: Board)
        ensures after { drawn self.new ≡ seat_picture (drawn self.old) thread.number board.number }
        ensures held { holdings_of (drawn self.new) ≡ holdings_of (drawn self.old) }
    {
        self.accounts[thread.index()].board = board;
    }

    /// Has the board give up its copy of the block.
    pub(crate) fn drop_copy(&mut self, board: Board, block: BlockNumber)
        ensures after { drawn self.new ≡ drop_picture (drawn self.old) board.number block.number }
        ensures held { holdings_of (drawn self.new) ≡ holdings_of (drawn self.old) }
    {
        // Two steps: an entry with a ghost field, lent out of a struct with one, gets no proof.
        let blocks = &mut self.blocks;
        blocks[block.index()].withdraw(board);
    }

    /// Takes a token for a load, unless the thread has credit.
    pub(crate) fn load(&mut self, thread: Thread, block: BlockNumber) -> Result<(), Fault>
        ensures answer { result ≡ load_take (holdings_of (drawn self.old)) thread.number block.number }
        ensures after { drawn self.new ≡ load_picture (drawn self.old) thread.number block.number }
        ensures held { holdings_of (drawn self.new) ≡ after_load (holdings_of (drawn self.old)) thread.number block.number }
    {
        if self.holds(thread, block) {
            return Ok(());
        }
        self.take_one(thread, block)
    }

    /// A load by a thread without credit: one token, from its board's copy.
    fn take_one(&mut self, thread: Thread, block: BlockNumber) -> Result<(), Fault>
        requires { holdings_of (drawn self.old) thread.number block.number ≡ 0 }
        ensures answer { result ≡ load_take (holdings_of (drawn self.old)) thread.number block.number }
        ensures after { drawn self.new ≡ one_taken (drawn self.old) thread.number block.number }
    {
        // in two steps, as above
        let accounts = &mut self.accounts;
        let account = &mut accounts[thread.index()];
        let blocks = &mut self.blocks;
        blocks[block.index()].load(account.board, thread)?;
        account.log.note(block, Credit::one());
        Ok(())
    }

    /// Takes all tokens for a store, unless the thread has them.
    pub(crate) fn store(&mut self, thread: Thread, block: BlockNumber) -> Result<(), Fault>
        ensures answer { result ≡ store_take (holdings_of (drawn self.old)) thread.number block.number }
        ensures after { drawn self.new ≡ store_picture (drawn self.old) thread.number block.number }
        ensures held { holdings_of (drawn self.new) ≡ after_store (holdings_of (drawn self.old)) thread.number block.number }
    {
        let credit = self.credit(thread, block);
        if credit.tokens() >= TOKENS {
            return Ok(());
        }
        self.take_all(thread, block, credit)
    }

    /// A store by a thread with credit below 64: gathers the block and takes the rest, if no other
    /// thread has any.
    fn take_all(&mut self, thread: Thread, block: BlockNumber, credit: Credit) -> Result<(), Fault>
        requires own { credit.tokens ≡ holdings_of (drawn self.old) thread.number block.number }
        requires short { credit.tokens < 64 }
        ensures answer { result ≡ store_take (holdings_of (drawn self.old)) thread.number block.number }
        ensures after { drawn self.new ≡ all_taken (drawn self.old) thread.number block.number }
    {
        // in two steps, as above
        let blocks = &mut self.blocks;
        let marks = &mut blocks[block.index()];
        marks.gather();
        if marks.store(thread, credit) {
            let accounts = &mut self.accounts;
            let account = &mut accounts[thread.index()];
            account.log.note(block, credit.rest());
            return Ok(());
        }
        Err(Take::Store.refused_by(self.other_holder(thread, block).unwrap()))
    }

    /// Gives back all that the thread took, and answers how many records said so.
    pub(crate) fn release(&mut self, thread: Thread) -> u64
        ensures answer { result ≡ length ((drawn self.old).logs thread.number) }
        ensures bounds { Released (holdings_of (drawn self.old)) thread.number (Ok result) }
        ensures after { drawn self.new ≡ release_picture (drawn self.old) thread.number }
        ensures held { holdings_of (drawn self.new) ≡ cleared (holdings_of (drawn self.old)) thread.number }
    {
        // in two steps, as above
        let accounts = &mut self.accounts;
        let account = &mut accounts[thread.index()];
        account.log.give_back(&mut self.blocks)
    }

    /// The tokens that the block's marks show as taken.
    pub(crate) fn tokens(&self, block: BlockNumber) -> u64
        ensures { result ≡ shown (drawn self.now) block.number }
    {
        self.blocks[block.index()].tokens()
    }

    /// The codes of the block's marks, home first.
    pub(crate) fn codes(&self, block: BlockNumber) -> [u64; 5]
        ensures { result ≡ codes_of (drawn self.now) block.number }
    {
        self.blocks[block.index()].codes()
    }
}
