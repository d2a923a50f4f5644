//! The calls. Each tells what is answered at one moment, what is left, and what this means for every history.
ghost use Rattle.std.specs.Prelude.{◌≡◌, ◌<◌, Ok, slice_set};
ghost use Rattle.store.specs.States.{state_of, begin_answer, load_answer, store_answer, put_back, Answered, EndAnswer, seat_answer, drop_answer, done_of, word_of, ended_of};
ghost use Rattle.store.specs.Moved.{Leaves, MovedBy, end_move};
ghost use Rattle.store.specs.Reached.{Carries};
ghost use Rattle.threads.specs.Entries.{idle};
ghost use Rattle.threads.specs.Tables.{table_of};
ghost use Rattle.book.specs.Rules.{after_release};
ghost use Rattle.store.specs.declared.Call.TheVariants.{Begin as BeginCall, Load as LoadCall, Store as StoreCall, Commit as CommitCall, Abort as AbortCall, Seat as SeatCall, Drop as DropCall};

use crate::{Answer, Call, Store};
use book::Book;
use fault::Fault;
use memory::Memory;
use threads::{Request, Undo, check_thread};

// A clause hands over the members and not the bounds, so that it shows what it speaks of: a state is words, holdings and the thread table, whatever else memory and book promise.
impl<M: Memory, B: Book> Store<M, B> {
    /// Opens a job on an idle thread.
    pub fn begin(&mut self, thread: u64) -> Result<(), Fault>
        ensures answer { result ≡ begin_answer (state_of M.Memory.words B.Book.holding self.old) thread }
        ensures leaves { Leaves M.Memory.words M.Memory.beyond B.Book.holding B.Book.moves self.old (BeginCall thread) (done_of result) self.new }
        ensures step { Carries (state_of M.Memory.words B.Book.holding self.old) (BeginCall thread) (done_of result) (state_of M.Memory.words B.Book.holding self.new) }
    {
        self.table.judge(thread, Request::Begin)?;
        self.table.begin(thread);
        Ok(())
    }

    /// The word at an address, for the thread's open job.
    pub fn load(&mut self, thread: u64, address: u64) -> Result<u64, Fault>
        ensures answer { result ≡ load_answer (state_of M.Memory.words B.Book.holding self.old) thread address }
        ensures leaves { Leaves M.Memory.words M.Memory.beyond B.Book.holding B.Book.moves self.old (LoadCall thread address) (word_of result) self.new }
        ensures step { Carries (state_of M.Memory.words B.Book.holding self.old) (LoadCall thread address) (word_of result) (state_of M.Memory.words B.Book.holding self.new) }
    {
        self.table.judge(thread, Request::Load)?;
        let word = self.memory.read(address)?;
        self.book.take_for_load(thread, address / 8)?;
        Ok(word)
    }

    /// Stores a word in place, for the thread's open job.
    pub fn store(&mut self, thread: u64, address: u64, word: u64) -> Result<(), Fault>
        ensures answer { result ≡ store_answer (state_of M.Memory.words B.Book.holding self.old) thread address }
        ensures leaves { Leaves M.Memory.words M.Memory.beyond B.Book.holding B.Book.moves self.old (StoreCall thread address word) (done_of result) self.new }
        ensures step { Carries (state_of M.Memory.words B.Book.holding self.old) (StoreCall thread address word) (done_of result) (state_of M.Memory.words B.Book.holding self.new) }
    {
        self.table.judge(thread, Request::Store)?;
        let old = self.memory.read(address)?;
        self.table.room(thread, address)?;
        self.book.take_for_store(thread, address / 8)?;
        self.table.note(thread, address, old);
        self.memory.write(address, word)
    }

    /// Releases the thread's tokens and closes its entry: records dropped, and the book's figure.
    fn end(&mut self, thread: u64) -> Result<(u64, u64), Fault>
        requires { thread < 16 }
        ensures answer { EndAnswer (state_of M.Memory.words B.Book.holding self.old) thread (Ok tt) (ended_of result) }
        ensures table { table_of self.new.table ≡ slice_set (table_of self.old.table) thread idle }
        ensures holding { B.Book.holding self.new.book ≡ after_release (B.Book.holding self.old.book) thread }
        ensures memory { self.new.memory ≡ self.old.memory }
        ensures own { MovedBy B.Book.moves self.old.book (end_move thread (ended_of result)) self.new.book }
    {
        let figure = self.book.release(thread)?;
        let records = self.table.close(thread);
        Ok((records, figure))
    }

    /// Ends the thread's job for good: records dropped, and the book's figure.
    /// A pair, since a type of its own would only name the two counts again.
    pub fn commit(&mut self, thread: u64) -> Result<(u64, u64), Fault>
        ensures answer { Answered (state_of M.Memory.words B.Book.holding self.old) (CommitCall thread) (ended_of result) }
        ensures leaves { Leaves M.Memory.words M.Memory.beyond B.Book.holding B.Book.moves self.old (CommitCall thread) (ended_of result) self.new }
        ensures step { Carries (state_of M.Memory.words B.Book.holding self.old) (CommitCall thread) (ended_of result) (state_of M.Memory.words B.Book.holding self.new) }
    {
        self.table.judge(thread, Request::Commit)?;
        self.end(thread)
    }

    /// Puts back what the thread's job stored, and ends it: records dropped, and the book's figure.
    pub fn abort(&mut self, thread: u64) -> Result<(u64, u64), Fault>
        ensures answer { Answered (state_of M.Memory.words B.Book.holding self.old) (AbortCall thread) (ended_of result) }
        ensures leaves { Leaves M.Memory.words M.Memory.beyond B.Book.holding B.Book.moves self.old (AbortCall thread) (ended_of result) self.new }
        ensures step { Carries (state_of M.Memory.words B.Book.holding self.old) (AbortCall thread) (ended_of result) (state_of M.Memory.words B.Book.holding self.new) }
    {
        self.table.judge(thread, Request::Abort)?;
        put_back(&mut self.memory, self.table.undo(thread));
        self.end(thread)
    }

    /// Seats a thread on a board. Belongs to no job.
    pub fn seat(&mut self, thread: u64, board: u64) -> Result<(), Fault>
        ensures answer { result ≡ seat_answer thread board }
        ensures leaves { Leaves M.Memory.words M.Memory.beyond B.Book.holding B.Book.moves self.old (SeatCall thread board) (done_of result) self.new }
        ensures step { Carries (state_of M.Memory.words B.Book.holding self.old) (SeatCall thread board) (done_of result) (state_of M.Memory.words B.Book.holding self.new) }
    {
        check_thread(thread)?;
        self.book.seat(thread, board)
    }

    /// Has a board give up its copy of a block's mark. Belongs to no job.
    pub fn drop_copy(&mut self, board: u64, block: u64) -> Result<(), Fault>
        ensures answer { result ≡ drop_answer board block }
        ensures leaves { Leaves M.Memory.words M.Memory.beyond B.Book.holding B.Book.moves self.old (DropCall board block) (done_of result) self.new }
        ensures step { Carries (state_of M.Memory.words B.Book.holding self.old) (DropCall board block) (done_of result) (state_of M.Memory.words B.Book.holding self.new) }
    {
        self.book.drop_copy(board, block)
    }

    /// Any of the calls.
    pub fn call(&mut self, call: Call) -> Result<Answer, Fault>
        ensures answer { Answered (state_of M.Memory.words B.Book.holding self.old) call result }
        ensures leaves { Leaves M.Memory.words M.Memory.beyond B.Book.holding B.Book.moves self.old call result self.new }
        ensures step { Carries (state_of M.Memory.words B.Book.holding self.old) call result (state_of M.Memory.words B.Book.holding self.new) }
    {
        match call {
            Call::Begin(thread) => self.begin(thread).map(|()| Answer::Done),
            Call::Load(thread, address) => self.load(thread, address).map(Answer::Word),
            Call::Store(thread, address, word) => self
                .store(thread, address, word)
                .map(|()| Answer::Done),
            Call::Commit(thread) => self
                .commit(thread)
                .map(|(records, figure)| Answer::Ended(records, figure)),
            Call::Abort(thread) => self
                .abort(thread)
                .map(|(records, figure)| Answer::Ended(records, figure)),
            Call::Seat(thread, board) => self.seat(thread, board).map(|()| Answer::Done),
            Call::Drop(board, block) => self.drop_copy(board, block).map(|()| Answer::Done),
        }
    }
}

/// Writes the old words back, the last record first. An address past the memory's end is refused there, and has no word to put back.
#[tactic(auto, unfolding(crate::specs::States::put_back))]
fn put_back<M: Memory>(memory: &mut M, undo: &[Undo])
    ensures after { M.Memory.words memory.new ≡ put_back (M.Memory.words memory.old) undo.now }
    ensures beyond { M.Memory.beyond memory.new ≡ M.Memory.beyond memory.old }
{
    for record in undo.iter().rev() {
        let _ = memory.write(record.address, record.old);
    }
}
