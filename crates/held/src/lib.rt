//! Held jobs: a begin that must be spent by a commit or an abort.
//!
//! A held job is linear: its type has no `Drop`, so a program that lets one go without ending it does not compile, and
//! neither does one that uses it after its end. It holds its thread's number and nothing else; the store is lent to each
//! call, so that several jobs can be held at once and calls by thread number may go between.
#![tactic(auto)]

ghost use Rattle.std.specs.Prelude.{◌≡◌};
ghost use Rattle.held.specs.Begun.{begun_as};
ghost use Rattle.store.specs.States.{state_of, begin_answer, load_answer, store_answer, Answered, done_of, word_of, ended_of};
ghost use Rattle.store.specs.Moved.{Leaves};
ghost use Rattle.store.specs.Reached.{Carries};
ghost use Rattle.store.specs.declared.Call.TheVariants.{Begin as BeginCall, Load as LoadCall, Store as StoreCall, Commit as CommitCall, Abort as AbortCall};

use book::Book;
use fault::Fault;
use memory::Memory;
use store::Store;

/// The job that its thread began, until a commit or an abort spends it.
///
/// It names a thread and not a store: ending it on another store ends that store's job of that
/// thread.
// Never derive `Drop`, `Clone` or `Copy` here, and keep the field private: the proofs would pass
// all the same, and a caller could let a job go, or end it twice.
#[must_use = "a job that is held has to be ended by `commit` or `abort`"]
pub struct HeldJob {
    thread: u64,
}

impl HeldJob {
    /// Begins a job on an idle thread, and holds it.
    pub fn begin<M: Memory, B: Book>(store: &mut Store<M, B>, thread: u64) -> Result<HeldJob, Fault>
        ensures answer { result ≡ begun_as thread (begin_answer (state_of M.Memory.words B.Book.holding store.old) thread) }
        ensures leaves { Leaves M.Memory.words M.Memory.beyond B.Book.holding B.Book.moves store.old (BeginCall thread) (done_of (begin_answer (state_of M.Memory.words B.Book.holding store.old) thread)) store.new }
        ensures book { store.new.book ≡ store.old.book }
        ensures step { Carries (state_of M.Memory.words B.Book.holding store.old) (BeginCall thread) (done_of (begin_answer (state_of M.Memory.words B.Book.holding store.old) thread)) (state_of M.Memory.words B.Book.holding store.new) }
    {
        store.begin(thread)?;
        Ok(HeldJob { thread })
    }

    /// The thread whose job is held.
    pub fn thread(&self) -> u64
        ensures { result ≡ self.now.thread }
    {
        self.thread
    }

    /// As a load by thread number.
    pub fn load<M: Memory, B: Book>(
        &self,
        store: &mut Store<M, B>,
        address: u64,
    ) -> Result<u64, Fault>
        ensures answer { result ≡ load_answer (state_of M.Memory.words B.Book.holding store.old) self.now.thread address }
        ensures leaves { Leaves M.Memory.words M.Memory.beyond B.Book.holding B.Book.moves store.old (LoadCall self.now.thread address) (word_of result) store.new }
        ensures step { Carries (state_of M.Memory.words B.Book.holding store.old) (LoadCall self.now.thread address) (word_of result) (state_of M.Memory.words B.Book.holding store.new) }
    {
        store.load(self.thread, address)
    }

    /// As a store by thread number.
    pub fn store<M: Memory, B: Book>(
        &self,
        store: &mut Store<M, B>,
        address: u64,
        word: u64,
    ) -> Result<(), Fault>
        ensures answer { result ≡ store_answer (state_of M.Memory.words B.Book.holding store.old) self.now.thread address }
        ensures leaves { Leaves M.Memory.words M.Memory.beyond B.Book.holding B.Book.moves store.old (StoreCall self.now.thread address word) (done_of result) store.new }
        ensures step { Carries (state_of M.Memory.words B.Book.holding store.old) (StoreCall self.now.thread address word) (done_of result) (state_of M.Memory.words B.Book.holding store.new) }
    {
        store.store(self.thread, address, word)
    }

    /// Spends the held job by a commit, also where the store refuses it because the thread is idle by then.
    pub fn commit<M: Memory, B: Book>(self, store: &mut Store<M, B>) -> Result<(u64, u64), Fault>
        ensures answer { Answered (state_of M.Memory.words B.Book.holding store.old) (CommitCall self.thread) (ended_of result) }
        ensures leaves { Leaves M.Memory.words M.Memory.beyond B.Book.holding B.Book.moves store.old (CommitCall self.thread) (ended_of result) store.new }
        ensures step { Carries (state_of M.Memory.words B.Book.holding store.old) (CommitCall self.thread) (ended_of result) (state_of M.Memory.words B.Book.holding store.new) }
    {
        let HeldJob { thread } = self;
        store.commit(thread)
    }

    /// Spends the held job by an abort, also where the store refuses it because the thread is idle by then.
    pub fn abort<M: Memory, B: Book>(self, store: &mut Store<M, B>) -> Result<(u64, u64), Fault>
        ensures answer { Answered (state_of M.Memory.words B.Book.holding store.old) (AbortCall self.thread) (ended_of result) }
        ensures leaves { Leaves M.Memory.words M.Memory.beyond B.Book.holding B.Book.moves store.old (AbortCall self.thread) (ended_of result) store.new }
        ensures step { Carries (state_of M.Memory.words B.Book.holding store.old) (AbortCall self.thread) (ended_of result) (state_of M.Memory.words B.Book.holding store.new) }
    {
        let HeldJob { thread } = self;
        store.abort(thread)
    }
}
