//! Two jobs of thread 1, each alone on a fresh store over the words 7 to 14.
ghost use Rattle.std.specs.Prelude.{◌≡◌, ℕ};
ghost use Rattle.examples.specs.Jobs.{first_words, Aborted, Committed};

use book::Book;
use fault::Fault;
use memory::Memory;
use store::Store;

/// What the end of a job answered, and the word that the job stored to, read back from the memory afterwards.
#[derive(Clone, Copy, PartialEq, Eq, Debug)]
pub struct Ended {
    pub answer: (u64, u64),
    pub word: u64,
}

/// Stores 15 and then 20 at address 3, and aborts.
pub(crate) fn abort_two_stores<M: Memory + Drop, B: Book + Drop>(
    memory: M,
    book: B,
) -> Result<Ended, Fault>
    requires { M.Memory.words memory ≡ first_words }
    ensures { (figure : ℕ) × Aborted M.Memory.words B.Book.holding B.Book.moves book figure result }
{
    let mut store = Store::fresh(memory, book);
    store.begin(1)?;
    store.store(1, 3, 15)?;
    store.store(1, 3, 20)?;
    let answer = store.abort(1)?;
    let word = store.memory().read(3)?;
    Ok(Ended { answer, word })
}

/// Loads the word at address 0, stores 11 there, and commits.
pub(crate) fn commit_load_and_store<M: Memory + Drop, B: Book + Drop>(
    memory: M,
    book: B,
) -> Result<Ended, Fault>
    requires { M.Memory.words memory ≡ first_words }
    ensures { (figure : ℕ) × Committed M.Memory.words B.Book.holding B.Book.moves book figure result }
{
    let mut store = Store::fresh(memory, book);
    store.begin(1)?;
    store.load(1, 0)?;
    store.store(1, 0, 11)?;
    let answer = store.commit(1)?;
    let word = store.memory().read(0)?;
    Ok(Ended { answer, word })
}
