//! Window: some consecutive blocks of the memory below it, as a memory of their own.
ghost use Rattle.std.specs.Prelude.{◌≡◌, ◌≤◌, ◌++◌};
ghost use Rattle.memory.specs.Words.{Whole};
ghost use Rattle.memory.specs.Windows.{start_of, window_words, window_beyond};
ghost use Rattle.memory.specs.WindowsLemmas.{whole_window};

use super::Memory;
use fault::Fault;

/// Begins at the smaller of `first` and the size below, and has the smaller of `count` and what
/// remains from there. Both are kept as given: the window is cut to the memory below at each call.
#[derive(Drop)]
pub struct Window<M> {
    below: M,
    first: u64,
    count: u64,
}

impl<M: Memory> Window<M> {
    pub fn over(below: M, first: u64, count: u64) -> Window<M>
        ensures below { result.below ≡ below }
        ensures first { result.first ≡ first }
        ensures count { result.count ≡ count }
    {
        Window {
            below,
            first,
            count,
        }
    }

    /// The memory below, given back.
    pub fn into_below(self) -> M
        ensures { result ≡ self.below }
    {
        let Self { below, .. } = self;
        below
    }

    /// The first block of the memory below that the window shows, with the law of that memory for
    /// the callers' proofs.
    fn start(&self) -> u64
        ensures answer { result ≡ start_of (M.Memory.words self.now.below) self.now.first }
        ensures limit { result ≤ 64 }
        ensures whole { Whole (M.Memory.words self.now.below) }
    {
        self.first.min(self.below.size())
    }
}

impl<M: Memory> Memory for Window<M> {
    ghost words = { λ m. window_words (M.Memory.words m.below) m.first m.count };

    ghost beyond = { λ m. window_beyond (M.Memory.words m.below) m.first m.count ++ M.Memory.beyond m.below };

    ghost whole = { λ m. whole_window (M.Memory.words m.below) (M.Memory.whole m.below) m.first m.count };

    fn size(&self) -> u64 {
        self.count.min(self.below.size() - self.start())
    }

    fn read(&self, address: u64) -> Result<u64, Fault> {
        super::check(address, self.size())?;
        self.below.read(8 * self.start() + address)
    }

    #[tactic(auto, using(crate::proofs::Windows::window_writes))]
    fn write(&mut self, address: u64, word: u64) -> Result<(), Fault> {
        super::check(address, self.size())?;
        let at = 8 * self.start() + address;
        self.below.write(at, word)
    }
}
