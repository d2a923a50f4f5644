//! Mirror: two memories that hold the same words.
ghost use Rattle.std.specs.Prelude.{◌≡◌, ◌++◌, ◌==◌, length, is_ok, IfOk, IfErr, OnErr, slice_set};
ghost use Rattle.memory.specs.Words.{write_answer};

use fault::Fault;
use memory::Memory;

/// Reads from the first, and writes to both.
#[derive(Drop)]
pub struct Mirror<A: Memory, B: Memory> {
    first: A,
    second: B,
    ghost alike: { A.Memory.words first ≡ B.Memory.words second },
}

impl<A: Memory, B: Memory> Mirror<A, B> {
    /// Copies the words of the first memory into the second. Gives both back as they were where
    /// their sizes differ.
    pub fn over(first: A, mut second: B) -> Result<Self, (A, B)>
        ensures when { is_ok result ≡ (length (A.Memory.words first) == length (B.Memory.words second)) }
        ensures first { IfOk result (λ mirror. mirror.first ≡ first) }
        ensures second { IfOk result (λ mirror. B.Memory.words mirror.second ≡ A.Memory.words first) }
        ensures beyond { IfOk result (λ mirror. B.Memory.beyond mirror.second ≡ B.Memory.beyond second) }
        ensures back { IfErr result (λ both. both ≡ (first, second)) }
    {
        if first.size() != second.size() {
            return Err((first, second));
        }
        // never refused
        let _ = frames::copy(&first, &mut second);
        Ok(Mirror { first, second })
    }

    pub fn first(&self) -> &A
        ensures { result.now ≡ self.now.first }
    {
        &self.first
    }

    pub fn second(&self) -> &B
        ensures second { result.now ≡ self.now.second }
        ensures words { B.Memory.words result.now ≡ A.Memory.words self.now.first }
    {
        &self.second
    }

    /// Both memories, given back.
    pub fn into_both(self) -> (A, B)
        ensures both { result ≡ (self.first, self.second) }
        ensures words { B.Memory.words result.1 ≡ A.Memory.words result.0 }
    {
        let Self { first, second } = self;
        (first, second)
    }
}

impl<A: Memory, B: Memory> Memory for Mirror<A, B> {
    ghost words = { λ m. A.Memory.words m.first };

    ghost beyond = { λ m. A.Memory.beyond m.first ++ B.Memory.beyond m.second };

    ghost whole = { λ m. A.Memory.whole m.first };

    fn size(&self) -> u64 {
        self.first.size()
    }

    fn read(&self, address: u64) -> Result<u64, Fault> {
        self.first.read(address)
    }

    /// The trait's clauses stand again, since an impl that adds one (second) names them all.
    fn write(&mut self, address: u64, word: u64) -> Result<(), Fault>
        ensures answer { result ≡ write_answer (A.Memory.words self.old.first) address }
        ensures after { A.Memory.words self.new.first ≡ slice_set (A.Memory.words self.old.first) address word }
        ensures second { B.Memory.words self.new.second ≡ slice_set (A.Memory.words self.old.first) address word }
        ensures beyond { A.Memory.beyond self.new.first ++ B.Memory.beyond self.new.second ≡ A.Memory.beyond self.old.first ++ B.Memory.beyond self.old.second }
        ensures refused { OnErr result (self.new ≡ self.old) }
    {
        // asked first, so that the proof need not compare mirrors: the sizes agree, so no write below
        // is refused after it
        self.read(address)?;
        self.first.write(address, word)?;
        self.second.write(address, word)
    }
}
