//! Buffer: a memory over a buffer of items, each a word or a byte of a word.
ghost use Rattle.std.specs.Prelude.{◌≡◌, ℕ, ◌*◌, ◌^◌, ◌<◌, ◌≤◌, List, length};
ghost use Rattle.std.specs.Prelude.{slice_index, slice_set, OnErr};
ghost use Rattle.memory.specs.Words.{write_answer, whole_blocks};
ghost use Rattle.memory.specs.Fronts.{whole_counted};

use super::Memory;
use crate::storage::Storage;
use fault::Fault;

/// An item of a buffer, and how words lie in a buffer of such items: the whole blocks at its front,
/// at most 64, are the memory's words. Not exported, since its functions ask for an address within
/// the words: memories alone call them.
pub trait Item: Copy {
    /// how many items a block has
    const PER_BLOCK: usize;

    ghost PER_BLOCK: { ℕ };

    // the words of the blocks
    ghost words: { List Self → List ℕ };

    // the items behind the blocks
    ghost beyond: { List Self → List (List ℕ) };

    // the buffer after a write of a word to an address
    ghost after: { List Self → ℕ → ℕ → List Self };

    /// The word at an address.
    fn word_at(buffer: &[Self], address: usize) -> u64
        requires { address < length (words buffer.now) }
        ensures { result ≡ slice_index (words buffer.now) address };

    /// Replaces the word at an address.
    fn put_word(buffer: &mut [Self], address: usize, word: u64)
        requires { address < length (words buffer.old) }
        ensures { buffer.new ≡ after buffer.old address word };

    // a block has items
    ghost nonzero: { 0 < PER_BLOCK };

    // whole blocks, at most 64
    ghost counted: { (buffer : List Self) → length (words buffer) ≡ 8 * whole_blocks (length buffer) PER_BLOCK };

    // a write replaces the one word, and none past the last
    ghost words_after: { (buffer : List Self) (a w : ℕ) → w < 2 ^ 64 → words (after buffer a w) ≡ slice_set (words buffer) a w };

    ghost beyond_after: { (buffer : List Self) (a w : ℕ) → w < 2 ^ 64 → beyond (after buffer a w) ≡ beyond buffer };

    ghost after_past: { (buffer : List Self) (a w : ℕ) → length (words buffer) ≤ a → after buffer a w ≡ buffer };
}

/// The items behind the whole blocks are never touched.
#[derive(Drop)]
pub struct Buffer<S> {
    buffer: S,
}

impl<S: Storage> Buffer<S> {
    pub fn over(buffer: S) -> Buffer<S>
        ensures { result.buffer ≡ buffer }
    {
        Buffer { buffer }
    }

    /// All items, with those behind the blocks.
    pub fn buffer(&self) -> &[S::Elem]
        ensures { result.now ≡ S.items self.now.buffer }
    {
        self.buffer.items()
    }

    /// The buffer, given back.
    pub fn into_buffer(self) -> S
        ensures { result ≡ self.buffer }
    {
        let Self { buffer } = self;
        buffer
    }
}

impl<S: Storage> Memory for Buffer<S> {
    ghost words = { λ m. S.Elem.words (S.items m.buffer) };

    ghost beyond = { λ m. S.Elem.beyond (S.items m.buffer) };

    ghost whole = { λ m. let items = S.items m.buffer in
        whole_counted (S.Elem.words items) (length items) S.Elem.PER_BLOCK (S.Elem.counted items) };

    fn size(&self) -> u64 {
        (self.buffer.items().len() / S::Elem::PER_BLOCK).min(64) as u64
    }

    fn read(&self, address: u64) -> Result<u64, Fault> {
        super::check(address, self.size())?;
        Ok(S::Elem::word_at(self.buffer.items(), address as usize))
    }

    /// The trait's clauses stand again, since an impl that adds one (items) names them all.
    fn write(&mut self, address: u64, word: u64) -> Result<(), Fault>
        ensures answer { result ≡ write_answer (S.Elem.words (S.items self.old.buffer)) address }
        ensures after { S.Elem.words (S.items self.new.buffer)
            ≡ slice_set (S.Elem.words (S.items self.old.buffer)) address word }
        ensures beyond { S.Elem.beyond (S.items self.new.buffer)
            ≡ S.Elem.beyond (S.items self.old.buffer) }
        ensures refused { OnErr result (self.new ≡ self.old) }
        ensures items { S.items self.new.buffer
            ≡ S.Elem.after (S.items self.old.buffer) address word }
    {
        super::check(address, self.size())?;
        self.buffer.put_word(address as usize, word);
        Ok(())
    }
}
