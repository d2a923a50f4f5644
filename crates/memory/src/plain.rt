//! Plain words: each item of the buffer is a word.
ghost use Rattle.std.proofs.Common.{lit<};
ghost use Rattle.std.specs.Prelude.{◌≡◌, replicate};
ghost use Rattle.memory.specs.Buffers.{plain_words, plain_beyond, plain_after};
ghost use Rattle.memory.specs.Fronts.{length-plain, plain_words-after, plain_beyond-after, plain_after-past};

use crate::buffer::{Buffer, Item};
use arrayvec::ArrayVec;

/// The words of the most blocks that a memory has.
pub const MOST_WORDS: usize = 512;

/// Over a vector of words.
pub type Plain = Buffer<Vec<u64>>;

/// Over an array of at most N words, which allocates nothing.
pub type PlainArray<const N: usize> = Buffer<ArrayVec<u64, N>>;

impl<const N: usize> PlainArray<N> {
    /// So many words, all the same.
    pub fn filled(word: u64) -> Self
        ensures { result.buffer.items ≡ replicate N word }
    {
        Buffer::over(ArrayVec::from([word; N]))
    }
}

impl Item for u64 {
    const PER_BLOCK: usize = 8;

    ghost PER_BLOCK = { 8 };

    ghost words = { plain_words };

    ghost beyond = { plain_beyond };

    ghost after = { plain_after };

    ghost nonzero = { lit< tt };

    ghost counted = { length-plain };

    ghost words_after = { λ buffer a w _. plain_words-after buffer a w };

    ghost beyond_after = { λ buffer a w _. plain_beyond-after buffer a w };

    ghost after_past = { plain_after-past };

    fn word_at(buffer: &[u64], address: usize) -> u64 {
        buffer[address]
    }

    fn put_word(buffer: &mut [u64], address: usize, word: u64) {
        buffer[address] = word;
    }
}
