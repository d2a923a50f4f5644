//! Byte image: each item of the buffer is a byte, and each word stands in eight of them, the most
//! significant first.
ghost use Rattle.std.proofs.Common.{lit<};
ghost use Rattle.std.specs.Prelude.{◌≡◌, ◌≤◌, length, take};
ghost use Rattle.memory.specs.Buffers.{image_words, image_beyond, image_after};
ghost use Rattle.memory.specs.Images.{length-image, image_words-after, image_beyond-after, image_after-past};

use crate::buffer::{Buffer, Item};
use arrayvec::ArrayVec;

/// The bytes of the most blocks that a memory has.
pub const MOST_BYTES: usize = 4096;

/// Over a vector of bytes.
pub type Image = Buffer<Vec<u8>>;

/// Over an array of at most N bytes, which allocates nothing.
pub type ImageArray<const N: usize> = Buffer<ArrayVec<u8, N>>;

/// The bytes up to a limit: the first `limit`, or all of them where there are fewer.
pub fn front(bytes: &[u8], limit: usize) -> &[u8]
    ensures value { result.now ≡ take limit bytes.now }
    ensures fits { length result.now ≤ limit }
{
    &bytes[..bytes.len().min(limit)]
}

impl ImageArray<MOST_BYTES> {
    /// Over a copy of the bytes, or of the first 4,096 where there are more: those are all that a
    /// memory can use.
    pub fn copy_of(bytes: &[u8]) -> Self
        ensures { result.buffer.items ≡ take 4096 bytes.now }
    {
        Buffer::over(ArrayVec::try_from(front(bytes, MOST_BYTES)).unwrap())
    }
}

impl Item for u8 {
    const PER_BLOCK: usize = 64;

    ghost PER_BLOCK = { 64 };

    ghost words = { image_words };

    ghost beyond = { image_beyond };

    ghost after = { image_after };

    ghost nonzero = { lit< tt };

    ghost counted = { length-image };

    ghost words_after = { image_words-after };

    ghost beyond_after = { image_beyond-after };

    ghost after_past = { image_after-past };

    #[tactic(auto, using(crate::proofs::Bytes::words_in_bytes))]
    fn word_at(buffer: &[u8], address: usize) -> u64 {
        u64::from_be_bytes(buffer.as_chunks::<8>().0[address])
    }

    #[tactic(auto, using(crate::proofs::Bytes::words_in_bytes))]
    fn put_word(buffer: &mut [u8], address: usize, word: u64) {
        // by place: std says nothing of what a slice ends as after as_chunks_mut
        let at = 8 * address;
        buffer[at..at + 8].copy_from_slice(&word.to_be_bytes());
    }
}
