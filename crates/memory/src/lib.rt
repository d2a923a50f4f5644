//! The memory under a store: a table of 64-bit words in blocks of eight.
#![tactic(auto)]

mod buffer;
mod image;
mod plain;
mod storage;
mod window;

ghost use Rattle.std.specs.Prelude.{◌≡◌, ℕ, ◌*◌, ◌≤◌, cond, nat_lt, List, length, slice_set, OnErr};
ghost use Rattle.memory.specs.Words.{Whole, read_answer, write_answer, address_fault};

pub use buffer::Buffer;
use fault::{Fault, Layer, Refusal};
pub use image::{Image, ImageArray, MOST_BYTES, front};
pub use plain::{MOST_WORDS, Plain, PlainArray};
pub use window::Window;

/// A memory means a list of words, in whole blocks of eight and at most 64 blocks, whose length
/// never changes.
pub trait Memory {
    // the words, by address
    ghost words: { Self → List ℕ };

    // what lies in the same buffers and is no word of this memory: no call may touch it
    ghost beyond: { Self → List (List ℕ) };

    /// The number of blocks.
    fn size(&self) -> u64
        ensures limit { result ≤ 64 }
        ensures answer { 8 * result ≡ length (words self.now) };

    /// The word at an address.
    fn read(&self, address: u64) -> Result<u64, Fault>
        ensures answer { result ≡ read_answer (words self.now) address };

    /// Replaces the word at an address. A refused write leaves the whole memory.
    fn write(&mut self, address: u64, word: u64) -> Result<(), Fault>
        ensures answer { result ≡ write_answer (words self.old) address }
        ensures after { words self.new ≡ slice_set (words self.old) address word }
        ensures beyond { beyond self.new ≡ beyond self.old }
        ensures refused { OnErr result (self.new ≡ self.old) };

    // whole blocks, at most 64
    ghost whole: { (m : Self) → Whole (words m) };
}

/// Refuses an address past the words of so many blocks.
fn check(address: u64, blocks: u64) -> Result<(), Fault>
    ensures { result ≡ cond (nat_lt address (8 * blocks)) (Ok tt) (Err (address_fault address)) }
{
    if address / 8 < blocks {
        return Ok(());
    }
    Err(Layer::Memory.refuses(Refusal::AddressOutOfRange(address)))
}
