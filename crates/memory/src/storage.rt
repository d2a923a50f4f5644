//! Storage: what holds the items of a buffer. A vector has as many as the machine has room for; an
//! array has a limit in its type, and allocates nothing.
ghost use Rattle.std.specs.Prelude.{◌≡◌, ◌<◌, List, length};

use crate::buffer::Item;
use arrayvec::ArrayVec;

/// Owns items in a row. Not exported, since a word is put where the caller says: memories alone do
/// that.
pub trait Storage {
    type Elem: Item;

    // the items, in order
    ghost items: { Self → List Self.Elem };

    /// The items, in order.
    fn items(&self) -> &[Self::Elem]
        ensures { result.now ≡ items self.now };

    /// Replaces the word at an address.
    fn put_word(&mut self, address: usize, word: u64)
        requires { address < length (Self.Elem.words (items self.old)) }
        ensures { items self.new ≡ Self.Elem.after (items self.old) address word };
}

impl<T: Item> Storage for Vec<T> {
    type Elem = T;

    ghost items = { λ v. v.items };

    fn items(&self) -> &[T] {
        self
    }

    fn put_word(&mut self, address: usize, word: u64) {
        T::put_word(self, address, word);
    }
}

impl<T: Item, const N: usize> Storage for ArrayVec<T, N> {
    type Elem = T;

    ghost items = { λ v. v.items };

    fn items(&self) -> &[T] {
        self
    }

    fn put_word(&mut self, address: usize, word: u64) {
        T::put_word(self, address, word);
    }
}
