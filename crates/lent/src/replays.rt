//! Calls as numbers, made on a fresh store over a table of bytes.
ghost use Rattle.lent.specs.Promises.{MadeReplayed, MadeMarked};

use crate::numbers::{call_of, numbers_of};
use book::{Book, Marked};
use memory::{ImageArray, MOST_BYTES};
use store::Store;

/// Makes the calls on a fresh store over the bytes of a table: its whole blocks of 64 bytes, among
/// the first 4,096, are the words. All other bytes stay as they are. A call is four numbers, and so
/// is its answer. Made are the whole groups of four that have room for their answers, up to the first
/// that is no call: the number of these is the result. Numbers behind the last answer stay.
pub fn replay<B: Book + Drop>(
    book: B,
    table: &mut [u8],
    calls: &[u64],
    answers: &mut [u64],
) -> usize
    ensures { MadeReplayed B.Book.holding B.Book.moves
        book table.old calls.now answers.old table.new answers.new result }
{
    let mut store = Store::fresh(ImageArray::copy_of(table), book);
    let (groups, _) = calls.as_chunks::<4>();
    let room = groups.len().min(answers.len() / 4);
    let groups = &groups[..room];
    let mut made = 0;
    for group in groups {
        let Some(call) = call_of(*group) else { break };
        let at = 4 * made;
        // one by one: copied as a slice, they would be put on the stack first
        let [first, second, third, fourth] = numbers_of(store.call(call));
        answers[at] = first;
        answers[at + 1] = second;
        answers[at + 2] = third;
        answers[at + 3] = fourth;
        made += 1;
    }
    let used = table.len().min(MOST_BYTES);
    table[..used].copy_from_slice(store.memory().buffer());
    made
}

/// The same over a book with marks.
pub fn replay_marked<B: Marked + Drop>(
    book: B,
    table: &mut [u8],
    calls: &[u64],
    answers: &mut [u64],
) -> usize
    ensures { MadeMarked B.Book.holding B.Book.moves B.Marked.picture
        book table.old calls.now answers.old table.new answers.new result }
{
    replay(book, table, calls, answers)
}
