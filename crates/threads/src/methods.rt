//! What the table can do.
ghost use Rattle.std.specs.Prelude.{◌≡◌, ◌<◌, ◌≤◌, ◌↔◌, IsOk, IfOk, IfErr, length, slice_set};
ghost use Rattle.fault.specs.declared.Refusal.TheVariants.{ThreadOutOfRange};
ghost use Rattle.threads.specs.Entries.{idle, begun, noted_in};
ghost use Rattle.threads.specs.Judgement.{judge_of, room_of, thread_in, store_fault};
ghost use Rattle.threads.specs.Tables.{table_of, entry_at, all_idle};

use crate::entry::Entry;
use crate::{Request, THREADS, Table, Undo};
use fault::{Fault, Layer, Refusal};

#[tactic(auto, using(crate::proofs::Tables::by_thread), unfolding(crate::specs::Tables::table_of, crate::specs::Tables::all_idle))]
impl Table {
    /// All threads idle, all logs empty.
    pub fn new() -> Self
        ensures value { table_of result ≡ all_idle }
    {
        Table {
            entries: [Entry::new(); THREADS],
        }
    }

    /// Whether the thread's state allows the request.
    pub fn judge(&self, thread: u64, request: Request) -> Result<(), Fault>
        ensures answer { result ≡ judge_of (table_of self.now) thread request }
    {
        let index = index_of(thread)?;
        self.entries[index].judge(thread, request)
    }

    /// Whether the thread's log has, or has room for, a record for the address.
    pub fn room(&self, thread: u64, address: u64) -> Result<(), Fault>
        ensures answer { result ≡ room_of (table_of self.now) thread address }
    {
        let index = index_of(thread)?;
        self.entries[index].room(address)
    }

    /// Opens the thread with an empty log.
    pub fn begin(&mut self, thread: u64)
        ensures after { table_of self.new ≡ slice_set (table_of self.old) thread begun }
    {
        // No thread above 15 has an entry, so nothing is left to change.
        if let Ok(index) = index_of(thread) {
            // In two steps: one has no proof where table and logs both have ghost fields, and get_mut leaves the entries unknown.
            let entries = &mut self.entries;
            entries[index].begin();
        }
    }

    /// Notes the old word of an address before the thread's first store there.
    pub fn note(&mut self, thread: u64, address: u64, old: u64)
        ensures after { table_of self.new ≡ slice_set (table_of self.old) thread (noted_in (entry_at (table_of self.old) thread) address old) }
    {
        // No thread above 15 has an entry, so nothing is left to change.
        if let Ok(index) = index_of(thread) {
            // In two steps, as in begin.
            let entries = &mut self.entries;
            entries[index].note(address, old);
        }
    }

    /// Makes the thread idle and empties its log. Answers how many records there were.
    pub fn close(&mut self, thread: u64) -> u64
        ensures count { result ≡ length (entry_at (table_of self.old) thread).undo }
        ensures fits { result ≤ 64 }
        ensures after { table_of self.new ≡ slice_set (table_of self.old) thread idle }
    {
        // Not map_or: it says nothing of a table lent to a closure that it did not call.
        let Ok(index) = index_of(thread) else {
            return 0;
        };
        // In two steps, as in begin.
        let entries = &mut self.entries;
        entries[index].close()
    }

    /// The records of the thread's log, oldest first.
    pub fn undo(&self, thread: u64) -> &[Undo]
        ensures value { result.now ≡ (entry_at (table_of self.now) thread).undo }
        ensures fits { length result.now ≤ 64 }
    {
        index_of(thread).map_or(
            &[],
            |index|
                requires { index < 16 }
            { self.entries[index].undo() },
        )
    }
}

/// The index of the thread's entry. A number that is no thread's is refused.
/// Not the books' check: the table stands on no book, and refuses under the store's letter.
fn index_of(thread: u64) -> Result<usize, Fault>
    ensures in_range { IsOk result ↔ (thread < 16) }
    ensures index { IfOk result (λ index. index ≡ thread) }
    ensures refusal { IfErr result (λ fault. fault ≡ store_fault (ThreadOutOfRange thread)) }
{
    if thread >= THREADS as u64 {
        return Err(Layer::Store.refuses(Refusal::ThreadOutOfRange(thread)));
    }
    Ok(thread as usize)
}

/// Refuses a number that is no thread's. As index_of, not the books' check.
pub fn check_thread(thread: u64) -> Result<(), Fault>
    ensures { result ≡ thread_in thread }
{
    index_of(thread)?;
    Ok(())
}
