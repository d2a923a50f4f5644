//! What a log can do.
ghost use Rattle.std.specs.Prelude.{◌≡◌, ◌≤◌, [], length};
ghost use Rattle.record_log.specs.Latest.{latest_of};
ghost use Rattle.record_log.specs.Records.{records_of, pushed, push_answer};

use crate::{Full, Keyed, Log, latest};

impl<R: Keyed + Copy, const N: usize> Log<R, N> {
    /// An empty log. The filler is never among its records.
    pub fn new(filler: R) -> Self
        ensures { records_of result ≡ [] }
    {
        Log {
            items: [filler; N],
            count: 0,
        }
    }

    /// The records, oldest first.
    pub fn records(&self) -> &[R]
        ensures value { result.now ≡ records_of self.now }
        ensures fits { length result.now ≤ N }
    {
        &self.items[..self.count]
    }

    /// How many records there are.
    pub fn count(&self) -> u64
        ensures value { result ≡ length (records_of self.now) }
        ensures fits { result ≤ N }
    {
        self.count as u64
    }

    /// The latest record with the key.
    pub fn latest(&self, key: u64) -> Option<R>
        ensures { result ≡ latest_of R.Keyed.keyed key (records_of self.now) }
    {
        latest(self.records(), key)
    }

    /// Adds a record at the end. A full log says so and keeps its records.
    pub fn push(&mut self, added: R) -> Result<(), Full>
        ensures answer { result ≡ push_answer N (records_of self.old) }
        ensures after { records_of self.new ≡ pushed N (records_of self.old) added }
    {
        if self.count == N {
            return Err(Full);
        }
        self.items[self.count] = added;
        self.count += 1;
        Ok(())
    }

    /// Drops all records.
    pub fn clear(&mut self)
        ensures { records_of self.new ≡ [] }
    {
        self.count = 0;
    }
}
