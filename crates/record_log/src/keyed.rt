//! Records with a key, and the search for the latest one with a given key.
ghost use Rattle.std.specs.Prelude.{◌≡◌, ℕ};
ghost use Rattle.record_log.specs.Latest.{latest_of, IsLatest};

/// A record with a key: the address of an undo record, the block of a token record.
pub trait Keyed {
    ghost keyed: { Self → ℕ };

    fn key(&self) -> u64
        ensures { result ≡ keyed self.now };
}

/// The latest of the records (oldest first) that has the key.
pub fn latest<R: Keyed + Copy>(records: &[R], key: u64) -> Option<R>
    ensures value { result ≡ latest_of R.Keyed.keyed key records.now }
    ensures means { IsLatest R.Keyed.keyed key records.now result }
{
    records
        .iter()
        .rev()
        .find(|record| record.key() == key)
        .copied()
}
