//! How a step reaches the station's words: by the loads and stores of one held job, or with each of them in a job of
//! its own.
use board::BoardBook;
use fault::Fault;
use held::HeldJob;
use memory::Plain;
use store::Store;

pub type Station = Store<Plain, BoardBook>;

/// station and access are two parameters everywhere: a job does not hold its store, so that several can be held.
pub trait Access {
    fn load(&self, station: &mut Station, place: u64) -> Result<u64, Fault>;

    fn store(&self, station: &mut Station, place: u64, word: u64) -> Result<(), Fault>;
}

impl Access for HeldJob {
    fn load(&self, station: &mut Station, place: u64) -> Result<u64, Fault> {
        HeldJob::load(self, station, place)
    }

    fn store(&self, station: &mut Station, place: u64, word: u64) -> Result<(), Fault> {
        HeldJob::store(self, station, place, word)
    }
}

/// Each access in a job of its own, on this thread.
pub struct Alone(pub u64);

impl Access for Alone {
    fn load(&self, station: &mut Station, place: u64) -> Result<u64, Fault> {
        in_job(station, self.0, |station, job| job.load(station, place))
    }

    fn store(&self, station: &mut Station, place: u64, word: u64) -> Result<(), Fault> {
        in_job(station, self.0, |station, job| {
            job.store(station, place, word)
        })
    }
}

/// Runs the work as a held job, and ends it on the way that the work went: a commit if all was granted, otherwise an
/// abort.
pub(crate) fn in_job<T: Drop, F: FnOnce(&mut Station, &HeldJob) -> Result<T, Fault> + Drop>(
    station: &mut Station,
    thread: u64,
    work: F,
) -> Result<T, Fault>
    requires { F.IsAlwaysCallable work }
{
    let job = HeldJob::begin(station, thread)?;
    let done = work(station, &job);
    let ended = if done.is_ok() {
        job.commit(station)
    } else {
        job.abort(station)
    };
    ended.and(done)
}
