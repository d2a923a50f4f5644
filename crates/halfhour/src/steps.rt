//! The four steps on one report, each written once for any way to reach the words, and another job's offer.
use crate::access::{Access, Station, in_job};
use fault::Fault;
use figures::{Figure, Quality, Reading};

/// where the steps keep their words: each place has a block of its own
const FRAME: u64 = 0;

const HEIGHT: u64 = 8;

const PERIOD: u64 = 16;

const QUALITY: u64 = 24;

const RECORD: u64 = 32;

fn load_figure<A: Access>(station: &mut Station, access: &A, place: u64) -> Result<Figure, Fault> {
    let hour = access.load(station, place)?;
    let value = access.load(station, place.wrapping_add(1))?;
    Ok(Figure { hour, value })
}

/// Each figure of the reading from a place of its own.
fn load_reading<A: Access>(
    station: &mut Station,
    access: &A,
    height: u64,
    period: u64,
) -> Result<Reading, Fault> {
    let height = load_figure(station, access, height)?;
    let period = load_figure(station, access, period)?;
    Ok(Reading { height, period })
}

fn store_figure<A: Access>(
    station: &mut Station,
    access: &A,
    place: u64,
    figure: Figure,
) -> Result<(), Fault> {
    access.store(station, place, figure.hour)?;
    access.store(station, place.wrapping_add(1), figure.value)
}

/// Each figure of the reading at a place of its own.
fn store_reading<A: Access>(
    station: &mut Station,
    access: &A,
    height: u64,
    period: u64,
    reading: Reading,
) -> Result<(), Fault> {
    store_figure(station, access, height, reading.height)?;
    store_figure(station, access, period, reading.period)
}

/// First step: the words of a frame (half hour, six bands, a spare word) go into the table.
pub(crate) fn unpack<A: Access>(
    station: &mut Station,
    access: &A,
    frame: &[u64],
) -> Result<(), Fault> {
    for (place, word) in (FRAME..).zip(frame) {
        access.store(station, place, *word)?;
    }
    Ok(())
}

/// Second step: height and period of the frame, each beside the number of its half hour.
pub(crate) fn fit<A: Access>(station: &mut Station, access: &A) -> Result<(), Fault> {
    let hour = access.load(station, FRAME)?;
    let mut bands = [0u64; 6];
    for (band, place) in bands.iter_mut().zip(FRAME + 1..) {
        *band = access.load(station, place)?;
    }
    let height = Figure {
        hour,
        value: figures::height(&bands),
    };
    let period = Figure {
        hour,
        value: figures::period(&bands),
    };
    store_reading(station, access, HEIGHT, PERIOD, Reading { height, period })
}

/// Third step: 1 beside the half hour where the verdict on both figures is good, else 0.
pub(crate) fn check_quality<A: Access>(station: &mut Station, access: &A) -> Result<(), Fault> {
    let Quality { hour, good } = load_reading(station, access, HEIGHT, PERIOD)?.quality();
    let verdict = Figure {
        hour,
        value: good as u64,
    };
    store_figure(station, access, QUALITY, verdict)
}

/// The verdict as it stands in the table.
pub(crate) fn load_quality<A: Access>(station: &mut Station, access: &A) -> Result<Quality, Fault> {
    let Figure { hour, value } = load_figure(station, access, QUALITY)?;
    Ok(Quality {
        hour,
        good: value == 1,
    })
}

/// Fourth step: reads both figures and writes the outgoing record. What comes between the two comes even if the height
/// was refused.
pub(crate) fn write_record<A: Access, F: FnOnce(&mut Station) + Drop>(
    station: &mut Station,
    access: &A,
    between: F,
) -> Result<Reading, Fault>
    requires { F.IsAlwaysCallable between }
{
    let height = load_figure(station, access, HEIGHT);
    between(station);
    let height = height?;
    let period = load_figure(station, access, PERIOD)?;
    let record = Reading { height, period };
    store_reading(station, access, RECORD, RECORD + 2, record)?;
    Ok(record)
}

/// The outgoing record as it stands in the table.
pub(crate) fn load_record<A: Access>(station: &mut Station, access: &A) -> Result<Reading, Fault> {
    load_reading(station, access, RECORD, RECORD + 2)
}

/// The next half hour's figures, offered in one job; given up whole where a part is refused.
pub(crate) fn offer(station: &mut Station, thread: u64, next: Reading) -> Result<(), Fault> {
    in_job(station, thread, |station, job| {
        store_reading(station, job, HEIGHT, PERIOD, next)
    })
}
