//! One buoy report through its four steps over the board book: once with each step a held job, and
//! once with each access in a job of its own, where the outgoing record mixes two half hours.
#![tactic(auto)]

mod access;
mod steps;

use access::{Alone, Station, in_job};
use board::BoardBook;
use fault::Fault;
use figures::{Figure, Quality, Reading};
use memory::Plain;
use std::{fmt, io};
use store::Store;

/// the thread that reads back what stands in the table
const READER: u64 = 5;
/// half hour 1: its number, six bands of the spectrum, a spare word
const FRAME_WORDS: [u64; 8] = [1, 1200, 9800, 21000, 7400, 1500, 300, 0];
/// what arrives while the record is written
const NEXT: Reading = Reading {
    height: Figure {
        hour: 2,
        value: 872,
    },
    period: Figure {
        hour: 2,
        value: 7100,
    },
};

/// How the four steps went, the verdict as a job of its own read it back after the third, and
/// another job's offer of the next half hour in the midst of the fourth: none is made where the
/// fourth step's job is not even begun.
#[derive(Clone, Copy)]
struct Outcomes {
    unpacked: Result<(), Fault>,
    fitted: Result<(), Fault>,
    checked: Result<(), Fault>,
    quality: Result<Quality, Fault>,
    offered: Option<Result<(), Fault>>,
    record: Result<Reading, Fault>,
}

/// Each step a job: the offer is refused, since the job of the fourth step has read the height.
fn each_step_a_job(station: &mut Station) -> Outcomes {
    let unpacked = in_job(station, 0, |station, job| {
        steps::unpack(station, job, &FRAME_WORDS)
    });
    let fitted = in_job(station, 1, steps::fit);
    let checked = in_job(station, 2, steps::check_quality);
    let quality = in_job(station, READER, steps::load_quality);
    let mut offered = None;
    let record = in_job(station, 3, |station, job| {
        steps::write_record(station, job, |station| {
            offered = Some(steps::offer(station, 4, NEXT))
        })
    });
    Outcomes {
        unpacked,
        fitted,
        checked,
        quality,
        offered,
        record,
    }
}

/// Each access a job of its own: nothing holds the height while the offer comes in.
fn each_access_a_job(station: &mut Station) -> Outcomes {
    let unpacked = steps::unpack(station, &Alone(0), &FRAME_WORDS);
    let fitted = steps::fit(station, &Alone(1));
    let checked = steps::check_quality(station, &Alone(2));
    let quality = in_job(station, READER, steps::load_quality);
    let mut offered = None;
    let record = steps::write_record(station, &Alone(3), |station| {
        offered = Some(steps::offer(station, 4, NEXT))
    });
    Outcomes {
        unpacked,
        fitted,
        checked,
        quality,
        offered,
        record,
    }
}

fn print_refused(rt: &HostRuntime, what: &str, fault: Fault) -> io::Result<()> {
    println!(rt; "{what}: refused, {fault}, aborted")
}

fn print_step(rt: &HostRuntime, what: &str, work: Result<(), Fault>) -> io::Result<()> {
    match work {
        Ok(()) => println!(rt; "{what}: committed"),
        Err(fault) => print_refused(rt, what, fault),
    }
}

fn print_read<T: fmt::Display + Drop>(
    rt: &HostRuntime,
    what: &str,
    read: Result<T, Fault>,
) -> io::Result<()> {
    match read {
        Ok(read) => println!(rt; "{what}: {read}"),
        Err(fault) => print_refused(rt, what, fault),
    }
}

fn print_outcomes(rt: &HostRuntime, outcomes: Outcomes) -> io::Result<()> {
    print_step(rt, "thread 0 unpacks the frame", outcomes.unpacked)?;
    print_step(rt, "thread 1 fits height and period", outcomes.fitted)?;
    print_step(rt, "thread 2 checks their quality", outcomes.checked)?;
    print_read(rt, "thread 5 reads the quality", outcomes.quality)?;
    if let Some(offered) = outcomes.offered {
        print_step(rt, "thread 4 offers half hour 2", offered)?;
    }
    print_read(rt, "outgoing record", outcomes.record)
}

/// The outgoing record as it was written, read back in a job, and the verdict on that record.
fn print_written(rt: &HostRuntime, station: &mut Station) -> io::Result<()> {
    let record = in_job(station, READER, steps::load_record);
    print_read(rt, "thread 5 reads the outgoing record", record)?;
    if let Ok(reading) = record {
        let verdict = if reading.quality().good {
            "good"
        } else {
            "not good"
        };
        println!(rt; "checked again, that record is {verdict}")?;
    }
    Ok(())
}

fn main(rt: HostRuntime) -> io::Result<()> {
    let table = Plain::over(vec![in rt.alloc(); 0; 512]?);
    let mut station = Store::fresh(table, BoardBook::new());
    println!(rt; "each step a job")?;
    print_outcomes(&rt, each_step_a_job(&mut station))?;
    let again = steps::offer(&mut station, 4, NEXT);
    print_step(&rt, "thread 4 begins again with half hour 2", again)?;
    print_written(&rt, &mut station)?;

    println!(rt; "each access a job of its own")?;
    print_outcomes(&rt, each_access_a_job(&mut station))?;
    print_written(&rt, &mut station)
}
