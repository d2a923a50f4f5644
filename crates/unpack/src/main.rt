//! Unpacks a buoy report: reads its frames from standard input, and prints the words of each and
//! what was done. Where more may follow than it reads, it says so on standard error and ends with
//! status 1.
#![tactic(auto)]

use frames::{Report, Unpacked, unpack_input};
use memory::MOST_BYTES;
use std::io::Read;
use std::process::ExitCode;
use std::{fmt, io};

/// Why a run ends with status 1.
#[derive(Debug, Drop)]
enum Shortfall {
    /// as much was read as is read at most
    InputFull,
    Reading(io::Error),
    Writing(io::Error),
}

impl fmt::Display for Shortfall {
    fn fmt<W: fmt::Write>(&self, f: &mut fmt::Formatter<W>) -> fmt::Result {
        match self {
            Shortfall::InputFull => {
                write!(f, "{MOST_BYTES} bytes were read, which is the most: ")?;
                write!(f, "what may follow was not read")
            }
            Shortfall::Reading(error) => write!(f, "reading standard input: {error}"),
            Shortfall::Writing(error) => write!(f, "writing standard output: {error}"),
        }
    }
}

fn print_block(rt: &HostRuntime, number: u64, block: &[u64]) -> io::Result<()> {
    print!(rt; "block {number}:")?;
    for word in block {
        print!(rt; " {word}")?;
    }
    println!(rt; "")
}

fn print_report(rt: &HostRuntime, report: &Report) -> io::Result<()> {
    let Unpacked {
        blocks,
        words,
        trailing,
    } = report.unpacked;
    for (number, block) in (0..blocks).zip(report.table.buffer().chunks(8)) {
        print_block(rt, number, block)?;
    }
    // in one call, so that the line is one write
    println!(rt; "unpacked {blocks} blocks, {words} words; {trailing} trailing bytes left over")
}

fn work(rt: &HostRuntime) -> Result<(), Shortfall> {
    let mut bytes = Vec::new(rt.alloc());
    let mut limited = rt.stdin().take(MOST_BYTES as u64);
    limited.read_to_end(&mut bytes).map_err(Shortfall::Reading)?;
    let report = unpack_input(&bytes);
    print_report(rt, &report).map_err(Shortfall::Writing)?;
    if report.full {
        return Err(Shortfall::InputFull);
    }
    Ok(())
}

fn main(rt: HostRuntime) -> ExitCode {
    match work(&rt) {
        Ok(()) => ExitCode::SUCCESS,
        Err(shortfall) => {
            // where not even this can be written, the status tells
            let _ = eprintln!(rt; "unpack: {shortfall}");
            ExitCode::FAILURE
        }
    }
}
