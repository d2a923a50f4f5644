//! The station: reads a script from standard input, has it run by crate `batch`, and prints the
//! report. What was not run or not read it says on standard error, and ends with status 1.
#![tactic(auto)]

mod help;

use batch::{Batch, REPORT_BYTES, SCRIPT_BYTES};
use help::{HELP, VERSION};
use std::io::{Read, Write};
use std::process::ExitCode;
use std::{env, fmt, io};

/// Why a run ends with status 1.
#[derive(Debug, Drop)]
enum Shortfall {
    UnknownArgument(String),
    /// a line that was not run, and whether as much was read as is read at most
    NotWhole(Option<u64>, bool),
    Reading(io::Error),
    Writing(io::Error),
}

impl fmt::Display for Shortfall {
    fn fmt<W: fmt::Write>(&self, f: &mut fmt::Formatter<W>) -> fmt::Result {
        match self {
            Shortfall::UnknownArgument(argument) => write!(
                f,
                "unknown argument \"{argument}\": it takes --help, --version or none"
            ),
            Shortfall::NotWhole(not_run, input_full) => {
                if let Some(line) = not_run {
                    write!(f, "line {line} was not run, nor any after it: ")?;
                    write!(
                        f,
                        "fewer than 64 of the report's {REPORT_BYTES} bytes were free"
                    )?;
                    write!(f, "{}", if *input_full { "; " } else { "" })?;
                }
                if *input_full {
                    write!(f, "{SCRIPT_BYTES} bytes were read, which is the most: ")?;
                    write!(
                        f,
                        "what may follow was not read, and the last line may be cut"
                    )?;
                }
                Ok(())
            }
            Shortfall::Reading(error) => write!(f, "reading standard input: {error}"),
            Shortfall::Writing(error) => write!(f, "writing standard output: {error}"),
        }
    }
}

/// What the arguments ask for.
#[derive(Clone, Copy)]
enum Request {
    Run,
    Print(&'static str),
}

fn requested(rt: &HostRuntime) -> Result<Request, Shortfall> {
    let mut request = Request::Run;
    for argument in env::args(rt).map_err(Shortfall::Reading)?.skip(1) {
        request = match (request, argument.as_str()) {
            (Request::Run, "--help") => Request::Print(HELP),
            (Request::Run, "--version") => Request::Print(VERSION),
            _ => return Err(Shortfall::UnknownArgument(argument)),
        };
    }
    Ok(request)
}

fn print(rt: &HostRuntime, bytes: &[u8]) -> Result<(), Shortfall> {
    rt.stdout().write_all(bytes).map_err(Shortfall::Writing)
}

/// Reads, runs and prints; what was run and read is the batch's to say.
fn run(rt: &HostRuntime) -> Result<(), Shortfall> {
    let mut input = Vec::new(rt.alloc());
    let mut limited = rt.stdin().take(SCRIPT_BYTES as u64);
    limited.read_to_end(&mut input).map_err(Shortfall::Reading)?;
    let batch = Batch::run(&input);
    print(rt, batch.rows())?;
    if batch.not_run.is_some() || batch.input_full {
        return Err(Shortfall::NotWhole(batch.not_run, batch.input_full));
    }
    Ok(())
}

fn work(rt: &HostRuntime) -> Result<(), Shortfall> {
    match requested(rt)? {
        Request::Run => run(rt),
        Request::Print(text) => print(rt, text.as_bytes()),
    }
}

fn main(rt: HostRuntime) -> ExitCode {
    match work(&rt) {
        Ok(()) => ExitCode::SUCCESS,
        Err(shortfall) => {
            // where not even this can be written, the status tells
            let _ = eprintln!(rt; "station: {shortfall}");
            ExitCode::FAILURE
        }
    }
}
