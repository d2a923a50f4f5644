//! A batch: one script from its first line to its last, and the report that it leaves. This is the
//! station's whole work; the program `station` reads the input, calls this and prints.
#![tactic(auto)]

ghost use Rattle.std.specs.Prelude.{◌≡◌, ◌≤◌, ◌↔◌, length, IsTrue};

mod lines;

use board::BoardBook;
use book::{Book, Marked};
use lines::line_in;
use memory::front;

/// The most bytes of an input that are run: a station reads no more.
pub const SCRIPT_BYTES: usize = 32_768;

/// The bytes of a report.
pub const REPORT_BYTES: usize = 65_536;

/// A script that was run, and its report.
#[derive(Drop)]
pub struct Batch {
    report: [u8; REPORT_BYTES],
    fill: usize,
    /// the number of the first line that was not run, since fewer than 64 bytes of the report were
    /// free
    pub not_run: Option<u64>,
    /// whether the input has 32,768 bytes or more: what may follow these was not run, and the last
    /// line may be cut
    pub input_full: bool,
    ghost fits: { fill ≤ length report },
}

impl Batch {
    ghost use Rattle.board.specs.Fresh.{OnFreshBoard};
    ghost use Rattle.lent.specs.Promises.{RanOnZeros};
    ghost use Rattle.batch.specs.Batches.{Batched};
    ghost use Rattle.batch.specs.Rows.{rows_in};

    /// Runs the first 32,768 bytes of an input on a fresh store of 512 words, all 0, which the board
    /// book keeps. The report has 65,536 bytes.
    pub fn run(input: &[u8]) -> Batch
        ensures rows { Batched (λ script before after ran. OnFreshBoard (λ book.
            RanOnZeros ⟦<BoardBook as Book>⟧.holding ⟦<BoardBook as Book>⟧.moves
            ⟦<BoardBook as Marked>⟧.picture
            book script before after ran))
            input.now (rows_in result) result.not_run }
        ensures full { IsTrue result.input_full ↔ (32768 ≤ length input.now) }
        // what the program reads by
        ensures limits { (SCRIPT_BYTES ≡ 32768) × (REPORT_BYTES ≡ 65536) }
    {
        let mut report = [0; REPORT_BYTES];
        let script = front(input, SCRIPT_BYTES);
        let ran = lent::run(BoardBook::new(), script, &mut report);
        Batch {
            report,
            fill: ran.fill,
            not_run: line_in(ran.stopped),
            input_full: input.len() >= SCRIPT_BYTES,
        }
    }

    /// The rows of the report, for the lines that were run.
    pub fn rows(&self) -> &[u8]
        ensures { result.now ≡ rows_in self.now }
    {
        &self.report[..self.fill]
    }
}
