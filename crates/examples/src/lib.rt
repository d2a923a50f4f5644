//! Worked examples with their numbers, on the contract of one public function: marks fused and coded, a job that
//! is put back, and the figures of the two books for the same job.
#![tactic(auto)]

ghost use Rattle.std.specs.Prelude.{◌≡◌, true};
ghost use Rattle.examples.specs.Jobs.{plain, first_words};
ghost use Rattle.examples.specs.Examples.{MarksWorked, JobsWorked};
ghost use Rattle.marks.specs.Codes.{code_of};
ghost use Rattle.marks.specs.Rules.{fuse_of, fused_in};
ghost use Rattle.marks.specs.States.{in_range};

mod jobs;

use arrayvec::ArrayVec;
use board::BoardBook;
use fault::Fault;
use full::FullBook;
pub use jobs::Ended;
use jobs::{abort_two_stores, commit_load_and_store};
use marks::{Mark, Metastate};
use memory::PlainArray;

/// What the calls answered, example by example.
#[derive(Clone, Copy, PartialEq, Eq, Debug)]
pub struct WorkedExamples {
    /// a reader's mark and one that shows nothing
    pub reader_kept: Result<Mark, Fault>,
    /// two readers, and a third
    pub readers_counted: Result<Mark, Fault>,
    pub reader_added: Result<Mark, Fault>,
    /// a writer's mark and its copy, and one that is no copy of it
    pub writer_kept: Result<Mark, Fault>,
    pub writer_refused: Result<Mark, Fault>,
    /// as many readers as a mark can show, and one more
    pub most_readers: Result<Mark, Fault>,
    pub too_many_readers: Result<Mark, Fault>,
    pub reader_code: u64,
    pub writer_code: u64,
    /// a job that stores twice to one word, and aborts
    pub aborted_on_board: Result<Ended, Fault>,
    pub aborted_on_full: Result<Ended, Fault>,
    /// a job that loads a word, stores to it, and commits
    pub committed_on_board: Result<Ended, Fault>,
    pub committed_on_full: Result<Ended, Fault>,
}

/// The mark with a metastate in range.
fn mark(state: Metastate) -> Mark
    requires { in_range state ≡ true }
    ensures { result.state ≡ state }
{
    Mark::new(state).unwrap()
}

fn fused(a: Metastate, b: Metastate) -> Result<Mark, Fault>
    requires a { in_range a ≡ true }
    requires b { in_range b ≡ true }
    ensures { fused_in result ≡ fuse_of a b }
{
    mark(a).fuse(mark(b))
}

fn code(state: Metastate) -> u64
    requires { in_range state ≡ true }
    ensures { result ≡ code_of state }
{
    mark(state).code()
}

/// One block of plain words, each another.
fn one_block() -> PlainArray<8>
    ensures { plain result ≡ first_words }
{
    PlainArray::over(ArrayVec::from([7, 8, 9, 10, 11, 12, 13, 14]))
}

/// Makes the calls of all examples.
pub fn worked_examples() -> WorkedExamples
    ensures marks { MarksWorked result }
    ensures jobs { JobsWorked result }
{
    WorkedExamples {
        reader_kept: fused(Metastate::Reader(3), Metastate::Anonymous(0)),
        readers_counted: fused(Metastate::Reader(3), Metastate::Reader(5)),
        reader_added: fused(Metastate::Anonymous(2), Metastate::Reader(5)),
        writer_kept: fused(Metastate::Writer(3), Metastate::Writer(3)),
        writer_refused: fused(Metastate::Writer(3), Metastate::Anonymous(0)),
        most_readers: fused(Metastate::Anonymous(40), Metastate::Anonymous(23)),
        too_many_readers: fused(Metastate::Anonymous(40), Metastate::Anonymous(24)),
        reader_code: code(Metastate::Reader(3)),
        writer_code: code(Metastate::Writer(3)),
        aborted_on_board: abort_two_stores(one_block(), BoardBook::new()),
        aborted_on_full: abort_two_stores(one_block(), FullBook::new()),
        committed_on_board: commit_load_and_store(one_block(), BoardBook::new()),
        committed_on_full: commit_load_and_store(one_block(), FullBook::new()),
    }
}
