//! The store over what a caller lends: a script and its report, or calls as numbers and a table of
//! bytes. Nothing is allocated, so no call here is ever given up.
#![tactic(auto)]

ghost use Rattle.lent.specs.Promises.{RanOnZeros};

mod numbers;
mod replays;

use book::Marked;
use console::{Ran, run_fresh};
use memory::{MOST_WORDS, PlainArray};
pub use numbers::{call_of, numbers_of};
pub use replays::{replay, replay_marked};

/// Runs a script on a fresh store over 512 zero words.
pub fn run<B: Marked + Drop>(book: B, script: &[u8], report: &mut [u8]) -> Ran
    ensures { RanOnZeros B.Book.holding B.Book.moves B.Marked.picture
        book script.now report.old report.new result }
{
    let table = PlainArray::<MOST_WORDS>::filled(0);
    let (_store, ran) = run_fresh(table, book, script, report);
    ran
}
