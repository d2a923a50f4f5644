//! The store as a static library for C: each export calls `lent` over a fresh book, and takes no
//! memory but its stack. include/shore.h declares them for C.
#![tactic(auto)]

ghost use Rattle.std.specs.Prelude.{◌≡◌};
ghost use Rattle.board.specs.Fresh.{OnFreshBoard};
ghost use Rattle.lent.specs.Promises.{RanOnZeros, MadeReplayed, MadeMarked};
ghost use Rattle.capi.specs.Exports.{OnFreshFull, WithFigures, line_of};

use board::BoardBook;
use book::{Book, Marked};
use fault::Fault;
use full::FullBook;

/// Runs a script on the board book over 512 zero words: the fill mark. `stopped` gets the number of
/// the line that was not run, or 0.
#[unsafe(no_mangle)]
pub extern "C" fn shore_run(script: &[u8], report: &mut [u8], stopped: &mut u64) -> usize
    ensures { OnFreshBoard (λ book. WithFigures result stopped.new (λ ran.
        RanOnZeros ⟦<BoardBook as Book>⟧.holding ⟦<BoardBook as Book>⟧.moves
        ⟦<BoardBook as Marked>⟧.picture
        book script.now report.old report.new ran)) }
{
    let ran = lent::run(BoardBook::new(), script, report);
    *stopped = line_of(ran.stopped);
    ran.fill
}

/// The number of the line at which a run stopped early, or 0.
fn line_of(stopped: Option<Fault>) -> u64
    ensures { result ≡ line_of stopped }
{
    stopped.map_or(0, Fault::place)
}

/// Makes calls on the board book over the blocks of a table: how many were made.
#[unsafe(no_mangle)]
pub extern "C" fn shore_replay_board(table: &mut [u8], calls: &[u64], answers: &mut [u64]) -> usize
    ensures { OnFreshBoard (λ book.
        MadeMarked ⟦<BoardBook as Book>⟧.holding ⟦<BoardBook as Book>⟧.moves
        ⟦<BoardBook as Marked>⟧.picture
        book table.old calls.now answers.old table.new answers.new result) }
{
    lent::replay_marked(BoardBook::new(), table, calls, answers)
}

/// The same on the full book.
#[unsafe(no_mangle)]
pub extern "C" fn shore_replay_full(table: &mut [u8], calls: &[u64], answers: &mut [u64]) -> usize
    ensures { OnFreshFull (λ book.
        MadeReplayed ⟦<FullBook as Book>⟧.holding ⟦<FullBook as Book>⟧.moves
        book table.old calls.now answers.old table.new answers.new result) }
{
    lent::replay(FullBook::new(), table, calls, answers)
}
