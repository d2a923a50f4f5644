//! Which line was not run.
ghost use Rattle.std.specs.Prelude.{◌≡◌};
ghost use Rattle.batch.specs.Batches.{line_in};

use fault::Fault;

/// The number of the line at which a run stopped early.
pub(crate) fn line_in(stopped: Option<Fault>) -> Option<u64>
    ensures { result ≡ line_in stopped }
{
    stopped.map(Fault::place)
}
