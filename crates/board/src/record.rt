//! What a token log records.
ghost use Rattle.std.specs.Prelude.{◌<◌};

use book::BlockNumber;
use marks::Credit;
use record_log::Keyed;

/// Tokens of one block, taken at one time: one at least.
#[derive(Clone, Copy)]
pub(crate) struct TokenRecord {
    pub(crate) block: BlockNumber,
    pub(crate) count: Credit,
    ghost some: { 0 < count.tokens },
}

impl TokenRecord {
    ghost use Rattle.std.specs.Prelude.{◌≡◌};
    ghost use Rattle.board.specs.Credits.{recorded};

    pub(crate) fn new(block: BlockNumber, count: Credit) -> TokenRecord
        requires { 0 < count.tokens }
        ensures { recorded result ≡ record { block = block.number; count = count.tokens } }
    {
        TokenRecord { block, count }
    }
}

impl Keyed for TokenRecord {
    ghost keyed = { λ r. r.block.number };

    fn key(&self) -> u64 {
        self.block.number()
    }
}
