//! Token logs: the tokens that one thread took.
ghost use Rattle.std.specs.Prelude.{◌≡◌, ℕ, ◌+◌, ◌<◌, ◌≤◌, [], ◌∷◌, ◌++◌, map, length, nat_lt};
ghost use Rattle.record_log.specs.Records.{records_of};
ghost use Rattle.book.specs.Balance.{Coherent};
ghost use Rattle.book.specs.Marking.{relieved_to};
ghost use Rattle.book.specs.Picture.{credit_of};
ghost use Rattle.board.specs.Credits.{recorded, credits_in};
ghost use Rattle.board.specs.Shown.{marks_in};

use crate::block::Block;
use crate::record::TokenRecord;
use book::{BlockNumber, check_block};
use marks::Credit;
use record_log::Log;

/// At most two records concern one of the 64 blocks, so the log is never full.
#[derive(Clone, Copy)]
pub(crate) struct TokenLog {
    records: Log<TokenRecord, 128>,
    /// what the records count, block by block, so that no call adds them up
    credits: [Credit; 64],
    ghost added_up: { (b : ℕ) → credits_in credits b ≡ credit_of b (map recorded (records_of records)) },
}

impl TokenLog {
    ghost use Rattle.board.specs.Logged.{records_in};

    pub(crate) fn new() -> TokenLog
        ensures { records_in result ≡ [] }
    {
        let filler = TokenRecord::new(check_block(0).unwrap(), Credit::one());
        TokenLog {
            records: Log::new(filler),
            credits: [Credit::none(); 64],
        }
    }

    /// The credit on a block.
    pub(crate) fn credit(&self, block: BlockNumber) -> Credit
        ensures { result.tokens ≡ credit_of block.number (records_in self.now) }
    {
        self.credits[block.index()]
    }

    /// Whether there is any.
    pub(crate) fn holds(&self, block: BlockNumber) -> bool
        ensures { result ≡ nat_lt 0 (credit_of block.number (records_in self.now)) }
    {
        self.credit(block).tokens() > 0
    }

    /// Adds a record at the end.
    #[tactic(auto, using(crate::proofs::Credits::noted_added))]
    pub(crate) fn note(&mut self, block: BlockNumber, count: Credit)
        requires room { length (records_in self.old) < 128 }
        requires some { 0 < count.tokens }
        requires limit { credit_of block.number (records_in self.old) + count.tokens ≤ 64 }
        ensures { records_in self.new ≡ records_in self.old ++ record { block = block.number; count = count.tokens } ∷ [] }
    {
        let credit = self.credit(block).plus(count);
        self.records.push(TokenRecord::new(block, count)).unwrap();
        self.credits[block.index()] = credit;
    }

    /// Gives all tokens back: takes the credit on each block off the debit that its marks show, once they are gathered,
    /// and drops the records. Answers how many there were.
    pub(crate) fn give_back(&mut self, blocks: &mut [Block; 64]) -> u64
        requires coherent { (b : ℕ) → b < 64 → Coherent (marks_in blocks.old b).home (marks_in blocks.old b).copies }
        ensures count { result ≡ length (records_in self.old) }
        ensures relieved { marks_in blocks.new ≡ relieved_to 64 (marks_in blocks.old) (records_in self.old) }
        ensures after { records_in self.new ≡ [] }
    {
        relieve(blocks, &mut self.credits, &self.records);
        let count = self.records.count();
        self.records.clear();
        count
    }
}

/// Takes each credit off the debit of its block, and out of the table. Record by record, since a log has few of the 64 blocks;
/// a block's second record finds it relieved.
fn relieve(blocks: &mut [Block; 64], credits: &mut [Credit; 64], log: &Log<TokenRecord, 128>)
    requires coherent { (b : ℕ) → b < 64 → Coherent (marks_in blocks.old b).home (marks_in blocks.old b).copies }
    requires added_up { (b : ℕ) → credits_in credits.old b ≡ credit_of b (map recorded (records_of log.now)) }
    ensures marks { marks_in blocks.new ≡ relieved_to 64 (marks_in blocks.old) (map recorded (records_of log.now)) }
    ensures none { (b : ℕ) → credits_in credits.new b ≡ 0 }
{
    'each: for record in log.records() {
        let place = record.block.index();
        let credit = credits[place];
        if credit.tokens() > 0 {
            let block = &mut blocks[place];
            block.gather();
            block.relieve(credit);
            credits[place] = Credit::none();
        }
    }
}
