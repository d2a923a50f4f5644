//! The console: runs a script on any store and writes its report.
#![tactic(auto)]

ghost use Rattle.std.specs.Prelude.{◌≡◌, ◌+◌, ◌≤◌, [], ◌∷◌, ◌++◌, length, take, drop};
ghost use Rattle.console.specs.Runs.{CarriesAll, TravelsAll, TextRight, Reported, RanFresh};
ghost use Rattle.script.specs.Rows.{Within, row_of};
ghost use Rattle.store.specs.States.{state_of};

mod lines;

use book::{Book, Marked};
use fault::{Fault, Layer, Refusal};
use lines::Lines;
use memory::Memory;
use script::{parse, put_row};
use store::{Answer, Store};

/// Runs one line: its call, or its text refusal.
/// `Within` stands here, at add_row and at the rows in script, since an outcome in range has no type of its own: Answer is what any store answers.
fn run_line<M: Memory, B: Book>(store: &mut Store<M, B>, line: &[u8]) -> Result<Answer, Fault>
    ensures text { TextRight (record { number = 0; line = line.now; outcome = result }) }
    ensures within { Within result }
    ensures step { CarriesAll (state_of M.Memory.words B.Book.holding store.old) (record { number = 0; line = line.now; outcome = result } ∷ []) (state_of M.Memory.words B.Book.holding store.new) }
    ensures own { TravelsAll B.Book.holding B.Book.moves (state_of M.Memory.words B.Book.holding store.old) (record { number = 0; line = line.now; outcome = result } ∷ []) store.old.book store.new.book }
    ensures beyond { M.Memory.beyond store.new.memory ≡ M.Memory.beyond store.old.memory }
{
    store.call(parse(line)?)
}

/// Writes the row at the fill mark, where 64 bytes are free, and answers its length.
fn add_row(report: &mut [u8], fill: usize, line: u64, outcome: Result<Answer, Fault>) -> usize
    requires within { Within outcome }
    requires room { fill + 64 ≤ length report.old }
    ensures count { result ≡ length (row_of line outcome) }
    ensures short { result ≤ 64 }
    ensures after { report.new ≡ take fill report.old ++ (row_of line outcome ++ drop (fill + result) report.old) }
{
    put_row(&mut report[fill..], line, outcome).unwrap()
}

/// How far a script came: the bytes of the report that are filled, and the refusal by which it stopped early.
/// The report stays the caller's, so a run answers its fill mark beside it.
#[derive(Clone, Copy, PartialEq, Eq, Debug)]
pub struct Ran {
    pub fill: usize,
    pub stopped: Option<Fault>,
}

/// Runs a script line by line: a row for each line that is not empty, from the fill mark onward, as long as 64 bytes are free.
pub fn run<M: Memory, B: Book>(store: &mut Store<M, B>, script: &[u8], report: &mut [u8]) -> Ran
    ensures { Reported M.Memory.beyond B.Book.holding B.Book.moves (state_of M.Memory.words B.Book.holding store.old) store.old script.now report.old result report.new (state_of M.Memory.words B.Book.holding store.new) store.new }
{
    let mut fill = 0usize;
    'lines: for (number, line) in (1u64..).zip(Lines { rest: script }) {
        if !line.is_empty() {
            if report.len() - fill < 64 {
                return Ran {
                    fill,
                    stopped: Some(Layer::Text.refuses(Refusal::ReportFull(number))),
                };
            }
            let outcome = run_line(store, line);
            fill += add_row(report, fill, number, outcome);
        }
    }
    Ran {
        fill,
        stopped: None,
    }
}

/// Runs a script on a fresh store over a memory and a book with marks, and gives the store back beside how far it came.
pub fn run_fresh<M: Memory, B: Marked>(
    memory: M,
    book: B,
    script: &[u8],
    report: &mut [u8],
) -> (Store<M, B>, Ran)
    ensures { RanFresh M.Memory.words M.Memory.beyond B.Book.holding B.Book.moves B.Marked.picture memory book script.now report.old report.new result.0 result.1 }
{
    let mut store = Store::fresh(memory, book);
    let ran = run(&mut store, script, report);
    (store, ran)
}
