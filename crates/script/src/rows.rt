//! Rows of a report: what became of a line.
//! They are not printed by `Display`: `write!` says nothing of when a write fails, and a row has to fit.
ghost use Rattle.std.specs.Prelude.{◌≡◌, ◌+◌, ◌≤◌, [], ◌∷◌, ◌++◌, length, drop, Some, Ok, decimal};
ghost use Rattle.script.specs.Rows.{Within, answer_text, fault_text, outcome_text, row_of, spaced};
ghost use Rattle.script.specs.Writing.{fronted, fronts};
ghost use Rattle.store.specs.States.{values_of};

use super::writing::put_text;
use fault::Fault;
use itoa::write_digits;
use store::Answer;

/// The most bytes of a row: a number of 20 digits, " no ", a letter, two values behind a space each, byte 10.
const ROW_BYTES: usize = 20 + 5 + 2 * 21 + 1;

/// Writes the row of a line at the front of the buffer, and answers its length.
/// Where it does not fit, nothing is written.
/// `Within outcome` stays a premise of the bounds here and below: an outcome in range has no type of its own.
pub fn put_row(out: &mut [u8], line: u64, outcome: Result<Answer, Fault>) -> Option<usize>
    ensures answer { result ≡ fronts out.old (row_of line outcome) }
    ensures written { out.new ≡ fronted out.old (row_of line outcome) }
    ensures short { Within outcome → length (row_of line outcome) ≤ 64 }
    ensures room { Within outcome → 64 ≤ length out.old → result ≡ Some (length (row_of line outcome)) }
{
    let mut row = [0u8; ROW_BYTES];
    let start = write_row(&mut row, line, outcome);
    put_text(out, &row[start..])
}

/// Writes the row of a line at the end of the buffer, and answers where it starts.
/// From its last byte on, as itoa writes a number: so each number stands in its place at once.
/// A text that grows, with a copy of each number, took half as long again (tried).
fn write_row(row: &mut [u8; ROW_BYTES], line: u64, outcome: Result<Answer, Fault>) -> usize
    ensures within { result ≤ 68 }
    ensures text { drop result row.new ≡ row_of line outcome }
    ensures short { Within outcome → 4 ≤ result }
{
    let end = add_text(row, ROW_BYTES, b"\n");
    let end = add_outcome(row, end, outcome);
    write_digits(line, row, end)
}

/// Writes what became of a line so that it ends at `end`, and answers where it starts, as all below.
fn add_outcome(row: &mut [u8], end: usize, outcome: Result<Answer, Fault>) -> usize
    requires { (47 ≤ end) × (end ≤ length row.old) }
    ensures starts { result + length (outcome_text outcome) ≡ end }
    ensures text { drop result row.new ≡ outcome_text outcome ++ drop end row.old }
    ensures few { length (outcome_text outcome) ≤ 47 }
    ensures short { Within outcome → length (outcome_text outcome) ≤ 29 }
{
    match outcome {
        Ok(answer) => add_answer(row, end, answer),
        Err(fault) => add_fault(row, end, fault),
    }
}

/// Writes " ok" and the values of the answer.
fn add_answer(row: &mut [u8], end: usize, answer: Answer) -> usize
    requires { (45 ≤ end) × (end ≤ length row.old) }
    ensures starts { result + length (answer_text answer) ≡ end }
    ensures text { drop result row.new ≡ answer_text answer ++ drop end row.old }
    ensures few { length (answer_text answer) ≤ 45 }
    ensures short { Within (Ok answer) → length (answer_text answer) ≤ 24 }
{
    match answer {
        Answer::Done => add_text(row, end, b" ok"),
        Answer::Word(word) => {
            let end = add_value(row, end, word);
            add_text(row, end, b" ok")
        }
        Answer::Ended(records, figure) => {
            let end = add_values(row, end, records, figure);
            add_text(row, end, b" ok")
        }
    }
}

/// Writes " no ", the layer's letter, the refusal's number and its place.
fn add_fault(row: &mut [u8], end: usize, fault: Fault) -> usize
    requires { (47 ≤ end) × (end ≤ length row.old) }
    ensures starts { result + length (fault_text fault) ≡ end }
    ensures text { drop result row.new ≡ fault_text fault ++ drop end row.old }
    ensures few { length (fault_text fault) ≤ 29 }
{
    let end = add_values(row, end, fault.number(), fault.place());
    let end = add_text(row, end, &[fault.letter() as u8]);
    add_text(row, end, b" no ")
}

/// Writes two values, each behind a space.
fn add_values(row: &mut [u8], end: usize, first: u64, second: u64) -> usize
    requires { (42 ≤ end) × (end ≤ length row.old) }
    ensures starts { result + 2 + length (decimal first) + length (decimal second) ≡ end }
    ensures text { drop result row.new ≡ spaced (first ∷ second ∷ []) ++ drop end row.old }
    ensures few { (length (decimal first) ≤ 20) × (length (decimal second) ≤ 20) }
{
    let end = add_value(row, end, second);
    add_value(row, end, first)
}

/// Writes a value behind a space.
fn add_value(row: &mut [u8], end: usize, value: u64) -> usize
    requires { (21 ≤ end) × (end ≤ length row.old) }
    ensures starts { result + 1 + length (decimal value) ≡ end }
    ensures text { drop result row.new ≡ spaced (value ∷ []) ++ drop end row.old }
    ensures few { length (decimal value) ≤ 20 }
{
    let start = write_digits(value, row, end);
    add_text(row, start, b" ")
}

/// Writes a text.
fn add_text(row: &mut [u8], end: usize, text: &[u8]) -> usize
    requires { (length text.now ≤ end) × (end ≤ length row.old) }
    ensures starts { result + length text.now ≡ end }
    ensures text { drop result row.new ≡ text.now ++ drop end row.old }
{
    let start = end - text.len();
    row[start..end].copy_from_slice(text);
    start
}
