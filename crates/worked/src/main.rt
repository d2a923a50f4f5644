//! A worked list of calls, replayed on the board book: a receiver stores the figures of one half hour after the other, a writer
//! reads them, and a radio link disturbs both by seats and drops. Prints each answer, what each finished job of the
//! writer read, and the tokens that the blocks show at the end.
//!
//! Before that, the marks of one block through a worked sequence of takes.
//! Word 0 has the number of the half hour beside the wave height (word 1), word 8 has it beside the period (word 9).
#![tactic(auto)]

mod marked_block;

use board::BoardBook;
use book::Marked;
use memory::Plain;
use std::{fmt, io};
use store::{Answer, Call, Turn};

const WRITER: u64 = 2;

const CALLS: [Call; 38] = [
    // half hour 1 arrives
    Call::Begin(1),
    Call::Store(1, 0, 1),
    Call::Store(1, 1, 812),
    Call::Store(1, 8, 1),
    Call::Store(1, 9, 640),
    Call::Commit(1),
    // the writer reads its height while half hour 2 comes in, and the link is disturbed
    Call::Seat(2, 1),
    Call::Begin(2),
    Call::Load(2, 0),
    Call::Load(2, 1),
    Call::Begin(1),
    Call::Store(1, 8, 2),
    Call::Store(1, 9, 655),
    Call::Drop(1, 0),
    Call::Store(1, 0, 2),
    Call::Seat(2, 3),
    Call::Load(2, 8),
    // the receiver yields and begins again later
    Call::Abort(1),
    Call::Drop(0, 1),
    Call::Load(2, 8),
    Call::Load(2, 9),
    Call::Commit(2),
    Call::Begin(1),
    Call::Store(1, 0, 2),
    Call::Store(1, 1, 845),
    Call::Store(1, 8, 2),
    Call::Store(1, 9, 655),
    Call::Commit(1),
    Call::Begin(2),
    Call::Load(2, 0),
    Call::Load(2, 8),
    Call::Commit(2),
    // three jobs stay open
    Call::Begin(3),
    Call::Load(3, 0),
    Call::Begin(4),
    Call::Load(4, 1),
    Call::Begin(1),
    Call::Store(1, 8, 3),
];

/// A call, as the list prints it.
#[derive(Clone, Copy)]
struct CallText(Call);

impl fmt::Display for CallText {
    fn fmt<W: fmt::Write>(&self, f: &mut fmt::Formatter<W>) -> fmt::Result {
        match self.0 {
            Call::Begin(thread) => write!(f, "begin {thread}"),
            Call::Load(thread, address) => write!(f, "load {thread} {address}"),
            Call::Store(thread, address, word) => write!(f, "store {thread} {address} {word}"),
            Call::Commit(thread) => write!(f, "commit {thread}"),
            Call::Abort(thread) => write!(f, "abort {thread}"),
            Call::Seat(thread, board) => write!(f, "seat {thread} {board}"),
            Call::Drop(board, block) => write!(f, "drop {board} {block}"),
        }
    }
}

/// An answer, as the list prints it.
#[derive(Clone, Copy)]
struct AnswerText(Answer);

impl fmt::Display for AnswerText {
    fn fmt<W: fmt::Write>(&self, f: &mut fmt::Formatter<W>) -> fmt::Result {
        match self.0 {
            Answer::Done => write!(f, "granted"),
            Answer::Word(word) => write!(f, "{word}"),
            Answer::Ended(records, figure) => write!(f, "{records} records, figure {figure}"),
        }
    }
}

fn print_turn(rt: &HostRuntime, turn: Turn) -> io::Result<()> {
    let call = CallText(turn.call);
    match turn.answer {
        Some(Ok(answer)) => println!(rt; "{call}: {}", AnswerText(answer)),
        Some(Err(fault)) => println!(rt; "{call}: refused, {fault}"),
        None => println!(rt; "{call}: not made"),
    }
}

fn print_reading(rt: &HostRuntime, height: u64, period: u64) -> io::Result<()> {
    let tables = if height == period {
        "one table"
    } else {
        "two tables"
    };
    println!(rt;
        "a finished job read height of half hour {height} and period of half hour {period}: {tables}"
    )
}

/// What each finished job of the writer read as the half hour of the height and of the period.
fn print_readings(rt: &HostRuntime, turns: &[Turn]) -> io::Result<()> {
    let mut height = 0;
    let mut period = 0;
    for turn in turns {
        match (turn.call, turn.answer) {
            (Call::Load(WRITER, 0), Some(Ok(Answer::Word(hour)))) => height = hour,
            (Call::Load(WRITER, 8), Some(Ok(Answer::Word(hour)))) => period = hour,
            (Call::Commit(WRITER), Some(Ok(_))) => print_reading(rt, height, period)?,
            _ => {}
        }
    }
    Ok(())
}

fn print_tokens(rt: &HostRuntime, book: &BoardBook, block: u64) -> io::Result<()> {
    match book.tokens(block) {
        Ok(tokens) => println!(rt; "block {block} shows {tokens} tokens"),
        Err(fault) => println!(rt; "block {block}: refused, {fault}"),
    }
}

fn replay_list(rt: &HostRuntime) -> io::Result<()> {
    let mut turns = CALLS.map(|call| Turn { call, answer: None });
    let memory = Plain::over(vec![in rt.alloc(); 0; 512]?);
    let store = store::replay_marked(memory, BoardBook::new(), &mut turns);
    for turn in turns {
        print_turn(rt, turn)?;
    }
    print_readings(rt, &turns)?;
    print_tokens(rt, store.book(), 0)?;
    print_tokens(rt, store.book(), 1)
}

fn main(rt: HostRuntime) -> io::Result<()> {
    marked_block::show(&rt)?;
    println!(rt; "")?;
    replay_list(&rt)
}
