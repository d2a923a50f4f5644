//! Both books on the same worked sequences: the same answers and holdings, each with its own figures.
use crate::found::same;
use board::BoardBook;
use book::{Book, Marked};
use fault::{Fault, Layer, Refusal};
use full::FullBook;
use std::process::Abort;
use std::test::Fail;

/// What is asked of a book, with the numbers in the order of its methods.
#[derive(Clone, Copy, Debug)]
enum Asked {
    Load(u64, u64),
    Store(u64, u64),
    Release(u64),
    Held(u64, u64),
    Seat(u64, u64),
    Drop(u64, u64),
}

/// The book's answer: no number where it only grants.
fn answer_of<B: Book>(book: &mut B, asked: Asked) -> Result<Option<u64>, Fault> {
    match asked {
        Asked::Load(thread, block) => book.take_for_load(thread, block).map(|()| None),
        Asked::Store(thread, block) => book.take_for_store(thread, block).map(|()| None),
        Asked::Release(thread) => book.release(thread).map(Some),
        Asked::Held(thread, block) => book.held(thread, block).map(Some),
        Asked::Seat(thread, board) => book.seat(thread, board).map(|()| None),
        Asked::Drop(board, block) => book.drop_copy(board, block).map(|()| None),
    }
}

const DONE: Result<Option<u64>, Fault> = Ok(None);

fn refused(refusal: Refusal) -> Result<Option<u64>, Fault> {
    Err(Layer::Book.refuses(refusal))
}

fn no_block(block: u64) -> Fault {
    Layer::Book.refuses(Refusal::BlockOutOfRange(block))
}

fn answers<B: Book>(
    rt: &impl Abort,
    book: &mut B,
    expected: &[(Asked, Result<Option<u64>, Fault>)],
) {
    for (asked, answer) in expected {
        assert_eq!(rt; answer_of(book, *asked), *answer, "{asked:?}");
    }
}

/// Loads from several boards, a refused store, drops, and a store once the other readers are gone. The last release is
/// of a thread that loaded a block and then stored there, and loaded another: its figure is the book's own.
fn worked<B: Book>(rt: &impl Abort, book: &mut B, figure: u64) {
    answers(
        rt,
        book,
        &[
            (Asked::Seat(1, 1), DONE),
            (Asked::Seat(2, 3), DONE),
            (Asked::Load(1, 5), DONE),
            (Asked::Load(2, 5), DONE),
            (Asked::Load(0, 5), DONE),
            (Asked::Held(2, 5), Ok(Some(1))),
            (Asked::Store(2, 5), refused(Refusal::StoreConflict(0))),
            // a refused store keeps the token of its load
            (Asked::Held(2, 5), Ok(Some(1))),
            (Asked::Drop(3, 5), DONE),
            (Asked::Drop(0, 5), DONE),
            (Asked::Release(0), Ok(Some(1))),
            (Asked::Store(2, 5), refused(Refusal::StoreConflict(1))),
            (Asked::Release(1), Ok(Some(1))),
            (Asked::Store(2, 5), DONE),
            (Asked::Held(2, 5), Ok(Some(64))),
            (Asked::Load(7, 5), refused(Refusal::LoadConflict(2))),
            (Asked::Load(2, 5), DONE),
            (Asked::Load(2, 63), DONE),
            (Asked::Release(2), Ok(Some(figure))),
            (Asked::Held(2, 5), Ok(Some(0))),
            (Asked::Load(7, 5), DONE),
        ],
    );
}

/// Thread, board and block are refused in this order, before anything else is looked at.
fn edges<B: Book>(rt: &impl Abort, book: &mut B) {
    let no_thread = refused(Refusal::ThreadOutOfRange(16));
    let no_board = refused(Refusal::BoardOutOfRange(4));
    answers(
        rt,
        book,
        &[
            (Asked::Load(16, 64), no_thread),
            (Asked::Load(15, 64), Err(no_block(64))),
            (Asked::Load(15, 63), DONE),
            (
                Asked::Store(u64::MAX, 0),
                refused(Refusal::ThreadOutOfRange(u64::MAX)),
            ),
            (Asked::Store(0, u64::MAX), Err(no_block(u64::MAX))),
            (Asked::Release(16), no_thread),
            (Asked::Held(16, 0), no_thread),
            (Asked::Held(0, 64), Err(no_block(64))),
            (Asked::Seat(16, 4), no_thread),
            (Asked::Seat(0, 4), no_board),
            (Asked::Drop(4, 64), no_board),
            (Asked::Drop(3, 64), Err(no_block(64))),
        ],
    );
}

#[test]
fn worked_on_both(rt: HostRuntime) {
    let mut full = FullBook::new();
    worked(&rt, &mut full, 2);
    edges(&rt, &mut full);

    let mut board = BoardBook::new();
    // a block loaded and then stored to has two records
    worked(&rt, &mut board, 3);
    edges(&rt, &mut board);
    same(&rt, "tokens shown", board.tokens(5), Ok(1));
    same(
        &rt,
        "tokens of no block",
        board.tokens(64),
        Err(no_block(64)),
    );
    same(
        &rt,
        "codes of no block",
        board.codes(u64::MAX),
        Err(no_block(u64::MAX)),
    );
}
