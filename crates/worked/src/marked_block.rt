//! The marks of one block through loads from two boards, a refused store, a drop, releases and a granted store.
use board::BoardBook;
use book::{Book, Marked};
use fault::Fault;
use std::io;

const BLOCK: u64 = 5;

/// The tokens that the block shows, and its codes: home, then boards 0 to 3.
fn print_marks(rt: &HostRuntime, book: &BoardBook) -> io::Result<()> {
    // The block is in range, so neither call refuses.
    if let (Ok(tokens), Ok(codes)) = (book.tokens(BLOCK), book.codes(BLOCK)) {
        println!(rt; "  shows {tokens}, codes {codes:?}")?;
    }
    Ok(())
}

fn print_refused(rt: &HostRuntime, what: &str, fault: Fault) -> io::Result<()> {
    println!(rt; "{what}: refused, {fault}")
}

fn print_answer(rt: &HostRuntime, what: &str, answer: Result<(), Fault>) -> io::Result<()> {
    match answer {
        Ok(()) => println!(rt; "{what}: granted"),
        Err(fault) => print_refused(rt, what, fault),
    }
}

/// A take's answer, and the marks after it.
fn print_take(
    rt: &HostRuntime,
    what: &str,
    answer: Result<(), Fault>,
    book: &BoardBook,
) -> io::Result<()> {
    print_answer(rt, what, answer)?;
    print_marks(rt, book)
}

/// A thread's release, its figure, and the marks after it.
fn release(rt: &HostRuntime, thread: u64, book: &mut BoardBook) -> io::Result<()> {
    match book.release(thread) {
        Ok(figure) => println!(rt; "thread {thread} releases: {figure} records")?,
        Err(fault) => print_refused(rt, "release", fault)?,
    }
    print_marks(rt, book)
}

fn readers(rt: &HostRuntime, book: &mut BoardBook) -> io::Result<()> {
    print_answer(rt, "thread 7 sits on board 2", book.seat(7, 2))?;
    let taken = book.take_for_load(3, BLOCK);
    print_take(rt, "thread 3 loads from board 0", taken, book)?;
    let taken = book.take_for_load(7, BLOCK);
    print_take(rt, "thread 7 loads from board 2", taken, book)?;
    let taken = book.take_for_store(4, BLOCK);
    print_take(rt, "thread 4 stores", taken, book)
}

fn writer(rt: &HostRuntime, book: &mut BoardBook) -> io::Result<()> {
    print_answer(rt, "board 0 drops its copy", book.drop_copy(0, BLOCK))?;
    release(rt, 7, book)?;
    let taken = book.take_for_store(3, BLOCK);
    print_take(rt, "thread 3 stores after its own load", taken, book)?;
    let taken = book.take_for_load(7, BLOCK);
    print_take(rt, "thread 7 loads from board 2", taken, book)?;
    release(rt, 3, book)
}

pub fn show(rt: &HostRuntime) -> io::Result<()> {
    println!(rt; "block {BLOCK} of a fresh board book")?;
    let mut book = BoardBook::new();
    print_marks(rt, &book)?;
    readers(rt, &mut book)?;
    writer(rt, &mut book)
}
