//! The store on worked lists of calls, by thread number and through held jobs.
use crate::found::same;
use board::BoardBook;
use book::Book;
use fault::{Fault, Layer, Refusal};
use full::FullBook;
use held::HeldJob;
use memory::{Memory, Plain};
use std::process::Abort;
use std::test::Fail;
use store::{Answer, Call, Store};

const DONE: Result<Answer, Fault> = Ok(Answer::Done);

fn word(word: u64) -> Result<Answer, Fault> {
    Ok(Answer::Word(word))
}

fn ended(records: u64, figure: u64) -> Result<Answer, Fault> {
    Ok(Answer::Ended(records, figure))
}

fn by_store(refusal: Refusal) -> Result<Answer, Fault> {
    Err(Layer::Store.refuses(refusal))
}

fn by_book(refusal: Refusal) -> Result<Answer, Fault> {
    Err(Layer::Book.refuses(refusal))
}

fn past_the_end(address: u64) -> Result<Answer, Fault> {
    Err(Layer::Memory.refuses(Refusal::AddressOutOfRange(address)))
}

/// A store over so many words, all 10, with a fresh book.
fn tens<B: Book + Drop>(rt: &HostRuntime, words: usize, book: B) -> Result<Store<Plain, B>, Fail> {
    let memory = Plain::over(vec![in rt.alloc(); 10; words]?);
    Ok(Store::fresh(memory, book))
}

/// Makes the calls, each of which has the answer beside it.
fn makes<B: Book>(
    rt: &impl Abort,
    store: &mut Store<Plain, B>,
    expected: &[(Call, Result<Answer, Fault>)],
) {
    for (call, answer) in expected {
        assert_eq!(rt; store.call(*call), *answer, "{call:?}");
    }
}

#[test]
fn seats_and_drops(rt: HostRuntime) -> Result<(), Fail> {
    let mut store = tens(&rt, 512, BoardBook::new())?;
    makes(
        &rt,
        &mut store,
        &[
            (Call::Seat(16, 0), by_store(Refusal::ThreadOutOfRange(16))),
            (Call::Seat(15, 4), by_book(Refusal::BoardOutOfRange(4))),
            (Call::Drop(4, 64), by_book(Refusal::BoardOutOfRange(4))),
            (Call::Drop(3, 64), by_book(Refusal::BlockOutOfRange(64))),
            (Call::Begin(1), DONE),
            (Call::Load(1, 7), word(10)),
            // an open job may be seated elsewhere
            (Call::Seat(1, 2), DONE),
            (Call::Drop(0, 0), DONE),
            (Call::Begin(2), DONE),
            (Call::Store(2, 0, 1), by_book(Refusal::StoreConflict(1))),
            (Call::Store(1, 0, 1), DONE),
            (Call::Commit(1), ended(1, 2)),
        ],
    );
    Ok(())
}

#[test]
fn a_full_undo_log(rt: HostRuntime) -> Result<(), Fail> {
    let mut store = tens(&rt, 512, FullBook::new())?;
    makes(&rt, &mut store, &[(Call::Begin(0), DONE)]);
    for address in 0..64 {
        makes(&rt, &mut store, &[(Call::Store(0, address, address), DONE)]);
    }
    makes(
        &rt,
        &mut store,
        &[
            (Call::Store(0, 64, 1), by_store(Refusal::UndoLogFull(64))),
            (Call::Store(0, 63, 7), DONE),
            (Call::Load(0, 64), word(10)),
            (Call::Begin(1), DONE),
            // no token of the refused store is left
            (Call::Store(1, 511, 3), DONE),
            (Call::Store(1, 512, 3), past_the_end(512)),
            (Call::Commit(0), ended(64, 9)),
        ],
    );
    Ok(())
}

#[test]
fn a_conflict_names_the_lowest_other_job(rt: HostRuntime) -> Result<(), Fail> {
    let mut store = tens(&rt, 16, FullBook::new())?;
    for thread in [2u64, 9, 15] {
        makes(
            &rt,
            &mut store,
            &[
                (Call::Begin(thread), DONE),
                (Call::Load(thread, 7), word(10)),
            ],
        );
    }
    makes(
        &rt,
        &mut store,
        &[
            (Call::Store(9, 0, 1), by_book(Refusal::StoreConflict(2))),
            (Call::Store(2, 0, 1), by_book(Refusal::StoreConflict(9))),
            (Call::Store(15, 8, 1), DONE),
            (Call::Load(2, 15), by_book(Refusal::LoadConflict(15))),
            (Call::Commit(2), ended(0, 1)),
            (Call::Abort(9), ended(0, 1)),
            // its own load is the only token left
            (Call::Store(15, 0, 1), DONE),
        ],
    );
    Ok(())
}

#[test]
fn every_refusal_at_its_edge(rt: HostRuntime) -> Result<(), Fail> {
    let mut store = tens(&rt, 0, FullBook::new())?;
    makes(
        &rt,
        &mut store,
        &[
            (Call::Begin(16), by_store(Refusal::ThreadOutOfRange(16))),
            (Call::Load(15, 0), by_store(Refusal::NoJobOpen(15))),
            (Call::Begin(15), DONE),
            (Call::Begin(15), by_store(Refusal::JobOpen(15))),
            (Call::Load(15, 0), past_the_end(0)),
            (Call::Store(15, u64::MAX, 0), past_the_end(u64::MAX)),
            (Call::Commit(15), ended(0, 0)),
            (Call::Abort(15), by_store(Refusal::NoJobOpen(15))),
            (
                Call::Commit(u64::MAX),
                by_store(Refusal::ThreadOutOfRange(u64::MAX)),
            ),
        ],
    );
    Ok(())
}

#[test]
fn jobs_on_different_blocks(rt: HostRuntime) -> Result<(), Fail> {
    let mut store = tens(&rt, 512, FullBook::new())?;
    for thread in 0..16 {
        makes(
            &rt,
            &mut store,
            &[
                (Call::Begin(thread), DONE),
                (Call::Store(thread, 8 * thread, thread), DONE),
                (Call::Load(thread, 8 * thread + 7), word(10)),
            ],
        );
    }
    for thread in 0..16 {
        makes(&rt, &mut store, &[(Call::Commit(thread), ended(1, 1))]);
    }
    holds(&rt, store.memory(), &[(0, 0), (7, 10), (120, 15)]);
    Ok(())
}

/// Whether the memory has these words at these addresses.
fn holds(rt: &impl Abort, memory: &Plain, expected: &[(u64, u64)]) {
    for (address, word) in expected {
        assert_eq!(rt; memory.read(*address), Ok(*word), "at {address}");
    }
}

/// What a held job is asked for.
#[derive(Clone, Copy)]
enum Access {
    Load(u64),
    Store(u64, u64),
}

fn answer_of<B: Book>(
    job: &HeldJob,
    store: &mut Store<Plain, B>,
    asked: Access,
) -> Result<Answer, Fault> {
    match asked {
        Access::Load(address) => job.load(store, address).map(Answer::Word),
        Access::Store(address, word) => job.store(store, address, word).map(|()| Answer::Done),
    }
}

#[test]
fn three_jobs_held_at_once(rt: HostRuntime) -> Result<(), Fail> {
    let mut store = tens(&rt, 512, FullBook::new())?;
    let first = HeldJob::begin(&mut store, 1).expect(&rt, "thread 1 is idle");
    let second = HeldJob::begin(&mut store, 2).expect(&rt, "thread 2 is idle");
    let third = HeldJob::begin(&mut store, 3).expect(&rt, "thread 3 is idle");
    for (job, asked, answer) in [
        (&first, Access::Store(0, 11), DONE),
        (&second, Access::Load(8), word(10)),
        (&third, Access::Load(15), word(10)),
        // threads 2 and 3 have read in the block, and the lower one is named
        (
            &first,
            Access::Store(9, 12),
            by_book(Refusal::StoreConflict(2)),
        ),
        (&second, Access::Store(16, 20), DONE),
        (&first, Access::Store(0, 13), DONE),
    ] {
        assert_eq!(rt; answer_of(job, &mut store, asked), answer);
    }
    // a call by thread number goes to the job that is held
    makes(
        &rt,
        &mut store,
        &[
            (Call::Store(3, 24, 30), DONE),
            (Call::Load(3, 24), word(30)),
            (Call::Commit(3), ended(1, 2)),
        ],
    );
    let gone = Layer::Store.refuses(Refusal::NoJobOpen(3));
    same(&rt, "load", third.load(&mut store, 24), Err(gone));
    same(&rt, "commit", third.commit(&mut store), Err(gone));
    same(&rt, "abort", second.abort(&mut store), Ok((1, 2)));
    // both readers are gone
    same(&rt, "store", first.store(&mut store, 9, 12), Ok(()));
    same(&rt, "commit", first.commit(&mut store), Ok((2, 2)));
    holds(
        &rt,
        store.memory(),
        &[(0, 13), (8, 10), (9, 12), (16, 10), (24, 30)],
    );
    Ok(())
}
