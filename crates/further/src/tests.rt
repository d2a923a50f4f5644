//! The store over a mirror of words and bytes, with the book of holders.
use crate::{HolderBook, Mirror};
use book::Book;
use fault::{Fault, Layer, Refusal};
use memory::{Image, Memory, Plain};
use std::process::Abort;
use std::test::Fail;
use store::{Answer, Call, Store, Turn};

/// Two blocks, of words that are all 10 and of bytes that become the same.
fn tens(rt: &HostRuntime) -> Result<Mirror<Plain, Image>, Fail> {
    let words = Plain::over(vec![in rt.alloc(); 10; 16]?);
    let bytes = Image::over(vec![in rt.alloc(); 0; 128]?);
    Ok(Mirror::over(words, bytes).ok().ok_or("sizes differ")?)
}

fn refused(refusal: Refusal) -> Result<Answer, Fault> {
    Err(Layer::Book.refuses(refusal))
}

/// Calls and their answers: a job is seated elsewhere and aborted, others meet in two blocks, and the last one stays open.
fn listed() -> [(Call, Result<Answer, Fault>); 26] {
    let done = Ok(Answer::Done);
    let ten = Ok(Answer::Word(10));
    let past_the_end = Layer::Memory.refuses(Refusal::AddressOutOfRange(16));
    [
        (Call::Seat(0, 3), done),
        (Call::Begin(0), done),
        (Call::Load(0, 1), ten),
        (Call::Store(0, 1, u64::MAX), done),
        (Call::Drop(3, 0), done),
        (Call::Begin(9), done),
        (Call::Load(9, 0), refused(Refusal::LoadConflict(0))),
        (Call::Abort(0), Ok(Answer::Ended(1, 1))),
        (Call::Load(9, 1), ten),
        (Call::Load(9, 16), Err(past_the_end)),
        (Call::Begin(3), done),
        (Call::Load(3, 0), ten),
        // the lower-numbered of two readers
        (Call::Begin(5), done),
        (Call::Store(5, 0, 1), refused(Refusal::StoreConflict(3))),
        (Call::Store(5, 8, 50), done),
        (Call::Load(9, 15), refused(Refusal::LoadConflict(5))),
        (Call::Commit(3), Ok(Answer::Ended(0, 1))),
        // the only reader left
        (Call::Store(9, 0, 90), done),
        (Call::Store(9, 9, 91), refused(Refusal::StoreConflict(5))),
        (Call::Abort(9), Ok(Answer::Ended(1, 1))),
        (Call::Load(5, 0), ten),
        (Call::Commit(5), Ok(Answer::Ended(1, 2))),
        (Call::Begin(0), done),
        (Call::Store(0, 1, 70), done),
        (Call::Load(0, 1), Ok(Answer::Word(70))),
        (Call::Load(0, 8), Ok(Answer::Word(50))),
    ]
}

/// What the list leaves: thread 0 has stored in block 0, and both memories of the mirror hold the same words.
fn is_left(rt: &impl Abort, store: &Store<Mirror<Plain, Image>, HolderBook>) {
    assert_eq!(rt; store.book().held(0, 0), Ok(64));
    for address in 0..16 {
        let word = match address {
            1 => 70,
            8 => 50,
            _ => 10,
        };
        let both = store.memory();
        let found = (both.first().read(address), both.second().read(address));
        assert_eq!(rt; found, (Ok(word), Ok(word)), "{address}");
    }
}

#[test]
fn a_list_of_calls(rt: HostRuntime) -> Result<(), Fail> {
    let mut store = Store::fresh(tens(&rt)?, HolderBook::new());
    for (call, answer) in listed() {
        assert_eq!(rt; store.call(call), answer, "{call:?}");
    }
    is_left(&rt, &store);
    Ok(())
}

#[test]
fn a_replayed_list(rt: HostRuntime) -> Result<(), Fail> {
    let mut turns = listed().map(|(call, _)| Turn { call, answer: None });
    let store = store::replay(tens(&rt)?, HolderBook::new(), &mut turns);
    for (turn, (_, answer)) in turns.iter().zip(listed()) {
        assert_eq!(rt; turn.answer, Some(answer));
    }
    is_left(&rt, &store);
    Ok(())
}

#[test]
fn sizes_that_differ(rt: HostRuntime) -> Result<(), Fail> {
    let words = Plain::over(vec![in rt.alloc(); 10; 16]?);
    let bytes = Image::over(vec![in rt.alloc(); 0; 64]?);
    let (words, bytes) = Mirror::over(words, bytes).err().ok_or("sizes differ")?;
    assert_eq!(rt; (words.read(15), bytes.read(0)), (Ok(10), Ok(0)));
    Ok(())
}
