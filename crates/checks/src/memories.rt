//! Memories at their boundaries.
use crate::found::same;
use fault::{Fault, Layer, Refusal};
use memory::{Image, Memory, Plain, Window};
use std::test::Fail;

fn past_the_end(address: u64) -> Fault {
    Layer::Memory.refuses(Refusal::AddressOutOfRange(address))
}

/// Words 1, 2, 3 and so on.
fn counting(rt: &HostRuntime, count: u64) -> Result<Plain, Fail> {
    Ok(Plain::over((1..=count).collect(rt.alloc())?))
}

/// Whether the memory has so many blocks, and none of the words behind them.
fn ends_at<M: Memory + Drop>(memory: M, blocks: u64) -> bool {
    memory.size() == blocks && memory.read(8 * blocks) == Err(past_the_end(8 * blocks))
}

#[test]
fn sizes(rt: HostRuntime) -> Result<(), Fail> {
    for (words, blocks) in [
        (0usize, 0u64),
        (7, 0),
        (8, 1),
        (9, 1),
        (511, 63),
        (512, 64),
        (513, 64),
        (520, 64),
    ] {
        assert!(rt; ends_at(Plain::over(vec![in rt.alloc(); 0; words]?), blocks));
    }
    for (bytes, blocks) in [
        (0usize, 0u64),
        (63, 0),
        (64, 1),
        (65, 1),
        (4096, 64),
        (4100, 64),
    ] {
        assert!(rt; ends_at(Image::over(vec![in rt.alloc(); 0; bytes]?), blocks));
    }
    Ok(())
}

#[test]
fn words_in_place(rt: HostRuntime) -> Result<(), Fail> {
    let mut plain = counting(&rt, 520)?;
    same(&rt, "the last word", plain.write(511, 77), Ok(()));
    let past = past_the_end(512);
    same(&rt, "behind the last word", plain.write(512, 78), Err(past));
    for (address, word) in [
        (510, Ok(511)),
        (511, Ok(77)),
        (512, Err(past)),
        (u64::MAX, Err(past_the_end(u64::MAX))),
    ] {
        assert_eq!(rt; plain.read(address), word, "{address}");
    }
    let behind = plain.buffer().get(512).copied();
    same(&rt, "a word that is in no block", behind, Some(513));
    Ok(())
}

#[test]
fn bytes_in_place(rt: HostRuntime) -> Result<(), Fail> {
    let mut image = Image::over(vec![in rt.alloc(); 0; 64]?);
    let word = 0x0102_0304_0506_0708;
    same(&rt, "write", image.write(1, word), Ok(()));
    same(&rt, "read", image.read(1), Ok(word));
    let bytes = [0u8, 1, 2, 3, 4, 5, 6, 7, 8, 0];
    assert_eq!(rt; image.buffer().get(7..17), Some(bytes.as_slice()));
    Ok(())
}

#[test]
fn windows(rt: HostRuntime) -> Result<(), Fail> {
    for (first, count, blocks) in [
        (0u64, 3u64, 3u64),
        (1, 1, 1),
        (1, u64::MAX, 2),
        (3, 1, 0),
        (u64::MAX, u64::MAX, 0),
        (0, 0, 0),
    ] {
        assert!(rt; ends_at(Window::over(counting(&rt, 24)?, first, count), blocks));
    }
    Ok(())
}

#[test]
fn a_window_in_a_window(rt: HostRuntime) -> Result<(), Fail> {
    let mut nested = Window::over(Window::over(counting(&rt, 40)?, 1, 3), 1, u64::MAX);
    same(&rt, "size", nested.size(), 2);
    same(&rt, "first word", nested.read(0), Ok(17));
    same(&rt, "last word", nested.write(15, 99), Ok(()));
    same(&rt, "past it", nested.write(16, 98), Err(past_the_end(16)));
    let below = nested.into_below().into_below();
    same(&rt, "last word, below", below.read(31), Ok(99));
    same(&rt, "past it, below", below.read(32), Ok(33));
    Ok(())
}

#[test]
fn reports_of_any_length(rt: HostRuntime) -> Result<(), Fail> {
    for (bytes, blocks, words, trailing, full) in [
        (0usize, 0u64, 0u64, 0u64, false),
        (5, 0, 0, 5, false),
        (64, 1, 8, 0, false),
        (130, 2, 16, 2, false),
        (4095, 63, 504, 63, false),
        (4096, 64, 512, 0, true),
        (4100, 64, 512, 0, true),
    ] {
        let report = frames::unpack_input(&vec![in rt.alloc(); 1; bytes]?);
        let done = report.unpacked;
        let found = (done.blocks, done.words, done.trailing, report.full);
        assert_eq!(rt; found, (blocks, words, trailing, full));
        let first = if blocks > 0 { 0x0101_0101_0101_0101 } else { 0 };
        same(&rt, "first word", report.table.read(0), Ok(first));
    }
    Ok(())
}
