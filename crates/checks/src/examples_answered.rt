//! The worked examples, made at run time.
use crate::found::same;
use examples::{Ended, worked_examples};
use fault::{Layer, Refusal};
use marks::{Mark, Metastate};

#[test]
fn examples_of_marks(rt: HostRuntime) {
    let made = worked_examples();
    let apart = Err(Layer::Marks.refuses(Refusal::MarksApart(64)));
    for (case, fused, state) in [
        (
            "a reader and none",
            made.reader_kept,
            Ok(Metastate::Reader(3)),
        ),
        (
            "two readers",
            made.readers_counted,
            Ok(Metastate::Anonymous(2)),
        ),
        (
            "a third reader",
            made.reader_added,
            Ok(Metastate::Anonymous(3)),
        ),
        (
            "a writer and itself",
            made.writer_kept,
            Ok(Metastate::Writer(3)),
        ),
        ("a writer and none", made.writer_refused, apart),
        (
            "63 readers",
            made.most_readers,
            Ok(Metastate::Anonymous(63)),
        ),
        ("64 readers", made.too_many_readers, apart),
    ] {
        same(&rt, case, fused.map(Mark::state), state);
    }
    same(&rt, "a reader's code", made.reader_code, 16387);
    same(&rt, "a writer's code", made.writer_code, 32771);
}

#[test]
fn examples_of_jobs(rt: HostRuntime) {
    let made = worked_examples();
    for (case, ended, figure, word) in [
        ("aborted, board book", made.aborted_on_board, 1, 10),
        ("aborted, full book", made.aborted_on_full, 1, 10),
        ("committed, board book", made.committed_on_board, 2, 11),
        ("committed, full book", made.committed_on_full, 1, 11),
    ] {
        let answer = (1, figure);
        same(&rt, case, ended, Ok(Ended { answer, word }));
    }
}

#[test]
fn marks_out_of_range(rt: HostRuntime) {
    for (state, is_mark) in [
        (Metastate::Anonymous(63), true),
        (Metastate::Anonymous(64), false),
        (Metastate::Reader(15), true),
        (Metastate::Reader(16), false),
        (Metastate::Writer(u64::MAX), false),
    ] {
        assert_eq!(rt; Mark::new(state).is_some(), is_mark, "{state:?}");
    }
}
