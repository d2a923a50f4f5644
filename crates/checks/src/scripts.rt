//! Scripts at the edges of their format, run on a fresh board book over 16 words.
use board::BoardBook;
use console::run_fresh;
use memory::Plain;
use std::test::Fail;

/// Whether the script's report, in a buffer of so many bytes, is as expected, and every byte behind it still 33.
fn reports(rt: &HostRuntime, script: &[u8], size: usize, expected: &[u8]) -> Result<bool, Fail> {
    let mut report = vec![in rt.alloc(); 33u8; size]?;
    let table = Plain::over(vec![in rt.alloc(); 5; 16]?);
    let (_store, ran) = run_fresh(table, BoardBook::new(), script, &mut report);
    Ok(
        ran.fill == expected.len()
            && report.starts_with(expected)
            && report.iter().skip(ran.fill).all(|byte| *byte == 33),
    )
}

#[test]
fn small_reports(rt: HostRuntime) -> Result<(), Fail> {
    for (size, expected) in [
        (0usize, ""),
        (63, ""),
        (64, "1 ok\n"),
        (65, "1 ok\n"),
        (68, "1 ok\n"),
        (69, "1 ok\n2 ok 5\n"),
    ] {
        assert!(rt;
            reports(&rt, b"b 1\nl 1 0\n", size, expected.as_bytes())?,
            "{size}"
        );
    }
    assert!(rt; reports(&rt, b"", 64, b"")?);
    Ok(())
}
