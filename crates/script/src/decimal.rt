//! Decimal numbers: reading a field, and writing into a report.
ghost use Rattle.std.specs.Prelude.{◌≡◌, take, IfSome, Some, decimal};
ghost use Rattle.script.specs.Numerals.{Reads, number_in, opened, pushed};
ghost use Rattle.script.specs.Writing.{fronted, fronts};

use super::writing::put_text;
use itoa::Buffer;

/// The number that a field writes in decimal, below 2^64 and with no leading zero.
pub fn number(field: &[u8]) -> Option<u64>
    ensures answer { result ≡ number_in field.now }
    ensures writing { Reads field.now result }
{
    if !opens_number(field) {
        return None;
    }
    field
        .iter()
        .try_fold(0u64, |sum, byte| push_digit(sum, *byte))
}

/// Not empty, and no leading zero but for 0 itself.
fn opens_number(field: &[u8]) -> bool
    ensures { result ≡ opened field.now }
{
    match field {
        [] => false,
        [_] => true,
        [first, _, ..] => *first != b'0',
    }
}

/// The number that one more digit behind `sum` writes.
fn push_digit(sum: u64, byte: u8) -> Option<u64>
    ensures { result ≡ pushed sum byte }
{
    match byte {
        b'0'..=b'9' => sum.checked_mul(10)?.checked_add((byte - b'0') as u64),
        _ => None,
    }
}

/// Writes the number at the front of the buffer and answers how many bytes that took.
/// Where there is no room, nothing is written.
pub fn put_number(out: &mut [u8], n: u64) -> Option<usize>
    ensures answer { result ≡ fronts out.old (decimal n) }
    ensures written { out.new ≡ fronted out.old (decimal n) }
    ensures readback { IfSome result (λ k. number_in (take k out.new) ≡ Some n) }
{
    put_text(out, Buffer::new().format(n).as_bytes())
}
