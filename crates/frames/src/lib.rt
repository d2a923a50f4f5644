//! Frames of a buoy report: blocks of eight big-endian words, unpacked into a table of words.
#![tactic(auto)]

ghost use Rattle.std.specs.Prelude.{◌≡◌, ◌*◌, ◌≤◌, ◌↔◌, length, take, replicate};
ghost use Rattle.std.specs.Prelude.{Ok, IsOk, IfOk, IsTrue};
ghost use Rattle.frames.specs.Frames.{copied, count_of, unpacked_answer, unpacked_blocks, unpacked_words};

use fault::Fault;
use memory::{ImageArray, MOST_BYTES, MOST_WORDS, Memory, PlainArray, Window, front};

/// Copies word by word, up to the end of the smaller memory, and answers how many words were
/// copied.
#[tactic(auto, using(crate::proofs::Copies::copying))]
pub fn copy<S: Memory, D: Memory>(from: &S, to: &mut D) -> Result<u64, Fault>
    ensures answer { result ≡ Ok (count_of (S.Memory.words from.now) (D.Memory.words to.old)) }
    ensures after { D.Memory.words to.new ≡ copied (S.Memory.words from.now) (D.Memory.words to.old) }
    ensures beyond { D.Memory.beyond to.new ≡ D.Memory.beyond to.old }
{
    let count = 8 * from.size().min(to.size());
    // by address: a memory lends no list of its words to go over
    for address in 0..count {
        let word = from.read(address)?;
        to.write(address, word)?;
    }
    Ok(count)
}

/// What was unpacked, and how many bytes were left over behind it.
#[derive(Clone, Copy, PartialEq, Eq, Debug)]
pub struct Unpacked {
    pub blocks: u64,
    pub words: u64,
    pub trailing: u64,
}

/// Copies the whole frames of a report through a window over the front of a table, and answers how
/// many words they have.
#[tactic(auto, using(crate::proofs::Unpacks::unpacking))]
fn copy_frames<M: Memory + Drop>(report: &[u8], table: M) -> Result<(M, u64), Fault>
    ensures granted { IsOk result }
    ensures table { IfOk result (λ done.
        M.words done.0 ≡ unpacked_words report.now (M.words table)) }
    ensures beyond { IfOk result (λ done. M.beyond done.0 ≡ M.beyond table) }
    ensures words { IfOk result (λ done.
        done.1 ≡ 8 * unpacked_blocks report.now (M.words table)) }
{
    let frames = ImageArray::copy_of(report);
    let mut window = Window::over(table, 0, frames.size());
    let words = copy(&frames, &mut window)?;
    Ok((window.into_below(), words))
}

/// Unpacks the whole frames of a report into the front of a table, as many as there are (64 at
/// most) and as the table has room for. The table is given back beside what was done; the answer is
/// never a refusal.
pub fn unpack<M: Memory + Drop>(report: &[u8], table: M) -> Result<(M, Unpacked), Fault>
    ensures granted { IsOk result }
    ensures table { IfOk result (λ done.
        M.words done.0 ≡ unpacked_words report.now (M.words table)) }
    ensures beyond { IfOk result (λ done. M.beyond done.0 ≡ M.beyond table) }
    ensures answer { IfOk result (λ done.
        done.1 ≡ unpacked_answer report.now (M.words table)) }
{
    let (table, words) = copy_frames(report, table)?;
    let blocks = words / 8;
    let trailing = report.len() as u64 - 64 * blocks;
    Ok((
        table,
        Unpacked {
            blocks,
            words,
            trailing,
        },
    ))
}

/// What the program `unpack` makes of its input.
#[derive(Drop)]
pub struct Report {
    pub table: PlainArray<MOST_WORDS>,
    pub unpacked: Unpacked,
    /// whether there are 4,096 bytes, so that there may be more that was not read
    pub full: bool,
}

/// All that the program `unpack` does with the bytes that it reads: the frames of the first 4,096
/// go into a table of 512 zero words.
pub fn unpack_input(input: &[u8]) -> Report
    ensures table { result.table.buffer.items
        ≡ unpacked_words (take 4096 input.now) (replicate 512 0) }
    ensures unpacked { result.unpacked ≡ unpacked_answer (take 4096 input.now) (replicate 512 0) }
    ensures full { IsTrue result.full ↔ (4096 ≤ length input.now) }
    // what the program reads by
    ensures limit { MOST_BYTES ≡ 4096 }
{
    let read = front(input, MOST_BYTES);
    let (table, unpacked) = unpack(read, PlainArray::filled(0)).unwrap();
    Report {
        table,
        unpacked,
        full: input.len() >= MOST_BYTES,
    }
}
