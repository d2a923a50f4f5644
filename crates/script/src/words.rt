//! Fields of a line: what stands between its spaces.
ghost use Rattle.std.specs.Prelude.{◌≡◌, length, ◌==◌, count_by, slice_get};
ghost use Rattle.std.specs.Option.{option_map};
ghost use Rattle.script.specs.Pieces.{FieldLaw, fields_of};
ghost use Rattle.script.specs.Words.{FieldAt, bytes_of, leads, position_of};

/// A field: bytes borrowed from its line, and its position there, counted from 1.
/// Two cases, so that the letter is never taken for a number.
#[derive(Clone, Copy)]
pub enum Word<'a> {
    /// the first field, which names the command
    Letter(&'a [u8], u64),
    /// a later field, which should write a number
    Number(&'a [u8], u64),
}

/// The field at a position, or none where the line has no such field.
#[tactic(auto, using(std::proofs::lemmas::Option::slice_get_cases, std::proofs::lemmas::Grind::common_steps))]
pub fn word_at(line: &[u8], position: u64) -> Option<Word<'_>>
    ensures { FieldAt line.now position result }
{
    let before = position.checked_sub(1)?;
    let field = field_behind(line, before as usize)?;
    Some(placed(field, position))
}

/// The field behind so many others.
fn field_behind(line: &[u8], others: usize) -> Option<&[u8]>
    ensures { option_map (λ field. field.now) result ≡ slice_get (fields_of line.now) others }
{
    line.split(|byte| *byte == b' ').nth(others)
}

/// The word that a field at a position is.
fn placed(field: &[u8], position: u64) -> Word<'_>
    ensures bytes { bytes_of result ≡ field.now }
    ensures place { position_of result ≡ position }
    ensures kind { leads result ≡ (position == 1) }
{
    match position {
        1 => Word::Letter(field, position),
        _ => Word::Number(field, position),
    }
}

/// How many fields the line has: one more than spaces.
/// The law is of the definition that is counted by: fields, joined again, are the line.
#[tactic(auto, using(crate::proofs::Cutting::fields_count))]
pub fn count_fields(line: &[u8]) -> u64
    ensures count { result ≡ length (fields_of line.now) }
    ensures law { FieldLaw line.now }
{
    1 + count_spaces(line) as u64
}

fn count_spaces(line: &[u8]) -> usize
    ensures { result ≡ count_by (λ byte. byte == 32) line.now }
{
    line.iter().map(|byte| usize::from(*byte == b' ')).sum()
}
