//! Lines of a script: byte 10 stands behind each of them, or at least between them.
ghost use Rattle.std.specs.Prelude.{◌≡◌, ◌<◌, ◌∷◌, length};
ghost use Rattle.script.specs.Pieces.{EndLaw, before, behind, lines_of};

/// The first line of a script, without its byte 10, and what follows it. Of an empty script both are empty.
/// The law is of the definitions that the other clauses cite: lines, joined again, are the script.
pub fn split_line(script: &[u8]) -> (&[u8], &[u8])
    ensures line { result.0.now ≡ before 10 script.now }
    ensures rest { result.1.now ≡ behind 10 script.now }
    ensures shorter { 0 < length script.now → length result.1.now < length script.now }
    ensures lines { 0 < length script.now → lines_of script.now ≡ result.0.now ∷ lines_of result.1.now }
    ensures law { EndLaw 10 script.now }
{
    let mut parts = script.splitn(2, |byte| *byte == b'\n');
    (
        parts.next().unwrap_or_default(),
        parts.next().unwrap_or_default(),
    )
}
