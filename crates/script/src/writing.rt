//! A text at the front of a buffer.
ghost use Rattle.std.specs.Prelude.{◌≡◌};
ghost use Rattle.script.specs.Writing.{fronted, fronts};

/// Writes the text at the front of the buffer, and answers how many bytes that took.
/// Where there is no room, nothing is written.
pub(crate) fn put_text(out: &mut [u8], text: &[u8]) -> Option<usize>
    ensures answer { result ≡ fronts out.old text.now }
    ensures written { out.new ≡ fronted out.old text.now }
{
    let (front, _) = out.split_at_mut_checked(text.len())?;
    front.copy_from_slice(text);
    Some(text.len())
}
