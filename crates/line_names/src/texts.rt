//! Pieces of texts.
ghost use Rattle.std.specs.Prelude.{◌≡◌, drop};

/// Returns the text after its first `count` bytes, which it has.
pub(crate) fn behind(text: &[u8], count: usize) -> &[u8]
    ensures { result.now ≡ drop count text.now }
{
    if count < text.len() {
        &text[count..]
    } else {
        b""
    }
}
