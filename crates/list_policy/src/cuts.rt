//! Parts of texts.
ghost use Rattle.std.specs.Prelude.{◌≡◌, ◌<◌, length, IfSome};
ghost use Rattle.std.specs.Option.{option_copied};
ghost use Rattle.list_policy.specs.Cuts.{before_end, blanks, front, plus, rest, text_at, trimmed_start};

use text_codec::{find_byte, skip_bytes};

/// Returns the text before the first byte of a value, or all of it if there is none, and the text after that byte.
pub(crate) fn cut(byte: u8, text: &[u8]) -> (&[u8], Option<&[u8]>)
    ensures before { result.0.now ≡ front byte text.now }
    ensures after { option_copied result.1 ≡ rest byte text.now }
{
    match find_byte(byte, text) {
        Some(at) => (&text[..at], Some(&text[at + 1..])),
        None => (text, None),
    }
}

/// Returns a text without its end, if it ends so.
pub(crate) fn before_end<'a>(end: &[u8], text: &'a [u8]) -> Option<&'a [u8]>
    ensures { option_copied result ≡ before_end end.now text.now }
{
    if text.ends_with(end) {
        Some(&text[..text.len() - end.len()])
    } else {
        None
    }
}

/// Returns the place at which a text first has another one, if it has it.
#[tactic(auto, using(crate::proofs::ReadingLemmas::text_passed, crate::proofs::ReadingLemmas::text_found, crate::proofs::ReadingLemmas::text_none))]
pub(crate) fn text_at(needle: &[u8], text: &[u8]) -> Option<usize>
    ensures value { result ≡ text_at needle.now text.now }
    ensures inside { IfSome result (λ at. at < length text.now) }
{
    for at in 0..text.len() {
        if skip_bytes(text, at).starts_with(needle) {
            return Some(at);
        }
    }
    None
}

/// Returns the number of blanks at the front of a text.
pub(crate) fn blanks(text: &[u8]) -> usize
    ensures { result ≡ blanks text.now }
{
    text.len().saturating_sub(trimmed_start(text).len())
}

/// Returns the sum of two positions, at most the largest that there is.
pub(crate) fn plus(one: usize, other: usize) -> usize
    ensures { result ≡ plus one other }
{
    one.saturating_add(other)
}

// A text without the blanks at its front.
fn trimmed_start(text: &[u8]) -> &[u8]
    ensures { result.now ≡ trimmed_start text.now }
{
    text.trim_ascii_start()
}
