//! Search for a byte in a text, and the rest of a text.
ghost use Rattle.std.specs.Prelude.{◌≡◌, ◌==◌, ◌||◌, ◌<◌, length, drop, IfSome, position};

use memchr::{memchr, memchr2};

/// Returns the index of the first occurrence of a byte in a text, or `None` if there is none.
#[inline]
#[tactic(auto, using(crate::proofs::SearchLemmas::first_byte_is))]
pub fn find_byte(byte: u8, text: &[u8]) -> Option<usize>
    ensures place { result ≡ position (λ b. b == byte) text.now }
    ensures inside { IfSome result (λ at. at < length text.now) }
{
    memchr(byte, text)
}

/// Returns the index of the first occurrence of either of two bytes in a text, or `None` if there is none.
#[inline]
#[tactic(auto, using(crate::proofs::SearchLemmas::first_byte_is))]
pub fn find_either(one: u8, other: u8, text: &[u8]) -> Option<usize>
    ensures place { result ≡ position (λ b. b == one || b == other) text.now }
    ensures inside { IfSome result (λ at. at < length text.now) }
{
    memchr2(one, other, text)
}

/// Returns a text without its first `count` bytes, or the empty text if it has no more bytes.
pub fn skip_bytes(text: &[u8], count: usize) -> &[u8]
    ensures { result.now ≡ drop count text.now }
{
    if count < text.len() {
        &text[count..]
    } else {
        b""
    }
}
