//! Arguments separated by single spaces, and names.
ghost use Rattle.std.specs.Prelude.{◌≡◌, ◌==◌, IfSome, is_some, length, position, not};
ghost use Rattle.std.specs.Option.{option_copied};
ghost use Rattle.std.specs.List.{list_all, slice_split};
ghost use Rattle.own_model.specs.Text.{first_word, is_name_byte, is_name, is_path};
ghost use Rattle.text_codec.specs.Names.{name_len};

use crate::byte_kinds::is_name_byte;
use crate::bytes::find_byte;

/// The maximum number of bytes of a name of a component or file.
pub const LONGEST_NAME: usize = 32;

/// The maximum number of names in a path.
pub const MOST_NAMES: usize = 4;

/// Splits a text at its first space. Returns the text before the space, and the text after it if there is a space.
#[inline]
#[tactic(auto, using(crate::proofs::WordLemmas::first_words))]
pub fn split_first_word(text: &[u8]) -> (&[u8], Option<&[u8]>)
    ensures word { result.0.now ≡ (first_word text.now).word }
    ensures rest { option_copied result.1 ≡ (first_word text.now).rest }
{
    match find_byte(b' ', text) {
        Some(end) => (&text[..end], Some(&text[end + 1..])),
        None => (text, None),
    }
}

/// Splits a text at its first space if the text before the space is a name, and returns `None` otherwise. It needs one
/// pass, because a name has no space.
#[inline]
pub fn split_name(text: &[u8]) -> Option<(&[u8], Option<&[u8]>)>
    ensures word { IfSome result (λ parts. parts.0.now ≡ (first_word text.now).word) }
    ensures rest { IfSome result (λ parts. option_copied parts.1 ≡ (first_word text.now).rest) }
    ensures name { is_some result ≡ is_name (first_word text.now).word }
{
    let end = name_len(text);
    if end < 1 || LONGEST_NAME < end {
        return None;
    }
    match text.get(end) {
        None => Some((text, None)),
        Some(b' ') => Some((&text[..end], Some(&text[end + 1..]))),
        Some(_) => None,
    }
}

/// Splits a text at its first space if the text before the space is a path: 1 to 4 names separated by `/`. Returns `None`
/// otherwise. A path of one name needs one pass.
#[inline]
#[tactic(auto, using(crate::proofs::PathLemmas::paths))]
pub fn split_path(text: &[u8]) -> Option<(&[u8], Option<&[u8]>)>
    ensures word { IfSome result (λ parts. parts.0.now ≡ (first_word text.now).word) }
    ensures rest { IfSome result (λ parts. option_copied parts.1 ≡ (first_word text.now).rest) }
    ensures path { is_some result ≡ is_path (first_word text.now).word }
{
    match split_name(text) {
        Some(parts) => Some(parts),
        None => split_names(text),
    }
}

/// Splits a text as `split_path` does, for a path of any length.
#[inline(never)]
fn split_names(text: &[u8]) -> Option<(&[u8], Option<&[u8]>)>
    ensures word { IfSome result (λ parts. parts.0.now ≡ (first_word text.now).word) }
    ensures rest { IfSome result (λ parts. option_copied parts.1 ≡ (first_word text.now).rest) }
    ensures path { is_some result ≡ is_path (first_word text.now).word }
{
    let (word, rest) = split_first_word(text);
    if is_path(word) {
        Some((word, rest))
    } else {
        None
    }
}

/// Returns whether a text is a path: 1 to 4 names separated by `/`. The names are tested in order.
pub fn is_path(word: &[u8]) -> bool
    ensures { result ≡ is_path word.now }
{
    let mut left = word;
    for count in 1..MOST_NAMES {
        match find_byte(b'/', left) {
            Some(end) => {
                if !is_name(&left[..end]) {
                    return false;
                }
                left = &left[end + 1..];
            }
            None => return is_name(left),
        }
    }
    is_name(left)
}

/// Returns the number of leading bytes that may be in a name. It is not inlined, so that its loop has registers of its
/// own.
#[inline(never)]
fn name_len(text: &[u8]) -> usize
    ensures { result ≡ name_len text.now }
{
    match find_other(text) {
        Some(end) => end,
        None => text.len(),
    }
}

/// Returns the index of the first byte that may not be in a name.
fn find_other(text: &[u8]) -> Option<usize>
    ensures { result ≡ position (λ b. not (is_name_byte b)) text.now }
{
    text.iter().position(|byte| !is_name_byte(*byte))
}

/// Returns whether a text is a name: 1 to 32 letters, digits, `_`, `-` and `.`.
pub fn is_name(word: &[u8]) -> bool
    ensures { result ≡ is_name word.now }
{
    1 <= word.len() && word.len() <= LONGEST_NAME && has_name_bytes(word)
}

/// Returns whether each byte of a text is a letter, a digit, `_`, `-` or `.`.
pub fn has_name_bytes(text: &[u8]) -> bool
    ensures { result ≡ list_all is_name_byte text.now }
{
    text.iter().all(|byte| is_name_byte(*byte))
}
