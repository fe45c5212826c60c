//! Words that differ by few edits.
ghost use Rattle.std.specs.Prelude.{◌≡◌, ◌≤◌, IfOk, find, map};
ghost use Rattle.std.specs.Option.{option_copied};
ghost use Rattle.text_near_words.specs.Near.{is_away, nearest};

use std::alloc::{AllocError, Global};
use strsim::osa_distance;

/// Returns the word that may have been meant by one that is none of these. It is the first word that is one edit away, or else
/// two edits. Fails if the host is out of memory.
pub fn nearest<'a>(
    alloc: Global,
    words: &[&'a str],
    written: &str,
) -> Result<Option<&'a str>, AllocError>
    ensures { IfOk result
        (λ near. option_copied near ≡ nearest (map (λ word. word.now) words.now) written.now) }
{
    match word_away(alloc, words, 1, written)? {
        Some(word) => Ok(Some(word)),
        None => word_away(alloc, words, 2, written),
    }
}

/// Returns the first word that is so many edits away, at most two, or none. Fails if the host is out of memory.
pub fn word_away<'a>(
    alloc: Global,
    words: &[&'a str],
    count: usize,
    written: &str,
) -> Result<Option<&'a str>, AllocError>
    requires { count ≤ 2 }
    ensures { IfOk result (λ found. option_copied found
        ≡ find (is_away count written.now) (map (λ word. word.now) words.now)) }
{
    for word in words {
        if is_away(alloc, count, written, word)? {
            return Ok(Some(*word));
        }
    }
    Ok(None)
}

/// Returns whether two words differ by exactly `count` edits, and `count` is less than half of the bytes of `meant`. An edit
/// adds, removes or replaces a character, or exchanges two neighbouring ones. Fails if the host is out of memory.
pub fn is_away(alloc: Global, count: usize, written: &str, meant: &str) -> Result<bool, AllocError>
    requires { count ≤ 2 }
    ensures { IfOk result (λ is. is ≡ is_away count written.now meant.now) }
{
    Ok(osa_distance(alloc, meant, written)? == count && 2 * count < meant.len())
}
