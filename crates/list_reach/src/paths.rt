//! Which components a path denotes.
ghost use Rattle.std.specs.Prelude.{◌≡◌, ◌<◌, length, map, true, IfOk};
ghost use Rattle.std.specs.List.{list_any};
ghost use Rattle.list_reach.specs.Paths.{denotes_tree, is_slash, is_within, pieces, selects, stands_for_all, trimmed};

use std::alloc::{AllocError, Global};

/// Returns whether a path denotes the component of another path. A last name `*` denotes all of that list, and `**` all of that
/// list and of the lists within it.
pub fn selects(asked: &[u8], path: &[u8]) -> bool
    ensures { result ≡ selects asked.now path.now }
{
    if 2 <= asked.len() && denotes_tree(asked) {
        return path.starts_with(&asked[..asked.len() - 2]);
    }
    if asked.is_empty() || !stands_for_all(asked) {
        return asked == path;
    }
    is_within(&asked[..asked.len() - 1], path)
}

/// Returns the parts of a text between bytes of one value. Fails if the host is out of memory.
pub fn pieces(alloc: Global, text: &[u8], byte: u8) -> Result<Vec<&[u8]>, AllocError>
    ensures { IfOk result (λ found. map (λ piece. piece.now) found.items ≡ pieces byte text.now) }
{
    text.split(|b| *b == byte).collect(alloc)
}

/// Returns a text without the blanks at its front and at its end.
pub fn trimmed(text: &[u8]) -> &[u8]
    ensures { result.now ≡ trimmed text.now }
{
    text.trim_ascii()
}

// Whether the last name of a path is `**`.
fn denotes_tree(asked: &[u8]) -> bool
    ensures { result ≡ denotes_tree asked.now }
{
    asked == b"**".as_slice() || asked.ends_with(b"/**")
}

// Whether the last name of a path is `*`.
fn stands_for_all(asked: &[u8]) -> bool
    ensures { result ≡ stands_for_all asked.now }
{
    asked == b"*".as_slice() || asked.ends_with(b"/*")
}

// Whether a path begins so, and no list lies within.
fn is_within(front: &[u8], path: &[u8]) -> bool
    ensures { result ≡ is_within front.now path.now }
{
    if !path.starts_with(front) {
        return false;
    }
    !has_slash(&path[front.len()..])
}

// Whether a text has a `/`.
fn has_slash(text: &[u8]) -> bool
    ensures { result ≡ list_any is_slash text.now }
{
    text.iter().any(|byte| is_slash(*byte))
}

// Whether a byte is a `/`.
fn is_slash(byte: u8) -> bool
    ensures { result ≡ is_slash byte }
{
    byte == b'/'
}
