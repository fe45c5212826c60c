//! Names in a text.
ghost use Rattle.std.specs.Prelude.{◌≡◌, ◌+◌, ◌<◌, ◌≤◌, drop, length, not, position, slice_index, true, IfSome};
ghost use Rattle.std.specs.List.{position_or_len};
ghost use Rattle.line_names.specs.Names.{begins_name, braced, is_name, is_name_byte, name_length, sign_length, sign_of};
ghost use Rattle.line_names.specs.Views.{sign_view};

/// The token that a `$` begins.
#[derive(Clone, Copy)]
pub(crate) enum DollarToken<'a> {
    /// Nothing: the `$` denotes itself.
    Alone,
    /// The token `$$`, which denotes one `$`.
    Doubled,
    /// A name, and the number of bytes after the `$` up to its end.
    Named { name: &'a [u8], size: usize },
    /// A brace that isn't closed, or has no name.
    Broken,
}

/// Returns whether a text is a name: a letter or `_`, and then letters, digits and `_`.
pub fn is_name(word: &[u8]) -> bool
    ensures { result ≡ is_name word.now }
{
    begins_name(word) && name_length(word) == word.len()
}

/// Returns the token that a `$` begins, by the text after it.
pub(crate) fn sign_of(text: &[u8]) -> DollarToken<'_>
    ensures value { sign_view result ≡ sign_of text.now }
    ensures within { sign_length (sign_view result) ≤ length text.now }
{
    match text.first() {
        Some(b'$') => DollarToken::Doubled,
        Some(b'{') => braced(&text[1..]),
        _ => {
            if begins_name(text) {
                let size = name_length(text);
                DollarToken::Named {
                    name: &text[..size],
                    size,
                }
            } else {
                DollarToken::Alone
            }
        }
    }
}

// Returns the name after `${`, with its brace.
fn braced(text: &[u8]) -> DollarToken<'_>
    ensures value { sign_view result ≡ braced text.now }
    ensures within { sign_length (sign_view result) ≤ length text.now + 1 }
{
    let length = name_length(text);
    if begins_name(text) && text.get(length) == Some(&b'}') {
        DollarToken::Named {
            name: &text[..length],
            size: length + 2,
        }
    } else {
        DollarToken::Broken
    }
}

// Returns whether a text begins as names do.
fn begins_name(text: &[u8]) -> bool
    ensures value { result ≡ begins_name text.now }
{
    match text.first() {
        Some(byte) => byte.is_ascii_alphabetic() || *byte == b'_',
        None => false,
    }
}

// Returns the number of bytes at the front of a text that may be in a name.
#[tactic(auto, using(line_friendly::proofs::WordLemmas::places))]
fn name_length(text: &[u8]) -> usize
    ensures count { result ≡ name_length text.now }
    ensures within { result ≤ length text.now }
{
    match first_other(text) {
        Some(place) => place,
        None => text.len(),
    }
}

// Returns the place of the first byte of a text that may not be in a name.
fn first_other(text: &[u8]) -> Option<usize>
    ensures place { result ≡ position (λ b. not (is_name_byte b)) text.now }
    ensures inside { IfSome result (λ place. place < length text.now) }
{
    text.iter().position(|byte| !is_name_byte(*byte))
}

// Returns whether a byte may be in a name.
fn is_name_byte(byte: u8) -> bool
    ensures { result ≡ is_name_byte byte }
{
    byte.is_ascii_alphanumeric() || byte == b'_'
}
