//! Splitting of a text into pieces.
ghost use Rattle.std.specs.Prelude.{◌≡◌, ◌<◌, ◌≤◌, ◌∷◌, length, position, IfSome, reverse, false};
ghost use Rattle.std.specs.Option.{option_copied};
ghost use Rattle.std.specs.List.{before_first, after_first, list_all};
ghost use Rattle.own_model.specs.SessionArgs.{is_space, is_quote, is_equals, skip_spaces, trimmed, pieces_of};
ghost use Rattle.session_proto.specs.Pieces.{is_cut, first_len, pieces_after};

use text_codec::{find_byte, find_either};

/// Returns whether a text is empty or has only spaces.
pub(crate) fn is_blank(text: &[u8]) -> bool
    ensures { result ≡ list_all is_space text.now }
{
    text.iter().all(|byte| *byte == b' ')
}

/// Returns a text without its leading and trailing spaces.
pub(crate) fn trim(text: &[u8]) -> &[u8]
    ensures { result.now ≡ trimmed text.now }
{
    trim_end(trim_start(text))
}

fn trim_start(mut text: &[u8]) -> &[u8]
    ensures { result.now ≡ skip_spaces text.now }
{
    while let [first, rest @ ..] = text
        && *first == b' '
    {
        text = rest;
    }
    text
}

fn trim_end(mut text: &[u8]) -> &[u8]
    ensures { result.now ≡ reverse (skip_spaces (reverse text.now)) }
{
    while let [rest @ .., last] = text
        && *last == b' '
    {
        text = rest;
    }
    text
}

/// Splits a text at its first `=`: the text before it, and the text after it.
pub(crate) fn split_at_equals(text: &[u8]) -> (&[u8], &[u8])
    ensures before { result.0.now ≡ before_first is_equals text.now }
    ensures after { result.1.now ≡ after_first is_equals text.now }
{
    match find_byte(b'=', text) {
        Some(end) => (&text[..end], &text[end + 1..]),
        None => (text, &[]),
    }
}

/// Splits a text at its first comma outside quotes. Returns the text before the comma, and the text after it if there is
/// a comma.
pub(crate) fn split_piece(text: &[u8]) -> (&[u8], Option<&[u8]>)
    ensures pieces { pieces_of false text.now
        ≡ result.0.now ∷ pieces_after (option_copied result.1) }
    ensures shorter { IfSome result.1 (λ rest. length rest.now < length text.now) }
{
    let end = piece_len(text);
    if end < text.len() {
        (&text[..end], Some(&text[end + 1..]))
    } else {
        (text, None)
    }
}

/// Returns the index of the first comma outside quotes, or the length of the text if there is none.
fn piece_len(text: &[u8]) -> usize
    ensures value { result ≡ first_len false text.now }
    ensures within { result ≤ length text.now }
{
    let mut at = 0;
    while let Some(next) = find_cut(&text[at..]) {
        let place = at + next;
        if text[place] == b',' {
            return place;
        }
        // The text between quotes is skipped as a whole.
        match find_quote(&text[place + 1..]) {
            Some(inner) => at = place + 1 + inner + 1,
            None => return text.len(),
        }
    }
    text.len()
}

/// Returns the index of the first comma or quote.
fn find_cut(text: &[u8]) -> Option<usize>
    ensures place { result ≡ position is_cut text.now }
    ensures inside { IfSome result (λ at. at < length text.now) }
{
    find_either(b',', b'"', text)
}

/// Returns the index of the first quote.
fn find_quote(text: &[u8]) -> Option<usize>
    ensures place { result ≡ position is_quote text.now }
    ensures inside { IfSome result (λ at. at < length text.now) }
{
    find_byte(b'"', text)
}
