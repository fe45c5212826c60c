//! Pairs in their usual form: a known key, an equals sign and a value, with at most one space before them. Each is parsed
//! in one pass. Any other text is parsed piece by piece.
ghost use Rattle.std.specs.Prelude.{◌≡◌, ◌<◌, ◌≤◌, ◌++◌, ◌∷◌, length, take, position, not, true, IfSome};
ghost use Rattle.std.specs.Option.{option_copied};
ghost use Rattle.std.specs.List.{list_all};
ghost use Rattle.own_model.specs.Text.{is_name_byte};
ghost use Rattle.own_model.specs.SessionArgs.{is_bare, is_quotable};
ghost use Rattle.session_proto.specs.Pairs.{BeginsWith};
ghost use Rattle.session_proto.specs.Pieces.{after_comma};
ghost use Rattle.session_proto.specs.View.{plain_pair};

use text_codec::{is_name_byte, is_quotable};

/// A pair of a known key and the text of its value.
#[derive(Clone, Copy)]
pub(crate) enum PlainPair<'a> {
    /// The value of `ram_quota`, without quotes.
    Ram(&'a [u8]),
    /// The value of `cap_quota`, without quotes.
    Caps(&'a [u8]),
    /// The value of `label`, the text between the quotes.
    Label(&'a [u8]),
}

/// Parses the first pair of a text if it has the usual form. Returns the pair, and the text after its comma if there is
/// one.
#[inline(always)]
pub(crate) fn read_plain(text: &[u8]) -> Option<(PlainPair<'_>, Option<&[u8]>)>
    ensures first { IfSome result (λ found.
        BeginsWith text.now (plain_pair found.0) (option_copied found.1)) }
    ensures shorter { IfSome result (λ found.
        IfSome found.1 (λ rest. length rest.now < length text.now)) }
{
    match text {
        [b' ', pair @ ..] => read_unspaced(pair),
        _ => read_unspaced(text),
    }
}

/// Parses the first pair as `read_plain` does, without a leading space.
#[inline(always)]
fn read_unspaced(text: &[u8]) -> Option<(PlainPair<'_>, Option<&[u8]>)>
    ensures first { IfSome result (λ found.
        BeginsWith text.now (plain_pair found.0) (option_copied found.1)) }
    ensures shorter { IfSome result (λ found.
        IfSome found.1 (λ rest. length rest.now < length text.now)) }
{
    if let Some(value) = text.strip_prefix(b"ram_quota=") {
        let Some((value, rest)) = split_bare(value) else {
            return None;
        };
        return Some((PlainPair::Ram(value), rest));
    }
    if let Some(value) = text.strip_prefix(b"cap_quota=") {
        let Some((value, rest)) = split_bare(value) else {
            return None;
        };
        return Some((PlainPair::Caps(value), rest));
    }
    let Some(value) = text.strip_prefix(b"label=\"") else {
        return None;
    };
    let Some((value, rest)) = split_quoted(value) else {
        return None;
    };
    Some((PlainPair::Label(value), rest))
}

/// Splits a value without quotes from a text, at the text's end or a comma. Returns the value, and the text after the
/// comma if there is one.
#[inline(always)]
fn split_bare(text: &[u8]) -> Option<(&[u8], Option<&[u8]>)>
    ensures parts { IfSome result (λ parts.
        text.now ≡ parts.0.now ++ after_comma (option_copied parts.1)) }
    ensures bare { IfSome result (λ parts. is_bare parts.0.now ≡ true) }
    ensures shorter { IfSome result (λ parts.
        IfSome parts.1 (λ rest. length rest.now < length text.now)) }
{
    let end = bare_len(text);
    if end == 0 {
        return None;
    }
    let Some(rest) = split_comma(&text[end..]) else {
        return None;
    };
    Some((&text[..end], rest))
}

/// Splits a value from a text at its closing quote, if the text ends there or a comma follows. Returns the value, and the
/// text after the comma if there is one.
#[inline(always)]
fn split_quoted(text: &[u8]) -> Option<(&[u8], Option<&[u8]>)>
    ensures parts { IfSome result (λ parts.
        text.now ≡ parts.0.now ++ 34 ∷ after_comma (option_copied parts.1)) }
    ensures quotable { IfSome result (λ parts. list_all is_quotable parts.0.now ≡ true) }
    ensures shorter { IfSome result (λ parts.
        IfSome parts.1 (λ rest. length rest.now < length text.now)) }
{
    let end = quotable_len(text);
    let Some(behind) = text[end..].strip_prefix(b"\"") else {
        return None;
    };
    let Some(rest) = split_comma(behind) else {
        return None;
    };
    Some((&text[..end], rest))
}

/// Returns the text after a leading comma, `Some(None)` for the empty text, or `None` for any other text.
#[inline(always)]
fn split_comma(text: &[u8]) -> Option<Option<&[u8]>>
    ensures comma { IfSome result (λ rest. text.now ≡ after_comma (option_copied rest)) }
    ensures shorter { IfSome result (λ found.
        IfSome found (λ rest. length rest.now < length text.now)) }
{
    match text {
        [] => Some(None),
        [b',', rest @ ..] => Some(Some(rest)),
        _ => None,
    }
}

/// Returns the number of leading bytes that may be in a value without quotes.
fn bare_len(text: &[u8]) -> usize
    ensures inside { result ≤ length text.now }
    ensures bare { list_all is_name_byte (take result text.now) ≡ true }
{
    match find_unnamed(text) {
        Some(end) => end,
        None => text.len(),
    }
}

/// Returns the index of the first byte that may not be in a value without quotes.
fn find_unnamed(text: &[u8]) -> Option<usize>
    ensures place { result ≡ position (λ b. not (is_name_byte b)) text.now }
    ensures inside { IfSome result (λ at. at < length text.now) }
{
    text.iter().position(|byte| !is_name_byte(*byte))
}

/// Returns the number of leading bytes that may be between quotes.
fn quotable_len(text: &[u8]) -> usize
    ensures inside { result ≤ length text.now }
    ensures quotable { list_all is_quotable (take result text.now) ≡ true }
{
    match find_unquotable(text) {
        Some(end) => end,
        None => text.len(),
    }
}

/// Returns the index of the first byte that may not be between quotes.
fn find_unquotable(text: &[u8]) -> Option<usize>
    ensures place { result ≡ position (λ b. not (is_quotable b)) text.now }
    ensures inside { IfSome result (λ at. at < length text.now) }
{
    text.iter().position(|byte| !is_quotable(*byte))
}
