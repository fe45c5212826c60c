//! A pair of a key and a value.
ghost use Rattle.std.specs.Prelude.{◌≡◌};
ghost use Rattle.std.specs.Option.{option_map};
ghost use Rattle.std.specs.List.{list_all};
ghost use Rattle.own_model.specs.SessionArgs.{is_key, is_key_start, is_key_byte, is_quotable, is_bare, value_of, pair_of};
ghost use Rattle.session_proto.specs.View.{model_value, model_pair};

use crate::text::{split_at_equals, trim};
use text_codec::{has_name_bytes, is_key_byte, is_quotable};

/// A key and its value.
#[derive(Clone, Copy)]
pub(crate) struct Pair<'a> {
    pub(crate) key: &'a [u8],
    pub(crate) value: Value<'a>,
}

/// A value: the text itself, or the text between quotes.
#[derive(Clone, Copy)]
pub(crate) enum Value<'a> {
    Bare(&'a [u8]),
    Quoted(&'a [u8]),
}

/// Parses a pair: a key, an equals sign and a value, with optional spaces before and after them. Returns `None` if the
/// text has another form.
pub(crate) fn read_pair(piece: &[u8]) -> Option<Pair<'_>>
    ensures { option_map model_pair result ≡ pair_of piece.now }
{
    let (key, value) = split_at_equals(trim(piece));
    if !is_key(key) {
        return None;
    }
    let Some(value) = read_value(value) else {
        return None;
    };
    Some(Pair { key, value })
}

/// Returns whether a text is a letter or `_`, followed by letters, digits and `_`.
fn is_key(text: &[u8]) -> bool
    ensures { result ≡ is_key text.now }
{
    match text {
        [first, rest @ ..] => is_key_start(*first) && has_key_bytes(rest),
        [] => false,
    }
}

fn is_key_start(byte: u8) -> bool
    ensures { result ≡ is_key_start byte }
{
    byte.is_ascii_alphabetic() || byte == b'_'
}

fn has_key_bytes(text: &[u8]) -> bool
    ensures { result ≡ list_all is_key_byte text.now }
{
    text.iter().all(|byte| is_key_byte(*byte))
}

/// Parses a value, with or without quotes, or returns `None` if the text has another form.
fn read_value(text: &[u8]) -> Option<Value<'_>>
    ensures { option_map model_value result ≡ value_of text.now }
{
    if let [b'"', inner @ .., b'"'] = text
        && has_quotable_bytes(inner)
    {
        return Some(Value::Quoted(inner));
    }
    if is_bare(text) {
        Some(Value::Bare(text))
    } else {
        None
    }
}

/// Returns whether each byte may be between quotes.
fn has_quotable_bytes(text: &[u8]) -> bool
    ensures { result ≡ list_all is_quotable text.now }
{
    text.iter().all(|byte| is_quotable(*byte))
}

/// Returns whether a text is one or more letters, digits, `_`, `-` and `.`.
fn is_bare(text: &[u8]) -> bool
    ensures { result ≡ is_bare text.now }
{
    !text.is_empty() && has_name_bytes(text)
}
