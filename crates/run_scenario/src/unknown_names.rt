//! Calls with an unknown name: a service that no entry of a list provides, or a key of session arguments that isn't read.
ghost use Rattle.std.specs.Prelude.{◌≡◌, ◌+◌, ◌<◌, ◌≤◌, ◌∷◌, false, is_some, length, IfSome};
ghost use Rattle.std.specs.List.{list_all, list_any};
ghost use Rattle.std.specs.Option.{option_copied};
ghost use Rattle.std.specs.Str.{bytes_eq};
ghost use Rattle.core_calls.specs.Call.{model_call};
ghost use Rattle.line_grammar.specs.Read.{IsReadAs};
ghost use Rattle.own_model.specs.SessionArgs.{is_space, pieces_of};
ghost use Rattle.session_proto.specs.Pieces.{first_len, pieces_after};
ghost use Rattle.run_scenario.specs.UnknownNames.{has_unknown_name, has_unread_key, have_unread_key, is_pair, is_provided, key_of, keys, names_unknown};

use crate::text::said_in;
use core_calls::Call;
use line_friendly::skip_blanks;
use list_parser::StartList;
use run_lines::NamedCall;
use session_proto::SessionArgs;
use text_codec::find_byte;

/// The keys of session arguments that are read.
pub(crate) const KEYS: &[&str] = &["ram_quota", "cap_quota", "label"];

/// Returns whether the call of an engine's line names a service that no entry of a list provides, or has a key that isn't read in its
/// session arguments. `call` is what was parsed of the line.
#[inline(always)]
pub fn names_unknown(list: &StartList, line: &[u8], call: Option<NamedCall<'_>>) -> bool
    requires { IsReadAs line.now call }
    ensures { result ≡ names_unknown list.now line.now }
{
    match said_in(line, call) {
        Some((_, call)) => has_unknown_name(list, call),
        None => false,
    }
}

// Returns the same of a call.
#[inline(always)]
fn has_unknown_name(list: &StartList, call: Call<'_>) -> bool
    ensures { result ≡ has_unknown_name list.now (model_call call.entry) }
{
    match call {
        Call::Open { service, args } => !is_provided(list, service) || unread_key(args).is_some(),
        Call::Upgrade { args, .. } => unread_key(args).is_some(),
        Call::Request(args) => unread_key(args).is_some(),
        Call::Yield(args) => unread_key(args).is_some(),
        _ => false,
    }
}

/// Returns whether an entry of a list provides a service.
pub(crate) fn is_provided(list: &StartList, service: &[u8]) -> bool
    ensures { result ≡ is_provided list.now service.now }
{
    for entry in list.entries() {
        if entry.offers(entry.home(), service) {
            return true;
        }
    }
    false
}

/// Returns session arguments from the first pair on whose key isn't read, if there is one.
pub(crate) fn unread_key(args: &[u8]) -> Option<&[u8]>
    ensures { is_some result ≡ have_unread_key args.now }
{
    let mut rest = Some(args);
    while let Some(parts) = rest {
        let (part, more) = split_part(parts);
        if has_unread_key(part) {
            return Some(parts);
        }
        rest = more;
    }
    None
}

/// Splits session arguments at their first comma outside quotes. Returns the text before the comma, and the text after it if there is
/// a comma.
pub(crate) fn split_part(text: &[u8]) -> (&[u8], Option<&[u8]>)
    ensures pieces { pieces_of false text.now
        ≡ result.0.now ∷ pieces_after (option_copied result.1) }
    ensures lengths { IfSome result.1 (λ rest. length rest.now < length text.now) }
{
    let end = part_length(text);
    if end < text.len() {
        (&text[..end], Some(&text[end + 1..]))
    } else {
        (text, None)
    }
}

// Returns the number of bytes before the first comma outside quotes.
fn part_length(text: &[u8]) -> usize
    ensures value { result ≡ first_len false text.now }
    ensures within { result ≤ length text.now }
{
    let mut quoted = false;
    for (i, byte) in text.iter().enumerate() {
        if *byte == b',' && !quoted {
            return i;
        }
        if *byte == b'"' {
            quoted = !quoted;
        }
    }
    text.len()
}

// Returns whether a part of session arguments is a pair whose key isn't read.
fn has_unread_key(part: &[u8]) -> bool
    ensures { result ≡ has_unread_key part.now }
{
    !is_key(key_of(part)) && is_pair(part)
}

/// Returns the text of a part of session arguments before its equals sign.
pub(crate) fn key_of(part: &[u8]) -> &[u8]
    ensures { result.now ≡ key_of part.now }
{
    let text = skip_blanks(part);
    match find_byte(b'=', text) {
        Some(end) => &text[..end],
        None => text,
    }
}

// Returns whether a key is read.
fn is_key(key: &[u8]) -> bool
    ensures { result ≡ list_any (bytes_eq key.now) keys }
{
    key == b"ram_quota".as_slice() || key == b"cap_quota".as_slice() || key == b"label".as_slice()
}

/// Returns whether a part of session arguments is a pair.
pub(crate) fn is_pair(part: &[u8]) -> bool
    ensures { result ≡ is_pair part.now }
{
    !is_blank(part) && SessionArgs::read(part).is_ok()
}

// Returns whether a text is empty or has only spaces.
fn is_blank(text: &[u8]) -> bool
    ensures { result ≡ list_all is_space text.now }
{
    text.iter().all(|byte| *byte == b' ')
}
