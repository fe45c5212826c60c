//! Whether a reply matches an expectation.
ghost use Rattle.std.specs.Prelude.{◌≡◌, ◌+◌, ◌<◌, ◌≤◌, [], codes, not, length, position, nat_lt, slice_index, ◌==◌, ◌&&◌, true, IfSome, if◌then◌else◌};
ghost use Rattle.std.specs.List.{position_or_len};
ghost use Rattle.std.specs.Char.{is_ascii_digit};
ghost use Rattle.std.specs.Option.{option_copied};
ghost use Rattle.std.specs.Str.{bytes_eq};
ghost use Rattle.own_model.specs.Reply.{hex_text};
ghost use Rattle.line_friendly.specs.Expected.{bytes_for, can_pass, is_misread, is_refusal, is_word_end, meets, meets_both, meets_words, reply_behind, matched_by, written_fault, written_in};
ghost use Rattle.line_friendly.specs.Expectations.{IsExact, RefusalsAreTold};
ghost use Rattle.line_friendly.specs.QuotedBytes.{bytes_of};
ghost use Rattle.line_friendly.specs.Views.{written_view};

use crate::quoted_bytes::{fault_of, is_hex_of};
use crate::quotes::inside_quotes;
use crate::words::{behind, is_blank, word_length};
use text_codec::{find_byte, find_either, split_first_word};

/// The text in quotes at the end of an expectation, and the text before it.
#[derive(Clone, Copy)]
pub(crate) struct Written<'a> {
    pub front: &'a [u8],
    pub inside: &'a [u8],
}

/// Returns whether a reply matches its expectation: `granted`, `refused`, `*` for any reply, or a pattern. In a pattern, `*`
/// denotes a token, or a number within one, and text in quotes denotes its digits. Any other expectation is matched only by the
/// same text.
#[tactic(auto, using(crate::proofs::ExpectedLemmas::laws))]
pub fn meets(reply: &[u8], expected: &[u8]) -> bool
    ensures value { result ≡ meets reply.now expected.now }
    ensures exact { IsExact expected.now → result ≡ bytes_eq reply.now expected.now }
    ensures refusals { RefusalsAreTold }
{
    if expected == b"granted".as_slice() {
        return !is_refusal(reply);
    }
    if expected == b"refused".as_slice() {
        return is_refusal(reply);
    }
    expected == b"*".as_slice() || meets_text(reply, expected)
}

/// Returns whether a reply says that its line wasn't understood.
pub fn is_misread(reply: &[u8]) -> bool
    ensures { result ≡ is_misread reply.now }
{
    reply == b"Bad_line".as_slice()
        || reply == b"Unknown_component".as_slice()
        || reply == b"Not_a_script".as_slice()
        || reply == b"Bad_args".as_slice()
        || reply == b"ERR BAD_REQUEST".as_slice()
        || reply == b"ERR BAD_KIND".as_slice()
}

/// Returns whether a line may pass with a reply: with one that says that the line wasn't understood, only if exactly this reply is
/// expected. A line that expects `refused` doesn't pass if its caller has exited.
pub fn can_pass(expected: Option<&[u8]>, reply: &[u8]) -> bool
    ensures { result ≡ can_pass (option_copied expected.entry) reply.now }
{
    let Some(expected) = expected else {
        return !is_misread(reply);
    };
    reply == expected || !(is_misread(reply) || is_gone(reply, expected))
}

// Returns whether a refusal is expected of a caller that has exited.
fn is_gone(reply: &[u8], expected: &[u8]) -> bool
    ensures { result ≡ (bytes_eq reply.now (codes "Gone") && bytes_eq expected.now (codes "refused")) }
{
    reply == b"Gone".as_slice() && expected == b"refused".as_slice()
}

// Returns whether a reply matches a pattern: the same text, if the pattern has no `*` and no quote.
#[tactic(auto, using(crate::proofs::ExpectedLemmas::same_words))]
fn meets_text(reply: &[u8], expected: &[u8]) -> bool
    ensures { result ≡ meets_words reply.now expected.now }
{
    if find_either(b'*', b'"', expected).is_none() {
        return reply == expected;
    }
    meets_words(reply, expected)
}

// Returns whether a reply refuses.
#[tactic(auto, using(crate::proofs::ExpectedLemmas::nothing_is_capital))]
fn is_refusal(reply: &[u8]) -> bool
    ensures { result ≡ is_refusal reply.now }
{
    let (word, _) = split_first_word(reply);
    !reply.is_empty() && reply[0].is_ascii_uppercase() && word != b"OK".as_slice()
}

// Returns the same, byte by byte.
fn meets_words(reply: &[u8], expected: &[u8]) -> bool
    ensures { result ≡ meets_words reply.now expected.now }
{
    match written_in(expected) {
        Some(written) => match reply_behind(reply, written.front) {
            Some(left) => is_hex_of(left, written.inside),
            None => false,
        },
        None => match reply_behind(reply, expected) {
            Some(left) => left.is_empty(),
            None => false,
        },
    }
}

/// Returns the text in quotes at the end of an expectation, if it has one.
pub(crate) fn written_in(expected: &[u8]) -> Option<Written<'_>>
    ensures value { written_view result ≡ written_in expected.now }
    ensures within { IfSome result
        (λ w. length w.front.now + 1 + length w.inside.now ≤ length expected.now) }
{
    let Some(place) = find_byte(b'"', expected) else {
        return None;
    };
    let Some(inside) = inside_quotes(behind(expected, place)) else {
        return None;
    };
    Some(Written {
        front: &expected[..place],
        inside,
    })
}

/// Returns the place of the first invalid escape in the text in quotes of an expectation, if there is one.
pub(crate) fn written_fault(expected: &[u8]) -> Option<usize>
    ensures place { result ≡ written_fault expected.now }
    ensures inside { IfSome result (λ place. place < length expected.now) }
{
    let Some(written) = written_in(expected) else {
        return None;
    };
    let Some(place) = fault_of(written.inside) else {
        return None;
    };
    Some(written.front.len() + 1 + place)
}

// Returns the rest of a reply after the part that an expectation matches.
#[tactic(auto, using(crate::proofs::ExpectedLemmas::passes))]
fn reply_behind<'a>(reply: &'a [u8], expected: &[u8]) -> Option<&'a [u8]>
    ensures { option_copied result ≡ reply_behind true expected.now reply.now }
{
    let mut left = reply;
    let mut begins = true;
    for (i, byte) in expected.iter().enumerate() {
        let count = bytes_for(begins, *byte, behind(expected, i + 1), left);
        if count == 0 {
            return None;
        }
        left = behind(left, count);
        begins = is_blank(*byte);
    }
    Some(left)
}

/// Returns the part of a reply that the byte at a place of its expectation matches. A `*` matches a token or a number, and an
/// expectation of `*` alone matches the whole reply.
#[tactic(auto, using(crate::proofs::ExpectedLemmas::places_stand, crate::proofs::ExpectedLemmas::passes))]
pub fn matched_by<'a>(reply: &'a [u8], expected: &[u8], place: usize) -> &'a [u8]
    ensures { result.now ≡ matched_by reply.now expected.now place }
{
    if expected == b"*".as_slice() {
        return reply;
    }
    let mut left = reply;
    let mut begins = true;
    for (i, byte) in expected.iter().enumerate() {
        let count = bytes_for(begins, *byte, behind(expected, i + 1), left);
        if i == place {
            return &left[..count];
        }
        left = behind(left, count);
        begins = is_blank(*byte);
    }
    b""
}

// Returns how many bytes of a reply the first byte of an expectation matches.
#[tactic(auto, using(crate::proofs::ExpectedLemmas::passes))]
fn bytes_for(begins: bool, byte: u8, more: &[u8], reply: &[u8]) -> usize
    ensures value { result ≡ bytes_for begins byte more.now reply.now }
    ensures within { result ≤ length reply.now }
{
    if byte != b'*' {
        return stands_first(reply, byte);
    }
    if begins && is_word_end(more) {
        word_length(reply)
    } else {
        number_length(reply)
    }
}

// Returns 1 if a text begins with a byte, and else 0.
fn stands_first(text: &[u8], byte: u8) -> usize
    ensures value { result
        ≡ (if nat_lt 0 (length text.now) && slice_index text.now 0 == byte then 1 else 0) }
    ensures within { result ≤ length text.now }
{
    if !text.is_empty() && text[0] == byte {
        1
    } else {
        0
    }
}

// Returns whether a token ends here.
fn is_word_end(text: &[u8]) -> bool
    ensures { result ≡ is_word_end text.now }
{
    text.is_empty() || is_blank(text[0])
}

// Returns the number of decimal digits at the front of a text.
#[tactic(auto, using(crate::proofs::WordLemmas::places))]
fn number_length(text: &[u8]) -> usize
    ensures count { result ≡ position_or_len (λ d. not (is_ascii_digit d)) text.now }
    ensures within { result ≤ length text.now }
{
    match first_other(text) {
        Some(place) => place,
        None => text.len(),
    }
}

// Returns the place of the first byte of a text that is no decimal digit.
fn first_other(text: &[u8]) -> Option<usize>
    ensures place { result ≡ position (λ d. not (is_ascii_digit d)) text.now }
    ensures inside { IfSome result (λ place. place < length text.now) }
{
    text.iter().position(|byte| !byte.is_ascii_digit())
}
