//! The sizes of a call, as numbers.
ghost use Rattle.std.specs.Prelude.{◌≡◌, ◌++◌, ◌&&◌, decimal, false, is_some, length, nat_lt};
ghost use Rattle.std.specs.Char.{is_ascii_digit};
ghost use Rattle.std.specs.List.{list_all};
ghost use Rattle.std.specs.Option.{option_copied, option_map_or};
ghost use Rattle.own_model.specs.Text.{first_word};
ghost use Rattle.line_friendly.specs.Theorems.{has_suffix, is_suffixed};
ghost use Rattle.line_friendly.specs.CallParts.{is_place, request_text, size_text, sizes_behind, sizes_in};
ghost use Rattle.line_friendly.specs.Words.{next_word, spaced, words_spaced};
ghost use Rattle.line_friendly.specs.LineText.{added};

use crate::line_buffer::LineBuffer;
use crate::words::next_word;
use itoa::Buffer;
use text_codec::split_first_word;
use trade_base::{read_amount, read_number};

/// Returns whether a token is an offset: decimal digits, or a size with a suffix.
pub(crate) fn is_place(word: &[u8]) -> bool
    ensures { result ≡ is_place word.now }
{
    is_digits(word) || read_amount(word).is_some()
}

// Returns whether a token is decimal digits.
fn is_digits(word: &[u8]) -> bool
    ensures { result ≡ (nat_lt 0 (length word.now) && list_all is_ascii_digit word.now) }
{
    !word.is_empty() && are_digits(word)
}

// Returns whether each byte is a decimal digit.
fn are_digits(text: &[u8]) -> bool
    ensures { result ≡ list_all is_ascii_digit text.now }
{
    text.iter().all(|byte| byte.is_ascii_digit())
}

// Returns the size that a token has with a suffix, if it isn't a number already.
fn suffixed(word: &[u8]) -> Option<u64>
    ensures text { option_map_or decimal result word.now ≡ size_text word.now }
    ensures some { is_some result ≡ is_suffixed word.now }
{
    if read_number(word).is_some() {
        return None;
    }
    read_amount(word)
}

/// Returns whether a request has a size with a suffix among its arguments.
pub(crate) fn has_suffix(request: &[u8]) -> bool
    ensures { result ≡ has_suffix (sizes_in (first_word request.now).word)
        (first_word request.now).rest }
{
    let (form, rest) = split_first_word(request);
    has_suffix_in(sizes_in(form), rest)
}

// Returns the same for the text after a token, whose sizes are at these places.
fn has_suffix_in(sizes: &[bool], rest: Option<&[u8]>) -> bool
    ensures { result ≡ has_suffix sizes.now (option_copied rest.entry) }
{
    let Some(text) = rest else {
        return false;
    };
    let Some((sized, more)) = sizes.split_first() else {
        return false;
    };
    let (word, rest) = split_first_word(text);
    (*sized && suffixed(word).is_some()) || has_suffix_in(more, rest)
}

// Appends a size as a number, or the token unchanged if it is a number already or no amount.
fn put_size(line: &mut LineBuffer, word: &[u8])
    ensures { line.new ≡ added line.old (size_text word.now) }
{
    match suffixed(word) {
        Some(size) => line.put(Buffer::new().format(size).as_bytes()),
        None => line.put(word),
    }
}

/// Appends a size as a number with a space before it, or nothing if the token is empty.
pub(crate) fn put_spaced_size(line: &mut LineBuffer, word: &[u8])
    ensures { line.new ≡ added line.old (spaced (size_text word.now)) }
{
    match suffixed(word) {
        Some(size) => line.put_spaced(Buffer::new().format(size).as_bytes()),
        None => line.put_spaced(word),
    }
}

/// Appends tokens, each with a space before it, of which the first is a size.
#[tactic(auto, using(crate::proofs::WrittenLemmas::added_both))]
pub(crate) fn put_sized_words(line: &mut LineBuffer, text: &[u8])
    ensures { line.new ≡ added line.old (spaced (size_text (next_word text.now).word)
        ++ words_spaced false (next_word text.now).rest) }
{
    let (word, rest) = next_word(text);
    put_spaced_size(line, word);
    line.put_words(rest);
}

/// Appends a request with a space before it, or nothing if the request is empty.
#[tactic(auto, using(crate::proofs::WrittenLemmas::requests))]
pub(crate) fn put_spaced_request(line: &mut LineBuffer, request: &[u8])
    ensures { line.new ≡ added line.old (spaced (request_text request.now)) }
{
    if !request.is_empty() {
        line.put(b" ");
        put_request(line, request);
    }
}

/// Appends a request, with its sizes as numbers, to the buffer.
#[tactic(auto, using(crate::proofs::WrittenLemmas::added_both))]
pub(crate) fn put_request(line: &mut LineBuffer, request: &[u8])
    ensures { line.new ≡ added line.old (request_text request.now) }
{
    let (form, rest) = split_first_word(request);
    line.put(form);
    put_behind(line, sizes_in(form), rest);
}

// Returns which of the tokens after a request's first are sizes.
fn sizes_in(form: &[u8]) -> &'static [bool]
    ensures { result.now ≡ sizes_in form.now }
{
    if form == b"BUFFER".as_slice() {
        &[true]
    } else if form == b"WRITE".as_slice() {
        &[false, true]
    } else if form == b"READ".as_slice() {
        &[false, true, true]
    } else if form == b"PUT".as_slice() || form == b"GET".as_slice() {
        &[false, true, true, true]
    } else {
        &[]
    }
}

// Appends the text after a token, whose sizes are at these places.
#[tactic(auto, using(crate::proofs::WrittenLemmas::requests))]
fn put_behind(line: &mut LineBuffer, sizes: &[bool], rest: Option<&[u8]>)
    ensures { line.new ≡ added line.old (sizes_behind sizes.now (option_copied rest.entry)) }
{
    let Some(text) = rest else {
        return;
    };
    line.put(b" ");
    let Some((sized, more)) = sizes.split_first() else {
        return line.put(text);
    };
    let (word, rest) = split_first_word(text);
    if *sized {
        put_size(line, word);
    } else {
        line.put(word);
    }
    put_behind(line, more, rest);
}
