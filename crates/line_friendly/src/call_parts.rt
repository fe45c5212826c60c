//! The parts of a call, and the engine's line that they make.
ghost use Rattle.std.specs.Prelude.{◌≡◌, ◌+◌, ◌≤◌, ◌<◌, length, IfSome};
ghost use Rattle.std.specs.Option.{option_copied};
ghost use Rattle.own_model.specs.Reply.{hex_text};
ghost use Rattle.line_friendly.specs.Friendly.{fault_in};
ghost use Rattle.line_friendly.specs.CallParts.{is_sized, kept_text, parts_of, quoted_or, request_tail, spelled, takes_text, tail_of, tail_text, text_behind, text_behind_file, text_behind_place, text_written, word_text, word_behind};
ghost use Rattle.line_friendly.specs.CallParts.CallTail.{Request};
ghost use Rattle.line_friendly.specs.QuotedBytes.{bytes_of};
ghost use Rattle.line_friendly.specs.Views.{LiesIn, parts_in, tail_in};
ghost use Rattle.line_friendly.specs.Words.{spaced};
ghost use Rattle.line_friendly.specs.LineText.{added};

use crate::line_buffer::LineBuffer;
use crate::quoted_bytes::{fault_of, put_text};
use crate::quotes::{inside_quotes, is_quote};
use crate::requests::{
    is_place, put_request, put_sized_words, put_spaced_request, put_spaced_size,
};
use crate::words::{behind, next_word, skip_blanks};
use text_codec::split_first_word;

/// The rest of a call after its first tokens.
#[derive(Clone, Copy)]
pub(crate) enum CallTail<'a> {
    /// More tokens.
    Words(&'a [u8]),
    /// Text that stays as it is, after one blank.
    Kept(&'a [u8]),
    /// Tokens of which the first is a size.
    Sized(&'a [u8]),
    /// A request after one blank.
    Request(&'a [u8]),
    /// A text in quotes, with the request before it, and the number of bytes of the call from the text's first character on.
    Quoted {
        front: &'a [u8],
        inside: &'a [u8],
        left: usize,
    },
}

/// A call by its first tokens and the rest.
#[derive(Clone, Copy)]
pub(crate) struct CallParts<'a> {
    pub name: &'a [u8],
    pub form: &'a [u8],
    pub word: &'a [u8],
    pub tail: CallTail<'a>,
}

impl<'a> CallParts<'a> {
    /// Splits a call into its name, its form, its first argument and the rest.
    #[tactic(auto, using(crate::proofs::TailLemmas::lies))]
    pub(crate) fn of(call: &'a [u8]) -> CallParts<'a>
        ensures value { parts_in result ≡ parts_of call.now }
        ensures lies { LiesIn (length call.now) (tail_in result.tail) }
    {
        let (name, rest) = next_word(call);
        let (form, rest) = next_word(rest);
        let (word, rest) = word_behind(form, rest);
        CallParts {
            name,
            form,
            word,
            tail: tail_of(form, rest),
        }
    }

    /// Appends the engine's line that the parts make to a buffer.
    #[tactic(auto, using(crate::proofs::WrittenLemmas::added_both))]
    pub(crate) fn put(self, line: &mut LineBuffer)
        ensures { line.new ≡ added line.old (spelled (parts_in self.entry)) }
    {
        line.put(self.name);
        line.put_spaced(self.form);
        put_word(line, self.form, self.word);
        put_tail(line, self.tail);
    }
}

// Returns whether the arguments of a form are a text alone.
fn takes_text(form: &[u8]) -> bool
    ensures { result ≡ takes_text form.now }
{
    form == b"request".as_slice() || form == b"yield".as_slice()
}

// Returns the token after a form and the rest; a form whose arguments are a text alone has no token.
fn word_behind<'a>(form: &[u8], rest: &'a [u8]) -> (&'a [u8], &'a [u8])
    ensures word { result.0.now ≡ (word_behind form.now rest.now).word }
    ensures rest { result.1.now ≡ (word_behind form.now rest.now).rest }
    ensures within { length result.1.now ≤ length rest.now }
{
    if takes_text(form) {
        (&rest[..0], rest)
    } else {
        next_word(rest)
    }
}

// Returns the rest of a call after its first tokens, by its form.
#[tactic(auto, using(crate::proofs::TailLemmas::lies))]
fn tail_of<'a>(form: &[u8], rest: &'a [u8]) -> CallTail<'a>
    ensures value { tail_in result ≡ tail_of form.now rest.now }
    ensures lies { LiesIn (length rest.now) (tail_in result) }
{
    if takes_text(form) || form == b"open".as_slice() || form == b"upgrade".as_slice() {
        return CallTail::Kept(rest);
    }
    if form == b"call".as_slice() {
        return request_tail(rest);
    }
    if form == b"poke".as_slice() {
        return quoted_or(CallTail::Words(rest), b"", skip_blanks(rest));
    }
    if form == b"peek".as_slice() {
        return CallTail::Sized(rest);
    }
    CallTail::Words(rest)
}

// Returns the rest of a call after `call S`: a request that writes text, or another one.
#[tactic(auto, using(crate::proofs::TailLemmas::lies))]
fn request_tail(rest: &[u8]) -> CallTail<'_>
    ensures value { tail_in result ≡ request_tail rest.now }
    ensures lies { LiesIn (length rest.now) (tail_in result) }
{
    let request = behind(rest, rest.len().min(1));
    match text_written(request) {
        Some(text) => quoted_or(
            CallTail::Request(rest),
            &request[..request.len() - (text.len() + 1)],
            text,
        ),
        None => CallTail::Request(rest),
    }
}

// Returns a text in quotes, with the text before it, or something else if it is no text in quotes.
fn quoted_or<'a>(other: CallTail<'a>, front: &'a [u8], text: &'a [u8]) -> CallTail<'a>
    requires { LiesIn (length text.now) (tail_in other) }
    ensures value { tail_in result ≡ quoted_or (tail_in other.entry) front.now text.now }
    ensures lies { LiesIn (length text.now) (tail_in result) }
{
    match inside_quotes(text) {
        Some(inside) => CallTail::Quoted {
            front,
            inside,
            left: text.len() - 1,
        },
        None => other,
    }
}

// Returns the text that a request writes, from its quote on.
#[tactic(auto, using(own_model::proofs::LogLemmas::rest_shorter))]
fn text_written(request: &[u8]) -> Option<&[u8]>
    ensures value { option_copied result ≡ text_written request.now }
    ensures within { IfSome result (λ text. length text.now + 1 ≤ length request.now) }
{
    let (word, rest) = split_first_word(request);
    if word != b"WRITE".as_slice() {
        return None;
    }
    match rest {
        Some(rest) => text_behind_file(rest),
        None => None,
    }
}

// Returns the text after nothing, or after a file's token and an offset.
#[tactic(auto, using(own_model::proofs::LogLemmas::rest_shorter))]
fn text_behind_file(text: &[u8]) -> Option<&[u8]>
    ensures value { option_copied result ≡ text_behind_file text.now }
    ensures within { IfSome result (λ found. length found.now ≤ length text.now) }
{
    if is_quote(text) {
        return Some(text);
    }
    let (file, rest) = split_first_word(text);
    if file.is_empty() {
        return None;
    }
    match rest {
        Some(rest) => text_behind_place(rest),
        None => None,
    }
}

// Returns the text after an offset.
#[tactic(auto, using(own_model::proofs::LogLemmas::rest_shorter))]
fn text_behind_place(text: &[u8]) -> Option<&[u8]>
    ensures value { option_copied result ≡ text_behind_place text.now }
    ensures within { IfSome result (λ found. length found.now ≤ length text.now) }
{
    match split_first_word(text) {
        (place, Some(rest)) if is_place(place) && is_quote(rest) => Some(rest),
        _ => None,
    }
}

/// Returns the place of the first invalid escape in a call of `count` bytes, if there is one.
pub(crate) fn fault_in(count: usize, tail: CallTail<'_>) -> Option<usize>
    requires { LiesIn count (tail_in tail) }
    ensures place { result ≡ fault_in count (tail_in tail.entry) }
    ensures inside { IfSome result (λ place. place < count) }
{
    match tail {
        CallTail::Quoted { inside, left, .. } => Some(count - left + fault_of(inside)?),
        CallTail::Words(_) | CallTail::Kept(_) | CallTail::Sized(_) | CallTail::Request(_) => None,
    }
}

// Appends the token after the form: a size as a number.
fn put_word(line: &mut LineBuffer, form: &[u8], word: &[u8])
    ensures { line.new ≡ added line.old (spaced (word_text form.now word.now)) }
{
    if is_sized(form) {
        put_spaced_size(line, word);
    } else {
        line.put_spaced(word);
    }
}

// Returns whether the token after a form is a size.
fn is_sized(form: &[u8]) -> bool
    ensures { result ≡ is_sized form.now }
{
    form == b"alloc".as_slice() || form == b"new".as_slice() || form == b"snew".as_slice()
}

// Appends the rest of a call.
#[tactic(auto, using(crate::proofs::WrittenLemmas::added_both))]
fn put_tail(line: &mut LineBuffer, tail: CallTail<'_>)
    ensures { line.new ≡ added line.old (tail_text (tail_in tail.entry)) }
{
    match tail {
        CallTail::Words(rest) => line.put_words(rest),
        CallTail::Kept(rest) => put_kept(line, rest),
        CallTail::Sized(rest) => put_sized_words(line, rest),
        CallTail::Request(rest) => put_request_behind(line, rest),
        CallTail::Quoted { front, inside, .. } => {
            put_spaced_request(line, front);
            put_quoted(line, inside);
        }
    }
}

// Appends the bytes of a text in quotes, in hexadecimal digits with a space before them.
#[tactic(auto, using(crate::proofs::SignLemmas::quoted))]
fn put_quoted(line: &mut LineBuffer, inside: &[u8])
    ensures { line.new ≡ added line.old (spaced (hex_text (bytes_of inside.now))) }
{
    if !inside.is_empty() {
        line.put(b" ");
        put_text(line, inside);
    }
}

// Appends text that stays, with a space in place of the blank before it.
#[tactic(auto, using(crate::proofs::WrittenLemmas::puts))]
fn put_kept(line: &mut LineBuffer, rest: &[u8])
    ensures { line.new ≡ added line.old (kept_text rest.now) }
{
    if !rest.is_empty() {
        line.put(b" ");
        line.put(behind(rest, 1));
    }
}

// Appends a request after one blank, with a space in place of the blank.
#[tactic(auto, using(crate::proofs::WrittenLemmas::requests))]
fn put_request_behind(line: &mut LineBuffer, rest: &[u8])
    ensures { line.new ≡ added line.old (tail_text (Request rest.now)) }
{
    if !rest.is_empty() {
        line.put(b" ");
        put_request(line, behind(rest, 1));
    }
}
