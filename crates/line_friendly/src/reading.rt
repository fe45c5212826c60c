//! The parser of lines in the friendly form.
ghost use Rattle.std.specs.Prelude.{◌≡◌, ◌+◌, ◌-◌, ◌<◌, ◌≤◌, ◌^◌, ◌==◌, length, is_some, slice_index, true, IfSome, None};
ghost use Rattle.std.specs.Option.{option_copied, option_map, option_or};
ghost use Rattle.own_model.specs.Call.{parsed_call};
ghost use Rattle.own_model.specs.Transcript.{longest_line};
ghost use Rattle.line_grammar.specs.Read.{IsReadAs};
ghost use Rattle.line_friendly.specs.Friendly.{begins_as_call, content_of, end_of, expects_bad_line, fault_behind, fault_in, is_meant, is_passed, no_call, said_escaped, said_of, said_of_both, said_of_call, said_of_line, said_of_signs, said_of_text, trimmed_line, without_comment, without_mark, without_meant, without_return};
ghost use Rattle.line_friendly.specs.Friendly.FriendlyLine.{Call};
ghost use Rattle.line_friendly.specs.Handed.{HandsOn};
ghost use Rattle.line_friendly.specs.Theorems.{IsPlain, LaterFormsAreMarked};
ghost use Rattle.line_friendly.specs.Says.{says};
ghost use Rattle.line_friendly.specs.Views.{LiesIn, tail_in};

use crate::call_fault::why;
use crate::call_parts::{CallParts, CallTail, fault_in};
use crate::expected::written_fault;
use crate::fault::{FriendlyFault, LineReason};
use crate::line_buffer::LineBuffer;
use crate::plain::plain_call;
use crate::quotes::{arrow_of, comment_of, marks_of, stray_of};
use crate::words::{behind, skip_blanks};
use line_grammar::{NamedCall, call_in};

/// The content of a line in the friendly form.
#[derive(Clone, Copy)]
pub enum FriendlyLine<'a> {
    /// Nothing: the line is blank, or a comment.
    Nothing,
    /// A log line that the next call is expected to finish.
    Log(&'a [u8]),
    /// A call: the engine's line, the call that the engine parses of it, which is nothing if it is no call, and the expected
    /// reply.
    Call {
        line: &'a [u8],
        call: Option<NamedCall<'a>>,
        reply: Option<&'a [u8]>,
    },
}

/// Parses a line in the friendly form, without its newline. The engine's line is made in `room`, unless it is a piece of the line
/// itself. The call that the engine parses of it is returned too, so that no caller parses it again. A line of the engine's
/// grammar in which nothing is translated is passed unchanged. The error is the first fault: an open quote, an invalid escape, or
/// a call that isn't in the engine's grammar, unless `Bad_line` is expected.
pub fn read_friendly<'a>(
    line: &'a [u8],
    room: &'a mut LineBuffer,
) -> Result<FriendlyLine<'a>, FriendlyFault>
    ensures value { says result ≡ said_of line.now }
    ensures read { HandsOn result }
    ensures plain { IsPlain line.now → says result ≡ Ok (Call line.now None) }
    ensures later { LaterFormsAreMarked }
{
    match plain_call(line) {
        Some(call) => Ok(FriendlyLine::Call {
            line,
            call: Some(call),
            reply: None,
        }),
        None => said_of(line, room),
    }
}

// Parses a line that isn't plain.
fn said_of<'a>(line: &'a [u8], room: &'a mut LineBuffer) -> Result<FriendlyLine<'a>, FriendlyFault>
    ensures value { says result ≡ said_of line.now }
    ensures read { HandsOn result }
{
    let signs = skip_blanks(without_mark(line));
    said_of_signs(line.len() - signs.len() + 1, signs, room)
}

/// Returns the end of a line's content and of its expected reply: before the `!` after a reply that is meant, before a comment
/// after its call and the blanks before the comment, or before a carriage return.
pub fn end_of(line: &[u8]) -> usize
    ensures value { result ≡ end_of line.now }
    ensures within { result ≤ length line.now }
{
    line.len() - trimmed_line(line).len() + without_meant(content_of(line)).len()
}

/// Returns whether the reply that a line expects is meant: a `!` follows it, which is no part of the reply.
pub fn is_meant(line: &[u8]) -> bool
    ensures { result ≡ is_meant (content_of line.now) }
{
    is_meant_text(content_of(line))
}

/// Returns whether a line is a call by its first characters: no line for the engine, no comment, no directive, and no expected log
/// line.
pub fn is_call_line(line: &[u8]) -> bool
    ensures { result ≡ begins_as_call (content_of line.now) }
{
    begins_as_call(content_of(line))
}

// Returns the text of a line from its first character on, without the comment after it.
fn content_of(line: &[u8]) -> &[u8]
    ensures value { result.now ≡ content_of line.now }
    ensures within { length result.now ≤ length (trimmed_line line.now) }
{
    without_comment(without_return(trimmed_line(line)))
}

// Returns a text without the `!` after a reply that is meant.
fn without_meant(text: &[u8]) -> &[u8]
    ensures value { result.now ≡ without_meant text.now }
    ensures within { length result.now ≤ length text.now }
{
    if is_meant_text(text) {
        &text[..text.len() - 1]
    } else {
        text
    }
}

// Returns whether a text is a call and an expected reply with a `!` after it.
fn is_meant_text(text: &[u8]) -> bool
    ensures value { result ≡ is_meant text.now }
    ensures some { result ≡ true → 0 < length text.now }
{
    ends_with(text, b'!') && begins_as_call(text) && arrow_of(text).is_some()
}

// Returns whether a text is a call by its first characters.
fn begins_as_call(text: &[u8]) -> bool
    ensures { result ≡ begins_as_call text.now }
{
    let is_other = begins_with(text, b'!') || begins_with(text, b'#') || begins_with(text, b'@');
    !is_other && !text.starts_with(b"=> ")
}

/// Returns whether a line is passed to the engine unchanged, after a `!`.
pub fn is_passed(line: &[u8]) -> bool
    ensures { result ≡ is_passed line.now }
{
    begins_with(trimmed_line(line), b'!')
}

/// Returns the text of a line from its first character on: after a byte order mark and blanks.
pub fn trimmed_line(line: &[u8]) -> &[u8]
    ensures value { result.now ≡ trimmed_line line.now }
    ensures within { length result.now ≤ length line.now }
{
    skip_blanks(without_mark(line))
}

// Returns the text after a byte order mark, if a line begins with one.
fn without_mark(line: &[u8]) -> &[u8]
    ensures value { result.now ≡ without_mark line.now }
    ensures within { length result.now ≤ length line.now }
{
    if line.starts_with(b"\xef\xbb\xbf") {
        behind(line, 3)
    } else {
        line
    }
}

// Parses a line from its first character on.
fn said_of_signs<'a>(
    column: usize,
    signs: &'a [u8],
    room: &'a mut LineBuffer,
) -> Result<FriendlyLine<'a>, FriendlyFault>
    requires { column + length signs.now < 2 ^ 64 }
    ensures value { says result ≡ said_of_signs column signs.now }
    ensures read { HandsOn result }
{
    if begins_with(signs, b'!') {
        let line = behind(signs, 1);
        return Ok(FriendlyLine::Call {
            line,
            call: call_in(line),
            reply: None,
        });
    }
    said_of_text(column, without_return(signs), room)
}

// Returns whether a text begins with a byte.
#[tactic(auto, using(crate::proofs::ReadingLemmas::first_of_none))]
fn begins_with(text: &[u8], byte: u8) -> bool
    requires { 0 < byte }
    ensures value { result ≡ (slice_index text.now 0 == byte) }
    ensures some { result ≡ true → 0 < length text.now }
{
    !text.is_empty() && text[0] == byte
}

// Returns whether a text ends with a byte.
#[tactic(auto, using(crate::proofs::ReadingLemmas::last_of_none))]
fn ends_with(text: &[u8], byte: u8) -> bool
    requires { 0 < byte }
    ensures value { result ≡ (slice_index text.now (length text.now - 1) == byte) }
    ensures some { result ≡ true → 0 < length text.now }
{
    !text.is_empty() && text[text.len() - 1] == byte
}

// Returns a text without a carriage return at its end.
fn without_return(text: &[u8]) -> &[u8]
    ensures value { result.now ≡ without_return text.now }
    ensures within { length result.now ≤ length text.now }
{
    if ends_with(text, b'\r') {
        &text[..text.len() - 1]
    } else {
        text
    }
}

// Parses a text without blanks before it: nothing, or a comment; a log line; or a call.
fn said_of_text<'a>(
    column: usize,
    text: &'a [u8],
    room: &'a mut LineBuffer,
) -> Result<FriendlyLine<'a>, FriendlyFault>
    requires { column + length text.now < 2 ^ 64 }
    ensures value { says result ≡ said_of_text column text.now }
    ensures read { HandsOn result }
{
    if text.is_empty() || begins_with(text, b'#') {
        return Ok(FriendlyLine::Nothing);
    }
    if text.starts_with(b"=> ") {
        return Ok(FriendlyLine::Log(behind(text, 3)));
    }
    said_of_both(column, without_meant(without_comment(text)), room)
}

// Returns a text without the comment after it.
fn without_comment(text: &[u8]) -> &[u8]
    ensures value { result.now ≡ without_comment text.now }
    ensures within { length result.now ≤ length text.now }
{
    match comment_of(text) {
        Some(place) => &text[..place],
        None => text,
    }
}

// Parses a call and its expected reply, if each quote is closed.
fn said_of_both<'a>(
    column: usize,
    text: &'a [u8],
    room: &'a mut LineBuffer,
) -> Result<FriendlyLine<'a>, FriendlyFault>
    requires { column + length text.now < 2 ^ 64 }
    ensures value { says result ≡ said_of_both column text.now }
    ensures read { HandsOn result }
{
    let marks = marks_of(text);
    if !marks.end.is_outside() {
        return Err(FriendlyFault {
            reason: LineReason::OpenQuote,
            column: column + marks.quote.unwrap_or(0),
        });
    }
    match marks.arrow {
        Some(place) => said_of_call(column, &text[..place], Some(behind(text, place + 4)), room),
        None => said_of_call(column, text, None, room),
    }
}

// Parses a call and its expected reply, if each `=>` in the call is an arrow.
fn said_of_call<'a>(
    column: usize,
    call: &'a [u8],
    reply: Option<&'a [u8]>,
    room: &'a mut LineBuffer,
) -> Result<FriendlyLine<'a>, FriendlyFault>
    requires call { column + length call.now < 2 ^ 64 }
    requires reply { IfSome reply (λ r. column + length call.now + 4 + length r.now < 2 ^ 64) }
    ensures value { says result ≡ said_of_call column call.now (option_copied reply.entry) }
    ensures read { HandsOn result }
{
    match stray_of(call) {
        Some(place) => Err(FriendlyFault {
            reason: LineReason::StrayArrow,
            column: column + place + 1,
        }),
        None => said_escaped(column, call, reply, room),
    }
}

// Parses a call and its expected reply, if all escapes are valid.
fn said_escaped<'a>(
    column: usize,
    call: &'a [u8],
    reply: Option<&'a [u8]>,
    room: &'a mut LineBuffer,
) -> Result<FriendlyLine<'a>, FriendlyFault>
    requires call { column + length call.now < 2 ^ 64 }
    requires reply { IfSome reply (λ r. column + length call.now + 4 + length r.now < 2 ^ 64) }
    ensures value { says result ≡ said_escaped column call.now (option_copied reply.entry) }
    ensures read { HandsOn result }
{
    let parts = CallParts::of(call);
    match escape_fault(column, call.len(), parts.tail, reply) {
        Some(column) => Err(FriendlyFault {
            reason: LineReason::BadEscape,
            column,
        }),
        None => {
            room.clear();
            parts.put(room);
            said_of_line(column, call, room.text(), reply)
        }
    }
}

// Returns the column of the first invalid escape, in a call of this number of bytes or in its expected reply.
fn escape_fault(
    column: usize,
    count: usize,
    tail: CallTail<'_>,
    reply: Option<&[u8]>,
) -> Option<usize>
    requires lies { LiesIn count (tail_in tail) }
    requires call { column + count < 2 ^ 64 }
    requires reply { IfSome reply (λ r. column + count + 4 + length r.now < 2 ^ 64) }
    ensures { result ≡ option_map (λ n. column + n) (option_or (fault_in count (tail_in tail.entry))
        (fault_behind (count + 4) (option_copied reply.entry))) }
{
    if let Some(place) = fault_in(count, tail) {
        return Some(column + place);
    }
    let Some(reply) = reply else {
        return None;
    };
    match written_fault(reply) {
        Some(place) => Some(column + count + 4 + place),
        None => None,
    }
}

// Returns the content for the engine's line of a call: a fault, if the line isn't in the grammar and isn't expected to be so, or
// is too long.
fn said_of_line<'a>(
    column: usize,
    call: &[u8],
    line: Option<&'a [u8]>,
    reply: Option<&'a [u8]>,
) -> Result<FriendlyLine<'a>, FriendlyFault>
    requires column { column + length call.now < 2 ^ 64 }
    requires short { IfSome line (λ l. length l.now ≤ longest_line) }
    ensures value { says result
        ≡ said_of_line column call.now (option_copied line.entry) (option_copied reply.entry) }
    ensures read { HandsOn result }
{
    let Some(line) = line else {
        return Err(FriendlyFault {
            reason: LineReason::NoCall,
            column,
        });
    };
    let said = read_short(line);
    if said.is_some() || expects_bad_line(reply) {
        Ok(FriendlyLine::Call {
            line,
            call: said,
            reply,
        })
    } else {
        Err(no_call(column, call))
    }
}

// Returns the fault of a call that begins at this column.
fn no_call(column: usize, call: &[u8]) -> FriendlyFault
    requires { column + length call.now < 2 ^ 64 }
    ensures { result ≡ no_call column call.now }
{
    let fault = why(call);
    FriendlyFault {
        reason: fault.reason,
        column: column + fault.column,
    }
}

// Returns the call that the engine parses of a line that isn't too long.
#[tactic(auto, using(crate::proofs::ReadingLemmas::read_where_said))]
fn read_short(line: &[u8]) -> Option<NamedCall<'_>>
    requires { length line.now ≤ longest_line }
    ensures read { IsReadAs line.now result }
    ensures some { is_some result ≡ is_some (parsed_call line.now) }
{
    call_in(line)
}

// Returns whether the expected reply is that of a line which is no call.
fn expects_bad_line(reply: Option<&[u8]>) -> bool
    ensures { result ≡ expects_bad_line (option_copied reply.entry) }
{
    match reply {
        Some(text) => text == b"Bad_line".as_slice(),
        None => false,
    }
}
