//! Errors of a scenario's lines, as diagnostics.
ghost use Rattle.std.specs.Prelude.{◌≡◌, ◌≤◌, ◌∷◌, false, if◌then◌else◌, is_err, length, map, None};
ghost use Rattle.std.specs.List.{flat_map};
ghost use Rattle.std.specs.Option.{option_map};
ghost use Rattle.own_model.specs.Text.{hex_bytes};
ghost use Rattle.run_devices.specs.RunOutput.{OutputsUnless};
ghost use Rattle.view_diagnostics.specs.Diagnostics.{diagnostic, shown, subject_at};
ghost use Rattle.view_diagnostics.specs.declared.diagnostics.Severity.TheVariants.{Error as AnError};
ghost use Rattle.run_scenario.specs.Complaints.{WritesUnless, are_bytes, bracket_pieces, common, difference, difference_pieces, has_byte, has_bytes, is_data, last_token, reply_pieces, shown_bytes, text_pieces};

use crate::printable_hex::PrintableHex;
use core_calls::Outcome;
use itoa::Buffer;
use run_lines::{DeviceFault, LineAnswer, Sink};
use view_diagnostics::{Diagnostics, FilePlace, Severity, Subject};

/// Writes an error of a scenario's line, whose message has these pieces. The error returned is a failed write.
pub fn report<E: Sink>(
    scenario: Subject<'_>,
    sink: &mut E,
    place: FilePlace,
    pieces: &[&[u8]],
) -> Result<(), DeviceFault>
    requires { E.has_failed sink.old ≡ false }
    ensures writes { WritesUnless result (E.contents sink.old) (E.contents sink.new)
        (diagnostic (subject_at scenario.entry) place AnError
        (map (λ piece. piece.now) pieces.now)) }
    ensures failing { E.has_failed sink.new ≡ is_err result }
{
    let mut diagnostics = Diagnostics::new(scenario);
    diagnostics.begin(sink, place, Severity::Error)?;
    put_all(&mut diagnostics, sink, pieces)?;
    diagnostics.end(sink)
}

/// Writes the error of a reply that differs from the expected one: both replies, the text of their bytes, and the first byte at
/// which they differ. The error is a failed write.
pub fn report_reply<E: Sink>(
    scenario: Subject<'_>,
    sink: &mut E,
    place: FilePlace,
    answer: LineAnswer<'_>,
    expected: &[u8],
) -> Result<(), DeviceFault>
    requires { E.has_failed sink.old ≡ false }
    ensures writes { WritesUnless result (E.contents sink.old) (E.contents sink.new)
        (diagnostic (subject_at scenario.entry) place AnError
        (reply_pieces answer.entry.outcome answer.entry.reply.now expected.now)) }
    ensures failing { E.has_failed sink.new ≡ is_err result }
{
    let mut diagnostics = Diagnostics::new(scenario);
    diagnostics.begin(sink, place, Severity::Error)?;
    put_replies(&mut diagnostics, sink, answer, expected)?;
    diagnostics.end(sink)
}

// Writes pieces of a message.
fn put_all<E: Sink>(
    diagnostics: &mut Diagnostics<'_>,
    sink: &mut E,
    pieces: &[&[u8]],
) -> Result<(), DeviceFault>
    requires { E.has_failed sink.old ≡ false }
    ensures output { OutputsUnless result (E.contents sink.old) diagnostics.old.gathered
        (E.contents sink.new) diagnostics.new.gathered
        (flat_map (shown diagnostics.old.subject.form) (map (λ piece. piece.now) pieces.now)) }
    ensures subject { diagnostics.new.subject ≡ diagnostics.old.subject }
    ensures failing { E.has_failed sink.new ≡ is_err result }
{
    for piece in pieces {
        diagnostics.put(sink, piece)?;
    }
    Ok(())
}

// Writes the expected reply, the one that was found, and where they differ.
fn put_replies<E: Sink>(
    diagnostics: &mut Diagnostics<'_>,
    sink: &mut E,
    answer: LineAnswer<'_>,
    expected: &[u8],
) -> Result<(), DeviceFault>
    requires { E.has_failed sink.old ≡ false }
    ensures output { OutputsUnless result (E.contents sink.old) diagnostics.old.gathered
        (E.contents sink.new) diagnostics.new.gathered
        (flat_map (shown diagnostics.old.subject.form)
        (reply_pieces answer.entry.outcome answer.entry.reply.now expected.now)) }
    ensures subject { diagnostics.new.subject ≡ diagnostics.old.subject }
    ensures failing { E.has_failed sink.new ≡ is_err result }
{
    put_reply(
        diagnostics,
        sink,
        b"expected `",
        expected,
        is_data(expected),
    )?;
    let shows = has_bytes(answer.outcome, expected);
    put_reply(diagnostics, sink, b", found `", answer.reply, shows)?;
    put_difference(diagnostics, sink, answer.reply, expected)
}

// Returns whether an expectation is of bytes that are read.
fn is_data(expected: &[u8]) -> bool
    ensures { result ≡ is_data expected.now }
{
    expected.starts_with(b"data ")
}

// Returns whether a reply has bytes in digits: text is expected of it, or it is bytes that were read.
fn has_bytes(outcome: Outcome, expected: &[u8]) -> bool
    ensures { result ≡ has_bytes outcome expected.now }
{
    has_byte(b'"', expected) || are_bytes(outcome)
}

// Returns whether an outcome is bytes that a call read.
fn are_bytes(outcome: Outcome) -> bool
    ensures { result ≡ are_bytes outcome }
{
    matches!(outcome, Outcome::Bytes)
}

// Writes words, a reply with its closing quote, and its last token as text if that token denotes bytes.
fn put_reply<E: Sink>(
    diagnostics: &mut Diagnostics<'_>,
    sink: &mut E,
    words: &[u8],
    reply: &[u8],
    has_bytes: bool,
) -> Result<(), DeviceFault>
    requires { E.has_failed sink.old ≡ false }
    ensures output { OutputsUnless result (E.contents sink.old) diagnostics.old.gathered
        (E.contents sink.new) diagnostics.new.gathered
        (flat_map (shown diagnostics.old.subject.form)
        (words.now ∷ text_pieces has_bytes reply.now)) }
    ensures subject { diagnostics.new.subject ≡ diagnostics.old.subject }
    ensures failing { E.has_failed sink.new ≡ is_err result }
{
    let pieces: &[&[u8]] = &[words, reply, b"`"];
    put_all(diagnostics, sink, pieces)?;
    put_bytes(diagnostics, sink, bytes_in(reply, has_bytes))
}

// Returns the last token of a reply, if it is asked for and denotes bytes.
fn bytes_in(reply: &[u8], has_bytes: bool) -> Option<PrintableHex<'_>>
    ensures { option_map (λ it. hex_bytes it.hex.now) result
        ≡ (if has_bytes then shown_bytes (hex_bytes (last_token reply.now)) else None) }
{
    if has_bytes {
        PrintableHex::at_end(reply)
    } else {
        None
    }
}

// Writes the text of bytes in brackets, if there are some.
fn put_bytes<E: Sink>(
    diagnostics: &mut Diagnostics<'_>,
    sink: &mut E,
    bytes: Option<PrintableHex<'_>>,
) -> Result<(), DeviceFault>
    requires { E.has_failed sink.old ≡ false }
    ensures output { OutputsUnless result (E.contents sink.old) diagnostics.old.gathered
        (E.contents sink.new) diagnostics.new.gathered
        (flat_map (shown diagnostics.old.subject.form) (bracket_pieces
        (option_map (λ it. hex_bytes it.hex.now) bytes.entry))) }
    ensures subject { diagnostics.new.subject ≡ diagnostics.old.subject }
    ensures failing { E.has_failed sink.new ≡ is_err result }
{
    let Some(bytes) = bytes else {
        return Ok(());
    };
    put_all(diagnostics, sink, &[b" (\""])?;
    bytes.put_in_message(diagnostics, sink)?;
    put_all(diagnostics, sink, &[b"\")"])
}

// Writes at which byte a reply and its expectation differ.
fn put_difference<E: Sink>(
    diagnostics: &mut Diagnostics<'_>,
    sink: &mut E,
    reply: &[u8],
    expected: &[u8],
) -> Result<(), DeviceFault>
    requires { E.has_failed sink.old ≡ false }
    ensures output { OutputsUnless result (E.contents sink.old) diagnostics.old.gathered
        (E.contents sink.new) diagnostics.new.gathered
        (flat_map (shown diagnostics.old.subject.form)
        (difference_pieces (difference reply.now expected.now))) }
    ensures subject { diagnostics.new.subject ≡ diagnostics.old.subject }
    ensures failing { E.has_failed sink.new ≡ is_err result }
{
    match difference(reply, expected) {
        Some(byte) => {
            let mut digits = Buffer::new();
            let pieces: &[&[u8]] = &[b"; they differ at byte ", digits.format(byte).as_bytes()];
            put_all(diagnostics, sink, pieces)
        }
        None => Ok(()),
    }
}

// Returns the byte, from 1 on, at which a reply and its expectation differ. Returns nothing if they don't begin alike, or if the
// expectation has a pattern or text.
fn difference(reply: &[u8], expected: &[u8]) -> Option<usize>
    ensures { result ≡ difference reply.now expected.now }
{
    let alike = common(reply, expected);
    if alike == 0 || has_byte(b'*', expected) || has_byte(b'"', expected) {
        None
    } else {
        Some(alike + 1)
    }
}

// Returns how many bytes two texts have in common at their fronts.
fn common(text: &[u8], other: &[u8]) -> usize
    ensures value { result ≡ common text.now other.now }
    ensures within { result ≤ length text.now }
{
    let mut alike = 0;
    while alike < text.len() && alike < other.len() && text[alike] == other[alike] {
        alike += 1;
    }
    alike
}

// Returns whether a text has a byte.
fn has_byte(byte: u8, text: &[u8]) -> bool
    ensures { result ≡ has_byte byte text.now }
{
    text.contains(&byte)
}
