//! The errors of a scenario's lines that are found while it is recorded, as diagnostics.
ghost use Rattle.std.specs.Prelude.{◌≡◌, false};

use line_names::token_at;
use line_steps::{UnreadLine, UnreadReason};
use run_lines::{DeviceFault, Sink};
use run_record::RecordingError;
use run_scenario::word_at;
use std::alloc::{AllocError, Global};
use view_diagnostics::{Diagnostics, FilePlace, Severity, Subject};

/// Writes each of these errors of a text's lines, in order. If a write fails, the errors after it aren't written. The error is out of
/// memory.
pub(crate) fn write_errors<K: Sink>(
    alloc: Global,
    subject: Subject<'_>,
    text: &[u8],
    errors: &[RecordingError],
    sink: &mut K,
) -> Result<(), AllocError> {
    let lines: Vec<&[u8]> = text.split(|byte| *byte == b'\n').collect(alloc)?;
    for error in errors {
        let place = place_of(error);
        if let RecordingError::Misread(error) = error {
            write_unless_failed(subject, place, error.message.as_slice(), sink);
        }
        if let RecordingError::Unread(line) = error {
            let message = message_of(alloc, &lines, line)?;
            write_unless_failed(subject, place, message.as_bytes(), sink);
        }
    }
    Ok(())
}

// Writes an error with this message at a place, unless a write failed.
fn write_unless_failed<K: Sink>(
    subject: Subject<'_>,
    place: FilePlace,
    message: &[u8],
    sink: &mut K,
) {
    if !sink.failed() {
        let _ = write_error(subject, place, message, sink);
    }
}

// Writes an error with this message at a place. The error that is returned is a failed write.
fn write_error<K: Sink>(
    subject: Subject<'_>,
    place: FilePlace,
    message: &[u8],
    sink: &mut K,
) -> Result<(), DeviceFault>
    requires { K.has_failed sink.old ≡ false }
{
    let mut diagnostics = Diagnostics::new(subject);
    diagnostics.begin(sink, place, Severity::Error)?;
    diagnostics.put(sink, message)?;
    diagnostics.end(sink)
}

// Returns the place of an error.
fn place_of(error: &RecordingError) -> FilePlace {
    match error {
        RecordingError::Unread(line) => FilePlace::Byte(line.number, line.why.column() as u64),
        RecordingError::Misread(error) => FilePlace::Byte(error.number, error.column as u64),
    }
}

// Returns the message about a line among those of its text that can't be parsed. The error is out of memory.
fn message_of(alloc: Global, lines: &[&[u8]], unread: &UnreadLine) -> Result<String, AllocError> {
    let line: &[u8] = match lines.get(unread.number.saturating_sub(1) as usize) {
        Some(line) => *line,
        None => b"",
    };
    let column = unread.why.column();
    let token = match unread.why {
        UnreadReason::Fault(_) => word_at(line, column),
        _ => token_at(line, column),
    };
    let token = String::from_utf8_lossy(alloc, token)?;
    unread.why.about(token.as_str()).to_string(alloc)
}
