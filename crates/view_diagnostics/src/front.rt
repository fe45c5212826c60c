//! What precedes the message of a diagnostic.
ghost use Rattle.std.specs.Prelude.{◌≡◌, ◌++◌, decimal, false, is_err};
ghost use Rattle.run_devices.specs.RunOutput.{OutputsUnless};
ghost use Rattle.view_diagnostics.specs.Diagnostics.{after_colon, document_front, file_value, line_front, number_value, place_text};

use crate::diagnostics::{DiagnosticForm, Severity};
use crate::escape::put_text;
use crate::place::FilePlace;
use itoa::Buffer;
use run_devices::{DeviceFault, Sink, WriteBuffer};

/// Gathers `FILE:LINE:COLUMN: SEVERITY: `. The error is a failed write.
pub(crate) fn put_line_front<K: Sink>(
    file: &[u8],
    place: FilePlace,
    severity: Severity,
    gathered: &mut WriteBuffer,
    sink: &mut K,
) -> Result<(), DeviceFault>
    requires { K.has_failed sink.old ≡ false }
    ensures output { OutputsUnless result (K.contents sink.old) gathered.old
        (K.contents sink.new) gathered.new (line_front file.now place severity) }
    ensures failing { K.has_failed sink.new ≡ is_err result }
{
    put_place(file, place, gathered, sink)?;
    gathered.put(sink, severity.name().as_bytes())?;
    gathered.put(sink, b": ")
}

// Gathers `FILE:LINE:COLUMN: `, or nothing if there is no file.
fn put_place<K: Sink>(
    file: &[u8],
    place: FilePlace,
    gathered: &mut WriteBuffer,
    sink: &mut K,
) -> Result<(), DeviceFault>
    requires { K.has_failed sink.old ≡ false }
    ensures output { OutputsUnless result (K.contents sink.old) gathered.old
        (K.contents sink.new) gathered.new (place_text file.now place) }
    ensures failing { K.has_failed sink.new ≡ is_err result }
{
    if file.is_empty() {
        return Ok(());
    }
    put_text(DiagnosticForm::Text, file, gathered, sink)?;
    put_after_colon(place.line(), gathered, sink)?;
    put_after_colon(place.column(), gathered, sink)?;
    gathered.put(sink, b": ")
}

// Gathers a colon and a number, if there is one.
fn put_after_colon<K: Sink>(
    number: Option<u64>,
    gathered: &mut WriteBuffer,
    sink: &mut K,
) -> Result<(), DeviceFault>
    requires { K.has_failed sink.old ≡ false }
    ensures output { OutputsUnless result (K.contents sink.old) gathered.old
        (K.contents sink.new) gathered.new (after_colon number) }
    ensures failing { K.has_failed sink.new ≡ is_err result }
{
    match number {
        Some(number) => {
            gathered.put(sink, b":")?;
            put_number(number, gathered, sink)
        }
        None => Ok(()),
    }
}

/// Gathers a document up to the first byte of its message. The error is a failed write.
pub(crate) fn put_document_front<K: Sink>(
    file: &[u8],
    place: FilePlace,
    severity: Severity,
    gathered: &mut WriteBuffer,
    sink: &mut K,
) -> Result<(), DeviceFault>
    requires { K.has_failed sink.old ≡ false }
    ensures output { OutputsUnless result (K.contents sink.old) gathered.old
        (K.contents sink.new) gathered.new (document_front file.now place severity) }
    ensures failing { K.has_failed sink.new ≡ is_err result }
{
    gathered.put(sink, b"{\"severity\":\"")?;
    gathered.put(sink, severity.name().as_bytes())?;
    gathered.put(sink, b"\",\"file\":")?;
    put_file(file, gathered, sink)?;
    put_member(b",\"line\":", place.line(), gathered, sink)?;
    put_member(b",\"column\":", place.column(), gathered, sink)?;
    gathered.put(sink, b",\"text\":\"")
}

// Gathers the path of the file, or `null`.
fn put_file<K: Sink>(
    file: &[u8],
    gathered: &mut WriteBuffer,
    sink: &mut K,
) -> Result<(), DeviceFault>
    requires { K.has_failed sink.old ≡ false }
    ensures output { OutputsUnless result (K.contents sink.old) gathered.old
        (K.contents sink.new) gathered.new (file_value file.now) }
    ensures failing { K.has_failed sink.new ≡ is_err result }
{
    if file.is_empty() {
        return gathered.put(sink, b"null");
    }
    gathered.put(sink, b"\"")?;
    put_text(DiagnosticForm::Json, file, gathered, sink)?;
    gathered.put(sink, b"\"")
}

// Gathers a name and a number, or `null`.
fn put_member<K: Sink>(
    name: &[u8],
    number: Option<u64>,
    gathered: &mut WriteBuffer,
    sink: &mut K,
) -> Result<(), DeviceFault>
    requires { K.has_failed sink.old ≡ false }
    ensures output { OutputsUnless result (K.contents sink.old) gathered.old
        (K.contents sink.new) gathered.new (name.now ++ number_value number) }
    ensures failing { K.has_failed sink.new ≡ is_err result }
{
    gathered.put(sink, name)?;
    match number {
        Some(number) => put_number(number, gathered, sink),
        None => gathered.put(sink, b"null"),
    }
}

// Gathers a number in decimal digits.
fn put_number<K: Sink>(
    number: u64,
    gathered: &mut WriteBuffer,
    sink: &mut K,
) -> Result<(), DeviceFault>
    requires { K.has_failed sink.old ≡ false }
    ensures output { OutputsUnless result (K.contents sink.old) gathered.old
        (K.contents sink.new) gathered.new (decimal number) }
    ensures failing { K.has_failed sink.new ≡ is_err result }
{
    let mut digits = Buffer::new();
    gathered.put(sink, digits.format(number).as_bytes())
}
