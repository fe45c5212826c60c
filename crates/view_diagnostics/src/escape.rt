//! Texts within a diagnostic: one line, without control characters.
ghost use Rattle.std.specs.Prelude.{◌≡◌, ◌<◌, false, is_err};
ghost use Rattle.std.specs.Char.{digit_char};
ghost use Rattle.run_devices.specs.RunOutput.{OutputsUnless};
ghost use Rattle.view_diagnostics.specs.Diagnostics.{numbered, shown, shown_character, shown_characters};

use crate::diagnostics::DiagnosticForm;
use run_devices::{DeviceFault, Sink, WriteBuffer};

/// Gathers a text on one line. Bytes that are not UTF-8 become U+FFFD. Control characters, and characters that some readers take
/// as the end of a line, become escapes. In JSON `"` and `\` become escapes too. The error is a failed write.
pub(crate) fn put_text<K: Sink>(
    form: DiagnosticForm,
    text: &[u8],
    gathered: &mut WriteBuffer,
    sink: &mut K,
) -> Result<(), DeviceFault>
    requires { K.has_failed sink.old ≡ false }
    ensures output { OutputsUnless result (K.contents sink.old) gathered.old
        (K.contents sink.new) gathered.new (shown form text.now) }
    ensures failing { K.has_failed sink.new ≡ is_err result }
{
    for chunk in text.utf8_chunks() {
        put_characters(form, chunk.valid(), gathered, sink)?;
        if !chunk.invalid().is_empty() {
            gathered.put(sink, "\u{fffd}".as_bytes())?;
        }
    }
    Ok(())
}

// Gathers a text that is UTF-8.
fn put_characters<K: Sink>(
    form: DiagnosticForm,
    text: &str,
    gathered: &mut WriteBuffer,
    sink: &mut K,
) -> Result<(), DeviceFault>
    requires { K.has_failed sink.old ≡ false }
    ensures output { OutputsUnless result (K.contents sink.old) gathered.old
        (K.contents sink.new) gathered.new (shown_characters form text.now) }
    ensures failing { K.has_failed sink.new ≡ is_err result }
{
    for character in text.chars() {
        put_character(form, character, gathered, sink)?;
    }
    Ok(())
}

// Gathers a character.
fn put_character<K: Sink>(
    form: DiagnosticForm,
    character: char,
    gathered: &mut WriteBuffer,
    sink: &mut K,
) -> Result<(), DeviceFault>
    requires { K.has_failed sink.old ≡ false }
    ensures output { OutputsUnless result (K.contents sink.old) gathered.old
        (K.contents sink.new) gathered.new (shown_character form character) }
    ensures failing { K.has_failed sink.new ≡ is_err result }
{
    match character {
        '\n' => gathered.put(sink, b"\\n"),
        '\t' => gathered.put(sink, b"\\t"),
        '\u{2028}' => gathered.put(sink, b"\\u2028"),
        '\u{2029}' => gathered.put(sink, b"\\u2029"),
        '"' if form == DiagnosticForm::Json => gathered.put(sink, b"\\\""),
        '\\' if form == DiagnosticForm::Json => gathered.put(sink, b"\\\\"),
        control if control.is_control() => put_escape(control, gathered, sink),
        other => {
            let mut room = [0; 4];
            gathered.put(sink, other.encode_utf8(&mut room).as_bytes())
        }
    }
}

// Gathers a control character as `\u` and four hexadecimal digits: the number of each is below 256.
fn put_escape<K: Sink>(
    control: char,
    gathered: &mut WriteBuffer,
    sink: &mut K,
) -> Result<(), DeviceFault>
    requires works { K.has_failed sink.old ≡ false }
    ensures output { OutputsUnless result (K.contents sink.old) gathered.old
        (K.contents sink.new) gathered.new (numbered control) }
    ensures failing { K.has_failed sink.new ≡ is_err result }
{
    let number = control as u32;
    let (high, low) = (hex_digit(number / 16 % 16), hex_digit(number % 16));
    gathered.put(sink, &[b'\\', b'u', b'0', b'0', high, low])
}

// Returns the digit of a number below 16.
fn hex_digit(number: u32) -> u8
    requires { number < 16 }
    ensures { result ≡ digit_char number }
{
    let number = number as u8;
    if number < 10 {
        b'0' + number
    } else {
        b'a' + (number - 10)
    }
}
