//! Bytes in hexadecimal digits, as text.
ghost use Rattle.std.specs.Prelude.{◌≡◌, ◌/◌, ◌<◌, ◌++◌, false, get_or, is_err, length, map, Some, IfOk, OnOk};
ghost use Rattle.std.specs.List.{flat_map, list_all};
ghost use Rattle.std.specs.Option.{option_map};
ghost use Rattle.csv.specs.Writing.{default_writer, needs_quotes, quoted};
ghost use Rattle.own_model.specs.Text.{bytes_of_hex, hex_bytes};
ghost use Rattle.run_devices.specs.RunOutput.{OutputsUnless};
ghost use Rattle.view_diagnostics.specs.Diagnostics.{shown};
ghost use Rattle.run_scenario.specs.Complaints.{last_token, message_character, shown_bytes};
ghost use Rattle.run_scenario.specs.Texts.{in_brackets, is_shown, shown_text, character_text, characters_text, written_in};
ghost use Rattle.run_scenario.specs.Cells.{cell_text};

use crate::csv_row::needs_byte;
use run_lines::{DeviceFault, Sink, WriteBuffer};
use std::alloc::{AllocError, Global};
use text_codec::read_hex;
use view_diagnostics::Diagnostics;

/// Digits of one or more bytes that can all be printed.
#[derive(Clone, Copy)]
pub struct PrintableHex<'a> {
    hex: &'a [u8],
    ghost formed: { bytes_of_hex hex.now ≡ Some (hex_bytes hex.now) },
}

impl<'a> PrintableHex<'a> {
    /// Returns a text as such digits, or nothing if it isn't hexadecimal or a byte can't be printed.
    pub fn of(text: &'a [u8]) -> Option<PrintableHex<'a>>
        ensures text { option_map (λ shown. characters_text (hex_bytes shown.hex.now)) result
            ≡ shown_text (hex_bytes text.now) }
        ensures bytes { option_map (λ shown. hex_bytes shown.hex.now) result
            ≡ shown_bytes (hex_bytes text.now) }
    {
        let hex = read_hex(text)?;
        if are_shown(hex) {
            Some(PrintableHex { hex })
        } else {
            None
        }
    }

    /// Returns the last token of a text, if it is such digits.
    pub fn at_end(text: &'a [u8]) -> Option<PrintableHex<'a>>
        ensures { option_map (λ shown. hex_bytes shown.hex.now) result
            ≡ shown_bytes (hex_bytes (last_token text.now)) }
    {
        PrintableHex::of(last_token(text))
    }

    /// Gathers ` ("TEXT")`, with the escapes of the friendly form. The error is a failed write.
    pub fn put<K: Sink>(self, gathered: &mut WriteBuffer, sink: &mut K) -> Result<(), DeviceFault>
        requires { K.has_failed sink.old ≡ false }
        ensures told { OutputsUnless result (K.contents sink.old) gathered.old
            (K.contents sink.new) gathered.new
            (in_brackets (characters_text (hex_bytes self.entry.hex.now))) }
        ensures failing { K.has_failed sink.new ≡ is_err result }
    {
        gathered.put(sink, b" (\"")?;
        put_signs(self.hex, false, gathered, sink)?;
        gathered.put(sink, b"\")")
    }

    /// Returns the text, with the same escapes. The error is that the host is out of memory.
    pub fn to_text(self, alloc: Global) -> Result<Vec<u8>, AllocError>
        ensures { IfOk result (λ text. text.items
            ≡ characters_text (hex_bytes self.entry.hex.now)) }
    {
        text_of(alloc, self.hex)
    }

    /// Writes the text into a message. The error is a failed write.
    pub fn put_in_message<K: Sink>(
        self,
        diagnostics: &mut Diagnostics<'_>,
        sink: &mut K,
    ) -> Result<(), DeviceFault>
        requires { K.has_failed sink.old ≡ false }
        ensures output { OutputsUnless result (K.contents sink.old) diagnostics.old.gathered
            (K.contents sink.new) diagnostics.new.gathered
            (flat_map (shown diagnostics.old.subject.form)
            (map message_character (hex_bytes self.entry.hex.now))) }
        ensures subject { diagnostics.new.subject ≡ diagnostics.old.subject }
        ensures failing { K.has_failed sink.new ≡ is_err result }
    {
        put_message_signs(self.hex, diagnostics, sink)
    }

    /// Gathers the text as one more cell, in quotes if it needs them. The error is a failed write.
    pub fn put_cell<K: Sink>(
        self,
        gathered: &mut WriteBuffer,
        sink: &mut K,
    ) -> Result<(), DeviceFault>
        requires { K.has_failed sink.old ≡ false }
        ensures told { OutputsUnless result (K.contents sink.old) gathered.old
            (K.contents sink.new) gathered.new
            (cell_text (characters_text (hex_bytes self.entry.hex.now))) }
        ensures failing { K.has_failed sink.new ≡ is_err result }
    {
        gathered.put(sink, b",")?;
        if need_quotes(self.hex) {
            put_quoted(self.hex, gathered, sink)
        } else {
            put_signs(self.hex, false, gathered, sink)
        }
    }
}

// Writes the text of these bytes into a message.
fn put_message_signs<K: Sink>(
    hex: &[u8],
    diagnostics: &mut Diagnostics<'_>,
    sink: &mut K,
) -> Result<(), DeviceFault>
    requires formed { bytes_of_hex hex.now ≡ Some (hex_bytes hex.now) }
    requires works { K.has_failed sink.old ≡ false }
    ensures output { OutputsUnless result (K.contents sink.old) diagnostics.old.gathered
        (K.contents sink.new) diagnostics.new.gathered
        (flat_map (shown diagnostics.old.subject.form)
        (map message_character (hex_bytes hex.now))) }
    ensures subject { diagnostics.new.subject ≡ diagnostics.old.subject }
    ensures failing { K.has_failed sink.new ≡ is_err result }
{
    for place in 0..hex.len() / 2 {
        put_message_sign(byte_at(hex, place), diagnostics, sink)?;
    }
    Ok(())
}

// Writes the text of a byte into a message.
fn put_message_sign<K: Sink>(
    byte: u8,
    diagnostics: &mut Diagnostics<'_>,
    sink: &mut K,
) -> Result<(), DeviceFault>
    requires { K.has_failed sink.old ≡ false }
    ensures output { OutputsUnless result (K.contents sink.old) diagnostics.old.gathered
        (K.contents sink.new) diagnostics.new.gathered
        (shown diagnostics.old.subject.form (message_character byte)) }
    ensures subject { diagnostics.new.subject ≡ diagnostics.old.subject }
    ensures failing { K.has_failed sink.new ≡ is_err result }
{
    match byte {
        b'"' | b'\\' => diagnostics.put(sink, &[b'\\', byte]),
        _ => diagnostics.put(sink, &[byte]),
    }
}

// Returns the text after the last space.
fn last_token(text: &[u8]) -> &[u8]
    ensures { result.now ≡ last_token text.now }
{
    let mut start = 0;
    for place in 0..text.len() {
        if text[place] == b' ' {
            start = place + 1;
        }
    }
    &text[start..]
}

// Returns the byte at a place of those that digits denote.
fn byte_at(digits: &[u8], place: usize) -> u8
    requires formed { bytes_of_hex digits.now ≡ Some (hex_bytes digits.now) }
    requires within { place < length digits.now / 2 }
    ensures { result ≡ get_or (hex_bytes digits.now) place 0 }
{
    let mut byte = [0];
    let _ = hex::decode_to_slice(&digits[2 * place..2 * place + 2], &mut byte);
    byte[0]
}

// Returns whether all bytes that digits denote can be printed.
fn are_shown(hex: &[u8]) -> bool
    requires { bytes_of_hex hex.now ≡ Some (hex_bytes hex.now) }
    ensures { result ≡ list_all is_shown (hex_bytes hex.now) }
{
    for place in 0..hex.len() / 2 {
        if !is_shown(byte_at(hex, place)) {
            return false;
        }
    }
    true
}

// Returns whether a byte can be printed.
fn is_shown(byte: u8) -> bool
    ensures { result ≡ is_shown byte }
{
    byte == b'\n' || byte == b'\t' || (b' '..=b'~').contains(&byte)
}

// Returns whether the text of these bytes needs quotes.
fn need_quotes(hex: &[u8]) -> bool
    requires { bytes_of_hex hex.now ≡ Some (hex_bytes hex.now) }
    ensures { result ≡ needs_quotes default_writer (characters_text (hex_bytes hex.now)) }
{
    for place in 0..hex.len() / 2 {
        if needs_quotes(byte_at(hex, place)) {
            return true;
        }
    }
    false
}

// Returns whether the text of a byte needs quotes.
fn needs_quotes(byte: u8) -> bool
    ensures { result ≡ needs_quotes default_writer (character_text byte) }
{
    byte != b'\n' && needs_byte(byte)
}

// Gathers the text of these bytes in quotes, with each quote in it doubled.
fn put_quoted<K: Sink>(
    hex: &[u8],
    gathered: &mut WriteBuffer,
    sink: &mut K,
) -> Result<(), DeviceFault>
    requires formed { bytes_of_hex hex.now ≡ Some (hex_bytes hex.now) }
    requires works { K.has_failed sink.old ≡ false }
    ensures told { OutputsUnless result (K.contents sink.old) gathered.old
        (K.contents sink.new) gathered.new
        (quoted default_writer (characters_text (hex_bytes hex.now))) }
    ensures failing { K.has_failed sink.new ≡ is_err result }
{
    gathered.put(sink, b"\"")?;
    put_signs(hex, true, gathered, sink)?;
    gathered.put(sink, b"\"")
}

// Gathers the text of these bytes, unchanged or within the quotes of a cell.
fn put_signs<K: Sink>(
    hex: &[u8],
    in_cell: bool,
    gathered: &mut WriteBuffer,
    sink: &mut K,
) -> Result<(), DeviceFault>
    requires formed { bytes_of_hex hex.now ≡ Some (hex_bytes hex.now) }
    requires works { K.has_failed sink.old ≡ false }
    ensures told { OutputsUnless result (K.contents sink.old) gathered.old
        (K.contents sink.new) gathered.new
        (written_in in_cell (characters_text (hex_bytes hex.now))) }
    ensures failing { K.has_failed sink.new ≡ is_err result }
{
    for place in 0..hex.len() / 2 {
        put_sign(byte_at(hex, place), in_cell, gathered, sink)?;
    }
    Ok(())
}

// Gathers the text of a byte.
#[tactic(auto, unfolding(csv::specs::Writing::escaped))]
fn put_sign<K: Sink>(
    byte: u8,
    in_cell: bool,
    gathered: &mut WriteBuffer,
    sink: &mut K,
) -> Result<(), DeviceFault>
    requires { K.has_failed sink.old ≡ false }
    ensures told { OutputsUnless result (K.contents sink.old) gathered.old
        (K.contents sink.new) gathered.new
        (written_in in_cell (character_text byte)) }
    ensures failing { K.has_failed sink.new ≡ is_err result }
{
    match byte {
        b'\n' => gathered.put(sink, b"\\n"),
        b'\t' => gathered.put(sink, b"\\t"),
        b'"' if in_cell => gathered.put(sink, b"\\\"\""),
        b'"' | b'\\' => gathered.put(sink, &[b'\\', byte]),
        _ => gathered.put(sink, &[byte]),
    }
}

// Returns the text of these bytes.
fn text_of(alloc: Global, hex: &[u8]) -> Result<Vec<u8>, AllocError>
    requires { bytes_of_hex hex.now ≡ Some (hex_bytes hex.now) }
    ensures { IfOk result (λ text. text.items ≡ characters_text (hex_bytes hex.now)) }
{
    let mut text = Vec::new(alloc);
    for place in 0..hex.len() / 2 {
        add_sign(byte_at(hex, place), &mut text)?;
    }
    Ok(text)
}

// Appends the text of a byte.
fn add_sign(byte: u8, text: &mut Vec<u8>) -> Result<(), AllocError>
    ensures { OnOk result (text.new.items ≡ text.old.items ++ character_text byte) }
{
    match byte {
        b'\n' => text.extend_from_slice(b"\\n"),
        b'\t' => text.extend_from_slice(b"\\t"),
        b'"' | b'\\' => text.extend_from_slice(&[b'\\', byte]),
        _ => text.extend_from_slice(&[byte]),
    }
}
