//! The bytes that a call has in hexadecimal digits, as text.
ghost use Rattle.std.specs.Prelude.{◌≡◌, [], false, is_err};
ghost use Rattle.std.specs.Option.{option_map_or, unwrap_or};
ghost use Rattle.own_model.specs.Text.{hex_bytes};
ghost use Rattle.core_calls.specs.Call.{model_call};
ghost use Rattle.run_devices.specs.RunOutput.{OutputsUnless};
ghost use Rattle.line_grammar.specs.Read.{IsReadAs};
ghost use Rattle.run_scenario.specs.Texts.{bytes_in_call, bytes_written, in_brackets, line_text};
ghost use Rattle.run_scenario.specs.Cells.{cell_text};
ghost use Rattle.view_runs.specs.Rows.{printed_text};

use core_calls::Call;
use run_lines::{DeviceFault, NamedCall, Sink, WriteBuffer};
use run_scenario::{PrintableHex, said_in};
use session_proto::{FileRequest, LogRequest};

/// Returns the bytes in the call of an engine's line, if it has some and all can be printed. `call` is what was parsed of the
/// line.
pub(crate) fn shown_in<'a>(line: &'a [u8], call: Option<NamedCall<'a>>) -> Option<PrintableHex<'a>>
    requires { IsReadAs line.now call }
    ensures { printed_text result ≡ line_text line.now }
{
    let (_, call) = said_in(line, call)?;
    PrintableHex::of(digits_in(call))
}

// Returns the digits of the bytes in a call, or nothing.
fn digits_in(call: Call<'_>) -> &[u8]
    ensures { hex_bytes result.now ≡ bytes_in_call (model_call call.entry) }
{
    match call {
        Call::Poke { hex, .. } => hex,
        Call::CallSession { request, .. } => digits_written(request),
        _ => b"",
    }
}

// Returns the digits of the bytes that a request writes, or nothing.
fn digits_written(request: &[u8]) -> &[u8]
    ensures { hex_bytes result.now ≡ bytes_written request.now }
{
    if let Some(LogRequest { hex }) = LogRequest::read(request) {
        return hex;
    }
    match FileRequest::read(request) {
        Some(FileRequest::Write { hex, .. }) => hex,
        _ => b"",
    }
}

/// Gathers one more cell with the text of bytes, or an empty cell. The error is a failed write.
pub(crate) fn put_text_cell<K: Sink>(
    shown: Option<PrintableHex<'_>>,
    gathered: &mut WriteBuffer,
    sink: &mut K,
) -> Result<(), DeviceFault>
    requires { K.has_failed sink.old ≡ false }
    ensures told { OutputsUnless result (K.contents sink.old) gathered.old
        (K.contents sink.new) gathered.new
        (cell_text (unwrap_or (printed_text shown.entry) [])) }
    ensures failing { K.has_failed sink.new ≡ is_err result }
{
    match shown {
        Some(shown) => shown.put_cell(gathered, sink),
        None => gathered.put(sink, b","),
    }
}

/// Gathers the text of bytes as it is printed after their digits, or nothing. The error is a failed write.
pub(crate) fn put_text_after<K: Sink>(
    shown: Option<PrintableHex<'_>>,
    gathered: &mut WriteBuffer,
    sink: &mut K,
) -> Result<(), DeviceFault>
    requires { K.has_failed sink.old ≡ false }
    ensures told { OutputsUnless result (K.contents sink.old) gathered.old
        (K.contents sink.new) gathered.new
        (option_map_or in_brackets (printed_text shown.entry) []) }
    ensures failing { K.has_failed sink.new ≡ is_err result }
{
    match shown {
        Some(shown) => shown.put(gathered, sink),
        None => Ok(()),
    }
}
