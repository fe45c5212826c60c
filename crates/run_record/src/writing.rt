//! Lines of a recording, as they are written.
ghost use Rattle.std.specs.Prelude.{◌≡◌, ◌++◌, ◌==◌, ◌-◌, OnOk, IfOk, true, take, drop, length, slice_index};
ghost use Rattle.std.specs.Option.{unwrap_or};
ghost use Rattle.line_friendly.specs.Friendly.{arrow_of, end_of};
ghost use Rattle.run_record.specs.Recorded.{byte_of_lines, call_end, ending_of, escaped_byte, expected_lines, expecting, kept};

use line_friendly::{arrow_of, end_of};
use std::alloc::{AllocError, Global};

/// Writes a line unchanged, with its newline. The error is that the host is out of memory.
pub(crate) fn put_kept(text: &mut Vec<u8>, line: &[u8]) -> Result<(), AllocError>
    ensures { OnOk result (text.new.items ≡ text.old.items ++ kept line.now) }
{
    text.extend_from_slice(line)?;
    text.extend_from_slice(b"\n")?;
    Ok(())
}

/// Writes finished log lines, each as an expected one, before a line whose end of line they get. The error is that the host is
/// out of memory.
pub(crate) fn put_expected(text: &mut Vec<u8>, lines: &[u8], line: &[u8]) -> Result<(), AllocError>
    ensures { OnOk result
        (text.new.items ≡ text.old.items ++ expected_lines (ending_of line.now) true lines.now) }
{
    let ending = ending_of(line);
    let mut begins = true;
    for byte in lines {
        put_byte(text, ending, begins, *byte)?;
        begins = *byte == b'\n';
    }
    Ok(())
}

/// Returns a line with this expected reply in place of its own, and its other bytes unchanged. The error is that the host is out
/// of memory.
pub(crate) fn expecting(alloc: Global, line: &[u8], reply: &[u8]) -> Result<Vec<u8>, AllocError>
    ensures { IfOk result (λ new. new.items ≡ expecting line.now reply.now) }
{
    let mut new = Vec::new(alloc);
    put_expecting(&mut new, line, reply)?;
    Ok(new)
}

/// Writes a line with this expected reply in place of its own, and its other bytes unchanged. The error is that the host is out
/// of memory.
#[tactic(auto, unfolding(crate::specs::Recorded::expecting))]
pub(crate) fn put_expecting(text: &mut Vec<u8>, line: &[u8], reply: &[u8]) -> Result<(), AllocError>
    ensures { OnOk result (text.new.items ≡ text.old.items ++ expecting line.now reply.now) }
{
    let end = end_of(line);
    text.extend_from_slice(first(call_end(line, end), line))?;
    text.extend_from_slice(b" => ")?;
    text.extend_from_slice(reply)?;
    text.extend_from_slice(behind(end, line))?;
    Ok(())
}

// Returns the end of a line's call, before its expectation and its comment, which begins at `end`.
fn call_end(line: &[u8], end: usize) -> usize
    requires { end ≡ end_of line.now }
    ensures { result ≡ call_end line.now }
{
    match arrow_of(first(end, line)) {
        Some(place) => place,
        None => end,
    }
}

// Writes a byte of finished log lines, which begins a line or not.
fn put_byte(text: &mut Vec<u8>, ending: &[u8], begins: bool, byte: u8) -> Result<(), AllocError>
    ensures { OnOk result
        (text.new.items ≡ text.old.items ++ byte_of_lines ending.now begins byte) }
{
    if begins {
        text.extend_from_slice(b"=> ")?;
    }
    if byte == b'\n' {
        text.extend_from_slice(ending)?;
        return Ok(());
    }
    put_sign(text, byte)
}

// Writes a byte so that it is the same after names are filled in: `$` as `$$`.
fn put_sign(text: &mut Vec<u8>, byte: u8) -> Result<(), AllocError>
    ensures { OnOk result (text.new.items ≡ text.old.items ++ escaped_byte byte) }
{
    if byte == b'$' {
        text.push(b'$')?;
    }
    text.push(byte)?;
    Ok(())
}

// Returns the end of line of this line, for the lines before it: a newline, after a carriage return if the line has one.
fn ending_of(line: &[u8]) -> &[u8]
    ensures { result.now ≡ ending_of line.now }
{
    if !line.is_empty() && line[line.len() - 1] == b'\r' {
        b"\r\n"
    } else {
        b"\n"
    }
}

// Returns at most this number of bytes from the front of a text.
fn first(count: usize, text: &[u8]) -> &[u8]
    ensures { result.now ≡ take count text.now }
{
    if count < text.len() {
        &text[..count]
    } else {
        text
    }
}

// Returns the bytes of a text after this number of bytes.
fn behind(count: usize, text: &[u8]) -> &[u8]
    ensures { result.now ≡ drop count text.now }
{
    if count < text.len() {
        &text[count..]
    } else {
        b""
    }
}
