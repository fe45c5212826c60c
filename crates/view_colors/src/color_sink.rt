//! A sink that colours lines.
ghost use Rattle.std.specs.Prelude.{◌≡◌, ◌++◌, ◌∷◌, ◌||◌, [], false, is_err, length, take, IfOk, IfSome, OnOk};
ghost use Rattle.std.specs.Io.{WritesAtMost};
ghost use Rattle.std.specs.Io.KnownBytes.{Appends, WriteAppends};
ghost use Rattle.run_devices.specs.Device.{is_write_failure};
ghost use Rattle.view_colors.specs.ColorSink.{contents_of, left_of, painted, painted_lines, shade_of, Shows};

use crate::shade::{Lines, Shade};
use run_devices::{DeviceFault, Sink, write_out};
use std::alloc::{AllocError, Global};

/// A sink that colours each complete line, and writes the line to another sink; or one that passes bytes on unchanged.
#[derive(Drop)]
pub struct ColorSink<S> {
    alloc: Global,
    sink: S,
    // The kind of lines, or nothing if bytes are passed on unchanged.
    lines: Option<Lines>,
    // The bytes of the line that isn't complete yet.
    line: Vec<u8>,
    // Whether the host was out of memory for a line.
    failed: bool,
}

impl<S: Sink> ColorSink<S> {
    /// Returns a sink that colours lines of this kind and writes them to another sink.
    pub fn new(alloc: Global, sink: S, lines: Lines) -> ColorSink<S>
        requires { S.has_failed sink ≡ false }
        ensures { ⟦<ColorSink<S> as Sink>⟧.has_failed result ≡ false }
    {
        ColorSink {
            alloc,
            sink,
            lines: Some(lines),
            line: Vec::new(alloc),
            failed: false,
        }
    }

    /// Returns a sink that passes bytes on to another sink unchanged.
    pub fn plain(alloc: Global, sink: S) -> ColorSink<S>
        requires { S.has_failed sink ≡ false }
        ensures { ⟦<ColorSink<S> as Sink>⟧.has_failed result ≡ false }
    {
        ColorSink {
            alloc,
            sink,
            lines: None,
            line: Vec::new(alloc),
            failed: false,
        }
    }

    /// Returns the other sink, to which the lines are written.
    pub fn sink(&self) -> &S {
        &self.sink
    }

    /// Returns the other sink, with the lines that were written to it up to now.
    pub fn into_sink(self) -> S
        ensures { result ≡ self.sink }
    {
        self.sink
    }

    // Writes the lines that bytes complete, coloured by the kind of these lines, and returns the number of bytes. The error is that
    // the host is out of memory or that a write failed.
    fn write_painted(&mut self, lines: Lines, bytes: &[u8]) -> Result<usize, DeviceFault>
        requires works { S.has_failed self.old.sink ≡ false }
        requires unfailed { self.old.failed ≡ false }
        ensures all { IfOk result (λ count. count ≡ length bytes.now) }
        ensures failing { self.new.failed || S.has_failed self.new.sink ≡ is_err result }
        ensures lines { self.new.lines ≡ self.old.lines }
        ensures line { OnOk result (self.new.line.items ≡ left_of self.old.line.items bytes.now) }
        ensures shown { OnOk result (Appends (S.contents self.old.sink) (S.contents self.new.sink)
            (painted_lines lines self.old.line.items bytes.now)) }
    {
        let Ok(text) = complete_lines(self.alloc, lines, &mut self.line, bytes) else {
            self.failed = true;
            return Err(DeviceFault);
        };
        if write_out(&mut self.sink, text.as_slice()) < text.len() {
            return Err(DeviceFault);
        }
        Ok(bytes.len())
    }
}

impl<S: Sink> Sink for ColorSink<S> {
    // A line can have the text of another one with colours. So the bytes that were taken aren't known from those below if lines
    // are coloured; `shown` relates both.
    ghost contents = { λ painted. contents_of painted.lines (S.contents painted.sink) };

    ghost has_failed = { λ painted. painted.failed || S.has_failed painted.sink };

    fn write(&mut self, buffer: &[u8]) -> Result<usize, DeviceFault>
        requires { self.old.failed || S.has_failed self.old.sink ≡ false }
        ensures bound { WritesAtMost result buffer.now }
        ensures bytes { WriteAppends
            (contents_of self.old.lines (S.contents self.old.sink))
            (contents_of self.new.lines (S.contents self.new.sink)) result buffer.now }
        ensures failing { self.new.failed || S.has_failed self.new.sink
            ≡ is_write_failure result buffer.now }
        ensures whole { IfSome self.old.lines (λ _. IfOk result (λ count. count ≡ length buffer.now)) }
        ensures lines { self.new.lines ≡ self.old.lines }
        ensures shown { IfOk result (λ count. Shows self.old.lines
            self.old.line.items (S.contents self.old.sink)
            self.new.line.items (S.contents self.new.sink) (take count buffer.now)) }
    {
        match self.lines {
            Some(lines) => self.write_painted(lines, buffer),
            None => self.sink.write(buffer),
        }
    }

    fn failed(&self) -> bool {
        self.failed || self.sink.failed()
    }
}

// Returns the lines that bytes complete, coloured, and keeps the bytes of the next line. The error is that the host is out of memory.
fn complete_lines(
    alloc: Global,
    lines: Lines,
    line: &mut Vec<u8>,
    bytes: &[u8],
) -> Result<Vec<u8>, DeviceFault>
    ensures text { IfOk result (λ text. text.items ≡ painted_lines lines line.old.items bytes.now) }
    ensures left { OnOk result (line.new.items ≡ left_of line.old.items bytes.now) }
{
    let mut text = Vec::new(alloc);
    match add_painted(&mut text, lines, line, bytes) {
        Ok(()) => Ok(text),
        Err(AllocError) => Err(DeviceFault),
    }
}

// Adds a line with its newline, between its colours.
fn add_line(text: &mut Vec<u8>, shade: Shade, line: &[u8]) -> Result<(), AllocError>
    ensures { OnOk result (text.new.items ≡ text.old.items ++ painted shade line.now ++ 10 ∷ []) }
{
    text.extend_from_slice(shade.code())?;
    text.extend_from_slice(line)?;
    text.extend_from_slice(shade.end())?;
    text.push(b'\n')?;
    Ok(())
}

// Adds the lines that bytes complete after the kept bytes of the first one, and keeps the bytes of the next line.
fn add_painted(
    text: &mut Vec<u8>,
    lines: Lines,
    line: &mut Vec<u8>,
    bytes: &[u8],
) -> Result<(), AllocError>
    ensures text { OnOk result (text.new.items
        ≡ text.old.items ++ painted_lines lines line.old.items bytes.now) }
    ensures left { OnOk result (line.new.items ≡ left_of line.old.items bytes.now) }
{
    for byte in bytes {
        if *byte == b'\n' {
            add_line(text, lines.shade_of(line.as_slice()), line.as_slice())?;
            line.clear();
        } else {
            line.push(*byte)?;
        }
    }
    Ok(())
}

/// Returns a text with each line in its colour. The text after the last newline has no colour. The error is that the host is out
/// of memory.
pub fn paint(alloc: Global, lines: Lines, text: &[u8]) -> Result<Vec<u8>, AllocError>
    ensures { IfOk result (λ told. told.items
        ≡ painted_lines lines [] text.now ++ left_of [] text.now) }
{
    let mut told = Vec::new(alloc);
    let mut line = Vec::new(alloc);
    add_painted(&mut told, lines, &mut line, text)?;
    told.extend_from_slice(line.as_slice())?;
    Ok(told)
}
