//! The streams of a run: what a scenario is read from, and what replies and diagnostics are written to.
ghost use Rattle.std.specs.Prelude.{◌≡◌, false};

use run_devices::{Output, Sink};
use std::alloc::Global;
use std::io;
use std::io::{Printer, Read, Stderr, StdinLock, Write};
use view_colors::{ColorSink, Lines};

/// The source of a scenario's bytes.
#[derive(Drop)]
pub enum Origin<'a, F> {
    /// Standard input.
    Typed(StdinLock<'a>),
    /// A file.
    File(F),
    /// Bytes in memory.
    Held(&'a [u8]),
}

impl<F: Read> Read for Origin<'_, F> {
    ghost use Rattle.cli_base.specs.Origins.{origin_bytes};

    ghost remaining = { origin_bytes F.remaining };

    fn read(&mut self, buffer: &mut [u8]) -> io::Result<usize> {
        match self {
            Origin::Typed(input) => input.read(buffer),
            Origin::File(file) => file.read(buffer),
            Origin::Held(bytes) => bytes.read(buffer),
        }
    }
}

/// The destination of lines.
#[derive(Drop)]
pub enum OutputStream<'a> {
    /// Standard output.
    Printed(Printer<'a, HostRuntime>),
    /// Standard error.
    Complained(Stderr),
    /// A text in memory.
    Kept(Vec<u8>),
    /// No destination: lines are dropped.
    Dropped,
}

impl Write for OutputStream<'_> {
    fn write(&mut self, buffer: &[u8]) -> io::Result<usize> {
        match self {
            OutputStream::Printed(printer) => printer.write(buffer),
            OutputStream::Complained(stderr) => stderr.write(buffer),
            OutputStream::Kept(text) => text.write(buffer),
            OutputStream::Dropped => Ok(buffer.len()),
        }
    }

    fn flush(&mut self) -> io::Result<()> {
        Ok(())
    }
}

impl OutputStream<'_> {
    /// Returns a text in memory that has no lines yet.
    pub fn text(rt: &HostRuntime) -> Self {
        OutputStream::Kept(Vec::new(rt.alloc()))
    }

    // Returns the lines of a text in memory, and none of any other destination.
    fn into_text(self, alloc: Global) -> Vec<u8> {
        match self {
            OutputStream::Kept(text) => text,
            _ => Vec::new(alloc),
        }
    }
}

/// The writer of lines to their destination, with or without colours.
pub type Writer<'a> = ColorSink<Output<OutputStream<'a>>>;

/// Returns a writer to a destination whose lines have no colours.
pub fn plain_writer<'a>(rt: &HostRuntime, place: OutputStream<'a>) -> Writer<'a>
    ensures { ⟦<Writer<'a> as Sink>⟧.has_failed result ≡ false }
{
    ColorSink::plain(rt.alloc(), Output::new(place))
}

/// Returns a writer to a destination, which colours these lines if `colored` is set.
pub fn writer<'a>(
    rt: &HostRuntime,
    place: OutputStream<'a>,
    lines: Lines,
    colored: bool,
) -> Writer<'a> {
    if colored {
        ColorSink::new(rt.alloc(), Output::new(place), lines)
    } else {
        plain_writer(rt, place)
    }
}

/// Returns the lines that were written to a text in memory.
pub fn text_of(rt: &HostRuntime, writer: Writer<'_>) -> Vec<u8> {
    writer.into_sink().into_inner().into_text(rt.alloc())
}
