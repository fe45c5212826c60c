//! A sink over any writer.
ghost use Rattle.std.specs.Prelude.{◌≡◌, false};

use crate::device::{DeviceFault, Sink};
use std::io::{ErrorKind, Write};

/// A writer as a sink: each of its errors is a fault, including an interrupted write.
#[derive(Drop)]
pub struct Output<W> {
    writer: W,
    failed: bool,
    unread: bool,
}

impl<W: Write> Output<W> {
    /// Creates a sink over a writer; the sink has not failed.
    pub fn new(writer: W) -> Self
        ensures bytes { ⟦<Output<W> as Sink>⟧.contents result ≡ W.contents writer }
        ensures fresh { ⟦<Output<W> as Sink>⟧.has_failed result ≡ false }
    {
        Output {
            writer,
            failed: false,
            unread: false,
        }
    }

    /// Returns the writer, with the bytes that it holds.
    pub fn into_inner(self) -> W
        ensures { W.contents result ≡ ⟦<Output<W> as Sink>⟧.contents self }
    {
        self.writer
    }

    /// Returns whether a write failed because nobody reads the output: the other end of a pipe is closed.
    pub fn is_unread(&self) -> bool {
        self.unread
    }
}

impl<W: Write> Sink for Output<W> {
    ghost contents = { λ output. W.contents output.writer };

    ghost has_failed = { λ output. output.failed };

    fn write(&mut self, buffer: &[u8]) -> Result<usize, DeviceFault> {
        match self.writer.write(buffer) {
            Ok(count) => {
                if count == 0 && !buffer.is_empty() {
                    self.failed = true;
                }
                Ok(count)
            }
            Err(error) => {
                self.failed = true;
                self.unread = error.kind() == ErrorKind::BrokenPipe;
                Err(DeviceFault)
            }
        }
    }

    fn failed(&self) -> bool {
        self.failed
    }
}
