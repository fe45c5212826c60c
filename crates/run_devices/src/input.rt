//! A source over any reader.
ghost use Rattle.std.specs.Prelude.{◌≡◌, false};

use crate::device::{DeviceFault, Source};
use std::io::Read;

/// A reader as a source: each of its errors is a fault, including an interrupted read.
#[derive(Drop)]
pub struct Input<R> {
    reader: R,
    failed: bool,
}

impl<R: Read> Input<R> {
    /// Creates a source over a reader; the source has not failed.
    pub fn new(reader: R) -> Self
        ensures bytes { ⟦<Input<R> as Source>⟧.remaining result ≡ R.remaining reader }
        ensures fresh { ⟦<Input<R> as Source>⟧.has_failed result ≡ false }
    {
        Input {
            reader,
            failed: false,
        }
    }

    /// Returns the reader, with the bytes that it has left.
    pub fn into_inner(self) -> R
        ensures { R.remaining result ≡ ⟦<Input<R> as Source>⟧.remaining self }
    {
        self.reader
    }
}

impl<R: Read> Source for Input<R> {
    ghost remaining = { λ input. R.remaining input.reader };

    ghost has_failed = { λ input. input.failed };

    fn read(&mut self, buffer: &mut [u8]) -> Result<usize, DeviceFault> {
        match self.reader.read(buffer) {
            Ok(count) => Ok(count),
            Err(_) => {
                self.failed = true;
                Err(DeviceFault)
            }
        }
    }

    fn failed(&self) -> bool {
        self.failed
    }
}
