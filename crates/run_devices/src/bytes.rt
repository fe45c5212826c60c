//! Bytes in memory as a source.
ghost use Rattle.std.specs.Prelude.{Some, false};

use crate::device::{DeviceFault, Source};

/// Reads its bytes in order and never fails.
impl Source for &[u8] {
    ghost remaining = { λ bytes. Some bytes.now };

    ghost has_failed = { λ _. false };

    fn read(&mut self, buffer: &mut [u8]) -> Result<usize, DeviceFault> {
        let bytes: &[u8] = *self;
        let count = bytes.len().min(buffer.len());
        buffer[..count].copy_from_slice(&bytes[..count]);
        *self = &bytes[count..];
        Ok(count)
    }

    fn failed(&self) -> bool {
        false
    }
}
