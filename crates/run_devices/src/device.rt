//! The devices from which a run reads and to which it writes.
ghost use Rattle.std.specs.Prelude.{◌≡◌, ℕ, List, Bool, false, Option, None, is_err};
ghost use Rattle.std.specs.Io.{ReadsAtMost, WritesAtMost};
ghost use Rattle.std.specs.Io.KnownBytes.{ReadConsumes, WriteAppends};
ghost use Rattle.run_devices.specs.Device.{is_write_failure};

use thiserror::Error;

/// A read or a write that failed.
#[derive(Clone, Copy, Debug, PartialEq, Eq, Error)]
#[error("the device failed")]
pub struct DeviceFault;

/// A device from which a run reads its lines.
pub trait Source {
    // The bytes that later reads will return, if they are known.
    ghost remaining: { Self → Option (List ℕ) } = { λ _. None };

    ghost has_failed: { Self → Bool };

    /// Reads bytes into the front of `buffer` and returns their number: 0 only at the end, or if `buffer` is empty. A source
    /// that has failed is not read again. Returns a `DeviceFault` if the read fails.
    fn read(&mut self, buffer: &mut [u8]) -> Result<usize, DeviceFault>
        requires { has_failed self.old ≡ false }
        ensures bound { ReadsAtMost result buffer.new }
        ensures bytes { ReadConsumes (remaining self.old) (remaining self.new) result buffer.new }
        ensures failing { has_failed self.new ≡ is_err result };

    /// Returns whether a read has failed or was interrupted.
    fn failed(&self) -> bool
        ensures { result ≡ has_failed self.now };
}

/// A device to which a run writes its replies.
pub trait Sink {
    // The bytes that writes have left, if they are known.
    ghost contents: { Self → Option (List ℕ) } = { λ _. None };

    ghost has_failed: { Self → Bool };

    /// Writes bytes from the front of `buffer` and returns their number. A sink that has failed is not written to again.
    /// Returns a `DeviceFault` if the write fails.
    fn write(&mut self, buffer: &[u8]) -> Result<usize, DeviceFault>
        requires { has_failed self.old ≡ false }
        ensures bound { WritesAtMost result buffer.now }
        ensures bytes { WriteAppends (contents self.old) (contents self.new) result buffer.now }
        ensures failing { has_failed self.new ≡ is_write_failure result buffer.now };

    /// Returns whether a write has failed, was interrupted, or took none of at least one byte.
    fn failed(&self) -> bool
        ensures { result ≡ has_failed self.now };
}
