//! Budgets, and how their bytes are printed.
ghost use Rattle.std.specs.Prelude.{Some};
ghost use Rattle.budget_meter.specs.ByteTexts.{bytes_text};

use std::fmt;

/// A budget of an account: RAM in bytes, and capabilities.
#[derive(Clone, Copy, PartialEq, Eq)]
pub struct Budget {
    /// Bytes of RAM.
    pub ram: u64,
    /// Capabilities.
    pub caps: u64,
}

/// A number of bytes that prints in K if it is a multiple of 1024.
#[derive(Clone, Copy)]
pub struct Bytes(pub u64);

impl fmt::Display for Bytes {
    ghost output = { λ bytes. Some (bytes_text bytes.0) };

    fn fmt<W: fmt::Write>(&self, f: &mut fmt::Formatter<W>) -> fmt::Result {
        let bytes = self.0;
        if bytes > 0 && bytes % 1024 == 0 {
            let whole = bytes / 1024;
            write!(f, "{whole}K")
        } else {
            write!(f, "{bytes}")
        }
    }
}
