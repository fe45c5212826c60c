//! The fault of the engine's run.
ghost use Rattle.std.specs.Prelude.{Some};
ghost use Rattle.run_lines.specs.Faults.{run_fault_text};

use std::fmt;
use std::fmt::{Display, Formatter};
use thiserror::Error;

/// The fault that stopped the engine's run before the end of its input.
#[derive(Clone, Copy, Debug, PartialEq, Eq, Error)]
pub enum RunFault {
    /// A read failed, or a line was too long to be read to its end.
    ReadFault,
    /// A write failed.
    WriteFault,
    /// A line began after the last one allowed.
    TooManyLines,
}

impl Display for RunFault {
    ghost output = { λ fault. Some (run_fault_text fault) };

    fn fmt<W: fmt::Write>(&self, f: &mut Formatter<W>) -> fmt::Result {
        match self {
            RunFault::ReadFault => f.write_str("Read_fault"),
            RunFault::WriteFault => f.write_str("Write_fault"),
            RunFault::TooManyLines => f.write_str("Too_many_lines"),
        }
    }
}
