//! The fault of a run with a line handler.
ghost use Rattle.std.specs.Prelude.{◌≡◌};
ghost use Rattle.run_lines.specs.Faults.{line_fault, play_fault};
ghost use Rattle.run_lines.specs.declared.line_run_fault.LineRunFault.TheVariants.{NoMemory as NoRoom, WriteFault as Unwritten};

use crate::lines::LineFault;
use crate::run_fault::RunFault;
use run_devices::DeviceFault;
use std::alloc::{AllocError, AllocFailed};
use thiserror::Error;

/// The fault that stopped a run before the end of its scenario.
#[derive(Clone, Copy, Debug, PartialEq, Eq, Error)]
pub enum LineRunFault {
    /// A read failed, or a line was too long to be read to its end.
    #[error("Read_fault")]
    ReadFault,
    /// A write failed: of the output, or of what the line handler writes in addition.
    #[error("Write_fault")]
    WriteFault,
    /// A line began after the last one allowed.
    #[error("Too_many_lines")]
    TooManyLines,
    /// The host is out of memory for what the line handler stores.
    #[error("No_memory")]
    NoMemory,
}

impl From<LineFault> for LineRunFault {
    ghost from_gives = { λ fault result. result ≡ line_fault fault };

    fn from(fault: LineFault) -> LineRunFault {
        match fault {
            LineFault::Read | LineFault::Endless => LineRunFault::ReadFault,
            LineFault::Write => LineRunFault::WriteFault,
        }
    }
}

impl From<RunFault> for LineRunFault {
    ghost from_gives = { λ fault result. result ≡ play_fault fault };

    fn from(fault: RunFault) -> LineRunFault {
        match fault {
            RunFault::ReadFault => LineRunFault::ReadFault,
            RunFault::WriteFault => LineRunFault::WriteFault,
            RunFault::TooManyLines => LineRunFault::TooManyLines,
        }
    }
}

impl From<DeviceFault> for LineRunFault {
    ghost from_gives = { λ _ result. result ≡ Unwritten };

    fn from(_fault: DeviceFault) -> LineRunFault {
        LineRunFault::WriteFault
    }
}

impl From<AllocError> for LineRunFault {
    ghost from_gives = { λ _ result. result ≡ NoRoom };

    fn from(_want: AllocError) -> LineRunFault {
        LineRunFault::NoMemory
    }
}

impl<T: Drop> From<AllocFailed<T>> for LineRunFault {
    ghost from_gives = { λ _ result. result ≡ NoRoom };

    fn from(_want: AllocFailed<T>) -> LineRunFault {
        LineRunFault::NoMemory
    }
}
