//! Exit statuses, and messages for results that can't be written and scenarios that can't be read.
ghost use Rattle.std.specs.Prelude.{◌≡◌, ◌==◌, if◌then◌else◌, nat_lt, is_err, true, IfErr, IfOk, OnErr, Ok};
ghost use Rattle.std.specs.Io.KnownBytes.{Appends};
ghost use Rattle.cli_base.specs.Statuses.{boot_status, EndsAs, HasWritten, IsZero};

use crate::reports::{Spot, report_error, report_write_failure};
use list_parser::BootFault;
use run_lines::LineRunFault;
use std::alloc::AllocError;
use std::io::{ErrorKind, Write};
use std::{fmt, io};
use view_diagnostics::DiagnosticForm;

/// The exit status of a result that can't be written, of a file that can't be read to its end, and of a host that is out of memory.
pub const UNWRITTEN: u8 = 1;

/// The exit status of an invalid start list, one that doesn't boot, or one with findings in a strict check.
pub const REFUSED: u8 = 2;

// The exit status of a scenario with lines that aren't read.
const UNREAD_LINES: u8 = 3;

/// The message of a host that is out of memory.
pub const OUT_OF_MEMORY: &str = "out of memory";

/// The exit status if nobody reads the result: shells report it for a program that a closed pipe ends.
pub const UNREAD: u8 = 141;

/// Returns the exit status after a write: 0, 141 for a closed pipe, or 1 for another failure, which is printed.
pub fn status_of(rt: &HostRuntime, printed: io::Result<()>) -> u8
    ensures written { HasWritten printed result }
    ensures ends { EndsAs ⊥ IsZero result }
{
    match printed {
        Ok(()) => 0,
        Err(error) => match error.kind() {
            ErrorKind::BrokenPipe => UNREAD,
            _ => {
                report_write_failure(rt, DiagnosticForm::Text, "standard output", &error);
                UNWRITTEN
            }
        },
    }
}

/// Prints that the host is out of memory, and returns the exit status 1.
pub fn no_memory(rt: &HostRuntime) -> u8
    ensures { result ≡ 1 }
{
    report_error(rt, DiagnosticForm::Text, Spot::nowhere(), &OUT_OF_MEMORY);
    UNWRITTEN
}

/// Returns the value that was made. If the host is out of memory, prints that and returns the exit status 1.
pub fn made_or_status<T>(rt: &HostRuntime, made: Result<T, AllocError>) -> Result<T, u8>
    ensures ok { IfOk result (λ value. made ≡ Ok value) }
    ensures err { IfErr result (λ status. (status ≡ 1) × (is_err made ≡ true)) }
{
    match made {
        Ok(made) => Ok(made),
        Err(AllocError) => Err(no_memory(rt)),
    }
}

/// Returns the place of a fault that stopped a run after `lines` lines: the next line if it wasn't read, else no file.
pub fn spot_of(scenario: &str, lines: u64, fault: LineRunFault) -> Spot<'_> {
    match fault {
        LineRunFault::ReadFault | LineRunFault::TooManyLines => {
            Spot::line(scenario, lines.saturating_add(1))
        }
        LineRunFault::WriteFault | LineRunFault::NoMemory => Spot::nowhere(),
    }
}

/// The message of the fault that stopped a run.
#[derive(Clone, Copy)]
pub struct StopMessage(pub LineRunFault);

impl fmt::Display for StopMessage {
    fn fmt<W: fmt::Write>(&self, f: &mut fmt::Formatter<W>) -> fmt::Result {
        f.write_str(match self.0 {
            LineRunFault::ReadFault => "cannot read this line",
            LineRunFault::TooManyLines => "more than 1000000 lines",
            LineRunFault::WriteFault => "cannot write standard output",
            LineRunFault::NoMemory => OUT_OF_MEMORY,
        })
    }
}

/// Returns the exit status of a list that doesn't boot: 1 if the host is out of memory, else 2.
pub fn boot_status(fault: &BootFault) -> u8
    ensures { result ≡ boot_status fault.now }
{
    match fault {
        BootFault::NoMemory => UNWRITTEN,
        _ => REFUSED,
    }
}

/// Returns the exit status of a scenario with this number of unread lines: 3 if there are any, else 0.
pub fn unread_status(lines: usize) -> u8
    ensures { result ≡ (if nat_lt 0 lines then 3 else 0) }
{
    if lines > 0 { UNREAD_LINES } else { 0 }
}

/// Returns the exit status of a result after its write: that of the write if it failed, else that of the result.
pub fn status_after(printed: u8, status: u8) -> u8
    ensures { result ≡ (if printed == 0 then status else printed) }
{
    if printed == 0 { status } else { printed }
}

/// Prints documents on standard output. Returns the exit status, also if the host is out of memory.
pub fn print_documents(rt: &HostRuntime, documents: Result<Vec<u8>, AllocError>) -> u8
    ensures failed { OnErr documents (result ≡ 1) }
    ensures ends { EndsAs ⊥ IsZero result }
{
    print_on(rt, &mut io::writer(rt), documents)
}

// Prints documents on a writer. The exit status is 0 only if all of them are written.
fn print_on<W: Write>(
    rt: &HostRuntime,
    writer: &mut W,
    documents: Result<Vec<u8>, AllocError>,
) -> u8
    ensures printed { result ≡ 0 → IfOk documents (λ text.
        Appends (W.contents writer.old) (W.contents writer.new) text.items) }
    ensures failed { OnErr documents (result ≡ 1) }
    ensures ends { EndsAs ⊥ IsZero result }
{
    match documents {
        Ok(text) => status_of(rt, writer.write_all(text.as_slice())),
        Err(AllocError) => no_memory(rt),
    }
}
