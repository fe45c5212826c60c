//! Lists, policies and scenarios, read from their files.
ghost use Rattle.std.specs.Prelude.{◌≡◌, ◌⊎◌, IfErr, IfNone, IfOk, IfSome};
ghost use Rattle.cli_base.specs.Files.{IsFrontAt, IsTextAt, IsTooLong, IsUnknown};
ghost use Rattle.cli_base.specs.declared.host.ReadFailure.TheVariants.{NoMemory as NoRoom};

use crate::host::{Host, ReadFailure};
use crate::reports::{Spot, SystemReason, report_error, summarize_errors};
use crate::status::{OUT_OF_MEMORY, REFUSED, StopMessage, UNWRITTEN};
use list_parser::LONGEST_TEXT;
use run_lines::{LineRunFault, MAX_LINES};
use std::alloc::AllocError;
use std::fmt;
use view_diagnostics::DiagnosticForm;

/// The most bytes of a scenario that is read whole before its first line is run. The rounds of a longer one aren't unfolded.
const LONGEST_WHOLE: usize = 64 << 20;

impl ReadFailure {
    ghost use Rattle.std.specs.Prelude.{◌≡◌};

    /// Returns the message that names the file by its path.
    pub fn about(self, path: &str) -> FileReadMessage<'_>
        ensures { result.why ≡ self }
    {
        FileReadMessage { path, why: self }
    }
}

/// The message of a file that can't be read: its path and the reason.
#[derive(Clone, Copy)]
pub struct FileReadMessage<'a> {
    path: &'a str,
    why: ReadFailure,
}

impl FileReadMessage<'_> {
    ghost use Rattle.std.specs.Prelude.{◌≡◌};
    ghost use Rattle.cli_base.specs.ListFailures.{read_lacks_memory};

    /// Returns whether the host is out of memory.
    pub(crate) fn lacks_memory(self) -> bool
        ensures { result ≡ read_lacks_memory self.entry.why }
    {
        matches!(self.why, ReadFailure::NoMemory)
    }
}

impl fmt::Display for FileReadMessage<'_> {
    fn fmt<W: fmt::Write>(&self, f: &mut fmt::Formatter<W>) -> fmt::Result {
        let path = self.path;
        match self.why {
            ReadFailure::Closed(error) => write!(f, "cannot open {path}: {}", SystemReason(error)),
            ReadFailure::Broken => write!(f, "cannot read {path}"),
            ReadFailure::NoMemory => f.write_str(OUT_OF_MEMORY),
        }
    }
}

/// Reads the text of a start list or a policy, no further than shows that it is too long. Errors: `Closed`, `Broken`, `NoMemory`.
pub fn read_list<H: Host>(host: &H, path: &str) -> Result<Vec<u8>, ReadFailure>
    ensures text { IfOk result (λ text.
        IsFrontAt (H.text_at host.now) path.now text.items) }
    ensures failed { IfErr result (λ why. IfSome (H.text_at host.now path.now) (λ _. why ≡ NoRoom)) }
{
    host.read(path, Some(LONGEST_TEXT + 1))
}

/// Reads the text of a scenario's file. Returns none if the file can't be read to its end or has more than 64 MiB. The error is out
/// of memory.
pub fn read_whole<H: Host>(host: &H, path: &str) -> Result<Option<Vec<u8>>, AllocError>
    ensures text { IfOk result (λ found. IfSome found (λ text.
        IsTextAt (H.text_at host.now) path.now text.items)) }
    ensures unread { IfOk result (λ found. IfNone found (IsTooLong (H.text_at host.now) path.now)) }
{
    match read_bounded(host, path) {
        Ok(found) => Ok(found),
        Err(ReadFailure::NoMemory) => Err(AllocError),
        Err(ReadFailure::Closed(_) | ReadFailure::Broken) => Ok(None),
    }
}

/// Reads the text of a scenario to its end: at most 64 MiB, and as many lines as a run may have. If that fails, prints why, and
/// returns the exit status: 2 if the file can't be opened, else 1.
pub fn scenario_text<H: Host>(host: &H, form: DiagnosticForm, path: &str) -> Result<Vec<u8>, u8>
    ensures text { IfOk result (λ text. IsTextAt (H.text_at host.now) path.now text.items) }
    ensures failed { IfErr result
        (λ status. (status ≡ 1) ⊎ (status ≡ 2) × IsUnknown (H.text_at host.now) path.now) }
{
    let rt = host.rt();
    match read_bounded(host, path) {
        Ok(Some(text)) if has_most_lines(&text) => Ok(text),
        Ok(Some(_)) => {
            let spot = Spot::line(path, MAX_LINES + 1);
            Err(refuse_long(rt, form, spot, &StopMessage(LineRunFault::TooManyLines)))
        }
        Ok(None) => Err(refuse_long(rt, form, Spot::file(path), &"more than 64M bytes")),
        Err(why) => {
            report_error(rt, form, Spot::nowhere(), &why.about(path));
            Err(failure_status(why))
        }
    }
}

/// Reads a file to its end. Returns none if it has more than 64 MiB.
pub(crate) fn read_bounded<H: Host>(host: &H, path: &str) -> Result<Option<Vec<u8>>, ReadFailure>
    ensures text { IfOk result (λ found. IfSome found (λ text.
        IsTextAt (H.text_at host.now) path.now text.items)) }
    ensures long { IfOk result (λ found. IfNone found (IsTooLong (H.text_at host.now) path.now)) }
    ensures failed { IfErr result (λ why. IfSome (H.text_at host.now path.now) (λ _. why ≡ NoRoom)) }
{
    match host.read(path, Some(LONGEST_WHOLE + 1)) {
        Ok(text) if text.len() > LONGEST_WHOLE => Ok(None),
        Ok(text) => Ok(Some(text)),
        Err(why) => Err(why),
    }
}

// Returns whether a text has at most as many lines as a run may have.
fn has_most_lines(text: &[u8]) -> bool {
    let lines = text.strip_suffix(b"\n").unwrap_or(text);
    lines.split(|byte| *byte == b'\n').count() as u64 <= MAX_LINES
}

// Prints what a scenario has too much of, and the number of errors. Returns the exit status 1.
fn refuse_long<D: fmt::Display>(
    rt: &HostRuntime,
    form: DiagnosticForm,
    spot: Spot<'_>,
    message: &D,
) -> u8
    ensures { result ≡ 1 }
{
    report_error(rt, form, spot, message);
    summarize_errors(rt, form, 1);
    UNWRITTEN
}

// Returns the exit status of a scenario that isn't read: 2 if its file can't be opened, else 1.
fn failure_status(why: ReadFailure) -> u8
    ensures status { (result ≡ 1) ⊎ (result ≡ 2) }
    ensures memory { why ≡ NoRoom → result ≡ 1 }
{
    match why {
        ReadFailure::Closed(_) => REFUSED,
        ReadFailure::Broken | ReadFailure::NoMemory => UNWRITTEN,
    }
}
