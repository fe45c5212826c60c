//! Start lists, read from their files with the values of their names.
ghost use Rattle.std.specs.Prelude.{◌≡◌, ◌⊎◌, false, IfErr, IfOk, Ok};
ghost use Rattle.list_parser.specs.declared.fault.BootFault.TheVariants.{NoMemory as NoRoom};
ghost use Rattle.cli_base.specs.Files.{HasNoList, IsNoList, list_filled};
ghost use Rattle.cli_base.specs.ListFailures.{kind_lacks_memory, lacks_memory};
ghost use Rattle.cli_base.specs.MachineTexts.{IsFilled};

use crate::files::read_list;
use crate::host::{Host, ReadFailure};
use crate::lines::LineStarts;
use crate::list_fault::fault_spot;
use crate::reports::{Spot, report_error};
use crate::settings::Settings;
use crate::status::{REFUSED, UNWRITTEN};
use line_names::{Unfilled, UnknownName, fill_list, token_at};
use list_parser::BootFault;
use list_review::{FaultSite, PlacedFault, Review};
use std::alloc::AllocError;
use std::fmt;

/// The reason for which there is no start list, and the path that the message is about.
#[derive(Drop)]
pub struct StartListFailure<'a> {
    path: &'a str,
    why: ListFailureKind,
}

#[derive(Drop)]
enum ListFailureKind {
    ReadFailure(ReadFailure),
    // A name without a value, and its text.
    Unfilled(UnknownName, String),
    // The fault of a file's list.
    Faulty(PlacedFault),
    // The fault of the built-in machine's boot.
    Unbooted(BootFault),
}

impl ListFailureKind {
    ghost use Rattle.std.specs.Prelude.{◌≡◌};
    ghost use Rattle.cli_base.specs.ListFailures.{kind_lacks_memory};

    // Returns whether the host is out of memory.
    fn lacks_memory(&self) -> bool
        ensures { result ≡ kind_lacks_memory self.now }
    {
        match self {
            ListFailureKind::ReadFailure(why) => matches!(why, ReadFailure::NoMemory),
            ListFailureKind::Unfilled(_, _) => false,
            ListFailureKind::Faulty(placed) => matches!(&placed.fault, BootFault::NoMemory),
            ListFailureKind::Unbooted(fault) => matches!(fault, BootFault::NoMemory),
        }
    }
}

impl<'a> StartListFailure<'a> {
    ghost use Rattle.std.specs.Prelude.{◌≡◌, ◌≢◌, if◌then◌else◌};
    ghost use Rattle.list_parser.specs.declared.fault.BootFault.TheVariants.{NoMemory};
    ghost use Rattle.cli_base.specs.ListFailures.{lacks_memory};

    /// Returns the failure of a text with this boot fault: with its place for a file's text, and without for the built-in
    /// machine's.
    pub(crate) fn of_fault(
        rt: &HostRuntime,
        path: Option<&'a str>,
        text: &[u8],
        fault: BootFault,
    ) -> StartListFailure<'a>
        ensures { lacks_memory result ≡ false → fault ≢ NoMemory }
    {
        match path {
            Some(path) => StartListFailure {
                path,
                why: ListFailureKind::Faulty(placed_fault(rt, text, fault)),
            },
            None => StartListFailure {
                path: "",
                why: ListFailureKind::Unbooted(fault),
            },
        }
    }

    /// Returns the exit status: 1 if the host is out of memory, and else 2.
    pub fn exit_status(&self) -> u8
        ensures { result ≡ (if lacks_memory self.now then 1 else 2) }
    {
        if self.why.lacks_memory() {
            UNWRITTEN
        } else {
            REFUSED
        }
    }

    /// Returns the place that the message is about: a byte of the list, the whole file, or no file.
    pub fn spot(&self) -> Spot<'a> {
        match &self.why {
            ListFailureKind::ReadFailure(_) | ListFailureKind::Unbooted(_) => Spot::nowhere(),
            ListFailureKind::Unfilled(name, _) => Spot::byte(
                self.path,
                name.line as u64,
                name.column,
            ),
            ListFailureKind::Faulty(fault) => fault_spot(self.path, fault),
        }
    }
}

/// Writes the message that people read.
impl fmt::Display for StartListFailure<'_> {
    fn fmt<W: fmt::Write>(&self, f: &mut fmt::Formatter<W>) -> fmt::Result {
        match &self.why {
            ListFailureKind::ReadFailure(why) => write!(f, "{}", why.about(self.path)),
            ListFailureKind::Unfilled(_, name) => write!(f, "unknown name `{name}`"),
            ListFailureKind::Faulty(fault) => write!(f, "{fault}"),
            ListFailureKind::Unbooted(fault) => write!(f, "boot: {fault}"),
        }
    }
}

// Returns the fault of a text that is no start list, with its place. If the host is out of memory, the fault has no place.
fn placed_fault(rt: &HostRuntime, text: &[u8], fault: BootFault) -> PlacedFault
    ensures { fault ≡ NoRoom → result.fault ≡ NoRoom }
{
    if !matches!(&fault, BootFault::NoMemory) {
        if let Err(placed) = Review::read(rt.alloc(), text) {
            return placed;
        }
    }
    PlacedFault {
        fault,
        place: FaultSite::Nowhere,
    }
}

/// Reads a start list and fills in the values of its names. If that fails, prints why and returns the exit status: 1 if the host
/// is out of memory, else 2.
pub fn start_list<H: Host>(host: &H, path: &str, settings: Settings<'_>) -> Result<Vec<u8>, u8>
    ensures text { IfOk result (λ text.
        IsFilled (H.text_at host.now) settings.entry path.now text.items) }
    ensures failed { IfErr result (λ status. (status ≡ 1)
        ⊎ (status ≡ 2) × HasNoList (H.text_at host.now) settings.entry path.now) }
{
    match filled_list(host, path, settings) {
        Ok(text) => Ok(text),
        Err(fault) => {
            report_error(host.rt(), settings.form, fault.spot(), &fault);
            Err(fault.exit_status())
        }
    }
}

/// Reads a start list and fills in the values of its names. Errors: the file can't be read, the host is out of memory, a name
/// has no value.
pub(crate) fn filled_list<'a, H: Host>(
    host: &H,
    path: &'a str,
    settings: Settings<'_>,
) -> Result<Vec<u8>, StartListFailure<'a>>
    ensures text { IfOk result (λ text.
        IsFilled (H.text_at host.now) settings.entry path.now text.items) }
    ensures failed { IfErr result (λ failure. lacks_memory failure ≡ false
        → HasNoList (H.text_at host.now) settings.entry path.now) }
{
    match fill_file(host, path, settings) {
        Ok(text) => Ok(text),
        Err(why) => Err(StartListFailure { path, why }),
    }
}

// Fills a start list as `filled_list` does, and returns errors without the path.
fn fill_file<H: Host>(
    host: &H,
    path: &str,
    settings: Settings<'_>,
) -> Result<Vec<u8>, ListFailureKind>
    ensures text { IfOk result (λ text.
        IsFilled (H.text_at host.now) settings.entry path.now text.items) }
    ensures failed { IfErr result (λ why. kind_lacks_memory why ≡ false
        → HasNoList (H.text_at host.now) settings.entry path.now) }
{
    match read_list(host, path) {
        Ok(text) => fill_text(host.rt(), &text, settings),
        Err(why) => Err(ListFailureKind::ReadFailure(why)),
    }
}

// Fills the text of a start list. Errors: a name has no value, the host is out of memory.
fn fill_text(
    rt: &HostRuntime,
    text: &[u8],
    settings: Settings<'_>,
) -> Result<Vec<u8>, ListFailureKind>
    ensures text { IfOk result (λ filled. list_filled settings.entry text.now ≡ Ok filled.items) }
    ensures failed { IfErr result (λ why. kind_lacks_memory why ≡ false
        → IsNoList (list_filled settings.entry text.now)) }
{
    let Ok(known) = settings.known(rt.alloc()) else {
        return Err(ListFailureKind::ReadFailure(ReadFailure::NoMemory));
    };
    match fill_list(rt.alloc(), text, &known) {
        Ok(filled) => Ok(filled),
        Err(Unfilled::Unknown(name)) => Err(unfilled(rt, text, name)),
        Err(Unfilled::NoMemory) => Err(ListFailureKind::ReadFailure(ReadFailure::NoMemory)),
    }
}

// Returns the failure of a text in which this name has no value.
fn unfilled(rt: &HostRuntime, text: &[u8], name: UnknownName) -> ListFailureKind {
    match name_in(rt, text, name) {
        Ok(token) => ListFailureKind::Unfilled(name, token),
        Err(AllocError) => ListFailureKind::ReadFailure(ReadFailure::NoMemory),
    }
}

// Returns the token of a name in a text.
fn name_in(rt: &HostRuntime, text: &[u8], name: UnknownName) -> Result<String, AllocError> {
    let lines = LineStarts::of(rt, text)?;
    let line = lines.line(name.line as u64);
    String::from_utf8_lossy(rt.alloc(), token_at(line, name.column))
}
