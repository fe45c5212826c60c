//! Machines: those of start lists, and the built-in one.
ghost use Rattle.std.specs.Prelude.{◌≡◌, Ok};
ghost use Rattle.list_parser.specs.StartText.{list_in};
ghost use Rattle.cli_base.specs.Statuses.{boot_status};
ghost use Rattle.cli_base.specs.Texts.{bytes_of};

use crate::host::Host;
use crate::list_fault::tell_fault;
use crate::list_file::{StartListFailure, filled_list};
use crate::reports::{Spot, report_error};
use crate::settings::Settings;
use crate::status::boot_status;
use list_parser::{BootFault, MACHINE_A, StartList, machine_a_is_read};
use list_review::Review;
use view_diagnostics::DiagnosticForm;

/// A machine: the path of its start list, none for the built-in machine, with the text and the list that is parsed from it.
#[derive(Drop)]
pub struct Machine<'a> {
    path: Option<&'a str>,
    text: MachineText,
    list: StartList,
    ghost reads: { list_in (bytes_of text) ≡ Ok list },
}

// The text of a start list.
#[derive(Drop)]
enum MachineText {
    // That of the built-in machine.
    BuiltIn(&'static str),
    // That of a file, with the values of its names.
    Read(Vec<u8>),
}

impl MachineText {
    // Its bytes.
    fn bytes(&self) -> &[u8]
        ensures { result.now ≡ bytes_of self.now }
    {
        match self {
            MachineText::BuiltIn(text) => text.as_bytes(),
            MachineText::Read(text) => text,
        }
    }
}

impl<'a> Machine<'a> {
    ghost use Rattle.std.specs.Prelude.{◌≡◌, ◌≢◌, ◌⊎◌, false, is_err, true, IfErr, IfOk, Ok};
    ghost use Rattle.std.specs.Option.{option_copied};
    ghost use Rattle.list_parser.specs.StartText.{list_in};
    ghost use Rattle.cli_base.specs.ListFailures.{lacks_memory};
    ghost use Rattle.cli_base.specs.MachineTexts.{IsMachineOf, LacksList};
    ghost use Rattle.cli_base.specs.Texts.{bytes_of};

    /// Reads the machine of a start list's path, or the built-in machine if there is no path. Returns why the list can't be read
    /// otherwise.
    pub fn find<H: Host>(
        host: &H,
        path: Option<&'a str>,
        settings: Settings<'_>,
    ) -> Result<Machine<'a>, StartListFailure<'a>>
        ensures found { IfOk result
            (IsMachineOf (H.text_at host.now) settings.entry (option_copied path.entry)) }
        ensures failed { IfErr result (λ failure. lacks_memory failure ≡ false
            → LacksList (H.text_at host.now) settings.entry (option_copied path.entry)) }
    {
        let Some(file) = path else {
            machine_a_is_read();
            return Machine::of_text(host.rt(), None, MachineText::BuiltIn(MACHINE_A));
        };
        match filled_list(host, file, settings) {
            Ok(text) => Machine::of_text(host.rt(), path, MachineText::Read(text)),
            Err(fault) => Err(fault),
        }
    }

    // Parses the machine of a start list's text. Returns the list's fault if there is one.
    fn of_text(
        rt: &HostRuntime,
        path: Option<&'a str>,
        text: MachineText,
    ) -> Result<Machine<'a>, StartListFailure<'a>>
        ensures named { IfOk result (λ machine. option_copied machine.path ≡ option_copied path.entry) }
        ensures text { IfOk result (λ machine. machine.text ≡ text) }
        ensures failed { IfErr result
            (λ failure. lacks_memory failure ≡ false → is_err (list_in (bytes_of text)) ≡ true) }
    {
        match StartList::read(rt.alloc(), text.bytes()) {
            Ok(list) => Ok(Machine { path, text, list }),
            Err(fault) => Err(StartListFailure::of_fault(rt, path, text.bytes(), fault)),
        }
    }

    /// Reads a machine as `find` does. If that fails, prints why and returns the exit status: 1 if the host is out of memory, else 2.
    pub fn read<H: Host>(
        host: &H,
        path: Option<&'a str>,
        settings: Settings<'_>,
    ) -> Result<Machine<'a>, u8>
        ensures found { IfOk result
            (IsMachineOf (H.text_at host.now) settings.entry (option_copied path.entry)) }
        ensures failed { IfErr result (λ status. (status ≡ 1)
            ⊎ (status ≡ 2) × LacksList (H.text_at host.now) settings.entry (option_copied path.entry)) }
    {
        match Machine::find(host, path, settings) {
            Ok(machine) => Ok(machine),
            Err(fault) => {
                report_error(host.rt(), settings.form, fault.spot(), &fault);
                Err(fault.exit_status())
            }
        }
    }

    /// Returns the path of the machine's start list, or none for the built-in machine.
    pub fn path(&self) -> Option<&'a str> {
        self.path
    }

    /// Returns the text of its start list.
    pub fn text(&self) -> &[u8]
        ensures { result.now ≡ bytes_of self.now.text }
    {
        self.text.bytes()
    }

    /// Returns its start list, which is the one that its text is.
    pub fn list(&self) -> &StartList
        ensures { list_in (bytes_of self.now.text) ≡ Ok result.now }
    {
        &self.list
    }
}

/// Prints why no machine was booted, at the place in its start list if that is a file's. Returns the exit status: 1 if the host is
/// out of memory, else 2.
pub fn report_boot_fault(
    rt: &HostRuntime,
    form: DiagnosticForm,
    machine: &Machine<'_>,
    fault: &BootFault,
) -> u8
    ensures { result ≡ boot_status fault.now }
{
    let status = boot_status(fault);
    if let Some(path) = machine.path() {
        if let Err(placed) = Review::read(rt.alloc(), machine.text()) {
            tell_fault(rt, form, path, &placed);
            return status;
        }
    }
    report_error(rt, form, Spot::nowhere(), &format_args!("boot: {fault}"));
    status
}
