//! The start list of a scenario's machine.
ghost use Rattle.std.specs.Prelude.{◌≡◌, IfErr, IfOk};
ghost use Rattle.std.specs.Option.{option_map};
ghost use Rattle.cli_base.specs.MachineChoice.{IsChosen, IsUnnamed, list_path};

use crate::host::Host;
use crate::paths::{is_scenario, machine_path};
use crate::reports::{Spot, report};
use crate::status::no_memory;
use view_diagnostics::{DiagnosticForm, Severity};

/// The start list of the machine on which a command runs a scenario.
#[derive(Drop)]
pub enum MachineChoice<'a> {
    /// The list that the command line names.
    Named(&'a str),
    /// The list next to the scenario, with its name.
    NextTo(String),
    /// The list of the built-in machine.
    BuiltIn,
}

impl<'a> MachineChoice<'a> {
    /// Chooses the list that the command line names. Without one chooses `NAME.json` next to `NAME.scenario` if there is such a file,
    /// and prints a note that names it, else the list of the built-in machine. If the host is out of memory, prints so and returns the
    /// exit status.
    pub fn of<H: Host>(
        host: &H,
        form: DiagnosticForm,
        named: Option<&'a str>,
        scenario: &str,
    ) -> Result<MachineChoice<'a>, u8>
        ensures chosen { IfOk result (IsChosen (H.text_at host.now) named.entry scenario.now) }
        ensures failed { IfErr result (λ status. status ≡ 1) }
    {
        match named {
            Some(list) => Ok(MachineChoice::Named(list)),
            None => MachineChoice::unnamed(host, form, scenario),
        }
    }

    // Chooses the list next to a scenario and prints a note, or the list of the built-in machine. The error is the exit status.
    fn unnamed<H: Host>(
        host: &H,
        form: DiagnosticForm,
        scenario: &str,
    ) -> Result<MachineChoice<'a>, u8>
        ensures chosen { IfOk result (IsUnnamed (H.text_at host.now) scenario.now) }
        ensures failed { IfErr result (λ status. status ≡ 1) }
    {
        if !is_scenario(scenario) {
            return Ok(MachineChoice::BuiltIn);
        }
        let rt = host.rt();
        let Ok(list) = machine_path(rt.alloc(), scenario) else {
            return Err(no_memory(rt));
        };
        if let Ok(false) = host.exists(list.as_str()) {
            return Ok(MachineChoice::BuiltIn);
        }
        let note = "the start list next to the scenario is used";
        report(rt, form, Severity::Note, Spot::file(list.as_str()), &note);
        Ok(MachineChoice::NextTo(list))
    }

    /// Returns the path of the list, or none for the built-in machine.
    pub fn path(&self) -> Option<&str>
        ensures { option_map (λ path. path.now) result ≡ list_path self.now }
    {
        match self {
            MachineChoice::Named(list) => Some(list),
            MachineChoice::NextTo(list) => Some(list.as_str()),
            MachineChoice::BuiltIn => None,
        }
    }
}
