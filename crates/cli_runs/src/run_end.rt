//! How a run over files and the standard streams ended.

use cli_base::{StopMessage, UNREAD, boot_status, report_error, spot_of, summarize};
use list_parser::BootFault;
use run_lines::LineRunFault;
use run_scenario::{ScenarioEnd, exit_status};
use view_diagnostics::{Counts, DiagnosticForm};

/// The end of a run, and whether nobody reads what is written.
#[derive(Drop)]
pub(crate) struct RunEnd {
    /// The ending of the run, or the fault of the boot.
    pub(crate) ended: Result<ScenarioEnd, BootFault>,
    /// Whether a write failed because its pipe is closed.
    pub(crate) unread: bool,
}

impl RunEnd {
    ghost use Rattle.std.specs.Prelude.{◌≡◌, ◌&&◌};
    ghost use Rattle.cli_runs.specs.RunEnd.{end_status, run_status, write_failed};

    /// Prints the fault of a scenario of this path, if there is one. Prints the numbers of errors and warnings too: `earlier` ones,
    /// the fault and the scenario's own. Returns the exit status.
    pub(crate) fn report(
        &self,
        rt: &HostRuntime,
        form: DiagnosticForm,
        scenario: &str,
        earlier: Counts,
    ) -> u8
        ensures { result ≡ end_status self.now.ended self.now.unread }
    {
        let status = self.report_fault(rt, form, scenario);
        if let Ok(ending) = &self.ended {
            if status != UNREAD {
                let stopped = u64::from(ending.fault.is_some());
                let errors = earlier.errors.saturating_add(stopped);
                let counts = Counts {
                    errors: ending.complaints.saturating_add(errors),
                    ..earlier
                };
                summarize(rt, form, counts);
            }
        }
        status
    }

    /// Prints the fault of a scenario of this path, if there is one. Returns the exit status.
    pub(crate) fn report_fault(&self, rt: &HostRuntime, form: DiagnosticForm, scenario: &str) -> u8
        ensures { result ≡ end_status self.now.ended self.now.unread }
    {
        if self.is_unread() {
            return UNREAD;
        }
        if let Ok(ending) = &self.ended {
            if let Some(fault) = ending.fault {
                let spot = spot_of(scenario, ending.lines, fault);
                report_error(rt, form, spot, &StopMessage(fault));
            }
        }
        self.run_status()
    }

    // Returns the exit status of the run: for a list that doesn't boot 1 if the host is out of memory, else 2.
    fn run_status(&self) -> u8
        ensures { result ≡ run_status self.now.ended }
    {
        match &self.ended {
            Ok(_) => exit_status(&self.ended),
            Err(fault) => boot_status(fault),
        }
    }

    // Returns whether a write failed because nobody reads what is written.
    fn is_unread(&self) -> bool
        ensures { result ≡ (self.now.unread && write_failed self.now.ended) }
    {
        self.unread && self.has_failed_write()
    }

    // Returns whether a write failed.
    fn has_failed_write(&self) -> bool
        ensures { result ≡ write_failed self.now.ended }
    {
        match &self.ended {
            Ok(ending) => matches!(ending.fault, Some(LineRunFault::WriteFault)),
            Err(_) => false,
        }
    }
}
