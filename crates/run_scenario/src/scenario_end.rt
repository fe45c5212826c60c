//! How the run of a scenario ends.
ghost use Rattle.std.specs.Prelude.{◌≡◌};
ghost use Rattle.run_scenario.specs.ScenarioEnd.{status_of};

use list_parser::BootFault;
use run_lines::LineRunFault;

/// How the run of a scenario ended.
#[derive(Clone, Copy, PartialEq, Eq)]
pub struct ScenarioEnd {
    /// The number of lines that were read.
    pub lines: u64,
    /// The number of errors of lines.
    pub complaints: u64,
    /// The fault that stopped the run before the end of its scenario, if there was one.
    pub fault: Option<LineRunFault>,
}

impl ScenarioEnd {
    ghost use Rattle.std.specs.Prelude.{◌≡◌, ◌+◌, min, Some};
    ghost use Rattle.run_scenario.specs.Faults.{unplayed};

    /// Returns the ending of a run that stopped with this fault before its first line.
    pub fn before_all(fault: LineRunFault) -> ScenarioEnd
        ensures { result ≡ unplayed fault }
    {
        ScenarioEnd {
            lines: 0,
            complaints: 0,
            fault: Some(fault),
        }
    }

    /// Returns the same ending with one more error of a line.
    pub fn complained(self) -> ScenarioEnd
        ensures lines { result.lines ≡ self.lines }
        ensures complaints { result.complaints ≡ min (self.complaints + 1) 18446744073709551615 }
        ensures fault { result.fault ≡ self.fault }
    {
        ScenarioEnd {
            lines: self.lines,
            complaints: self.complaints.saturating_add(1),
            fault: self.fault,
        }
    }

    /// Returns the same ending, with a fault after the last line.
    pub fn stopped_by(self, fault: LineRunFault) -> ScenarioEnd
        ensures { result ≡ record self { fault = Some fault } }
    {
        ScenarioEnd {
            lines: self.lines,
            complaints: self.complaints,
            fault: Some(fault),
        }
    }
}

/// Returns the exit status of a run: 2 if no machine booted, 1 after a fault of the run, 3 after an error of a line, else 0.
pub fn exit_status(ended: &Result<ScenarioEnd, BootFault>) -> u8
    ensures { result ≡ status_of ended.now }
{
    match ended {
        Err(_) => 2,
        Ok(ending) => {
            if ending.fault.is_some() {
                1
            } else if ending.complaints > 0 {
                3
            } else {
                0
            }
        }
    }
}
