//! The fault of a start list at its place.
use crate::reports::{Spot, report_error};
use list_review::{FaultSite, PlacedFault};
use view_diagnostics::DiagnosticForm;

/// Prints the fault of a start list as an error at its place.
pub fn tell_fault(rt: &HostRuntime, form: DiagnosticForm, path: &str, fault: &PlacedFault) {
    report_error(rt, form, fault_spot(path, fault), fault);
}

/// Returns the place of a start list's fault: a byte of its text if one is known, else the whole file.
pub fn fault_spot<'a>(path: &'a str, fault: &PlacedFault) -> Spot<'a> {
    match &fault.place {
        FaultSite::Text(line, column, _) => Spot::byte(path, *line as u64, *column),
        _ => Spot::file(path),
    }
}
