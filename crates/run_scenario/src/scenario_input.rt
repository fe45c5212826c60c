//! The input of a run: a machine and its scenario.

use line_steps::RunPosition;
use list_parser::StartList;
use view_diagnostics::Subject;

/// A machine, and the scenario that is run on it.
#[derive(Drop)]
pub struct ScenarioInput<'a> {
    /// The machine's start list.
    pub list: &'a StartList,
    /// The scenario's path, and the form of diagnostics about it.
    pub scenario: Subject<'a>,
    /// The position before the first line, with the names that the command sets.
    pub start: RunPosition<'a>,
}
