//! A scenario on a machine that has booted.

use crate::line_step::CallBuffers;
use crate::scenario_state::ScenarioState;
use run_lines::{Core, LineDispatcher, Router};

/// A machine that has booted, the run on it, and the state of the run.
#[derive(Drop)]
pub struct BootedScenario<'l, 's, R: Router + Drop> {
    /// The start list, and the name whose lines are answered, if not all are.
    pub run: LineDispatcher<'l>,
    /// The machine.
    pub core: Core<R>,
    /// The state of the run between two lines.
    pub state: ScenarioState<'s>,
    /// Buffers for a line and a reply.
    pub buffers: CallBuffers,
}
