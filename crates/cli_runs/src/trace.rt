//! The command `trace`: the table of a scenario's lines.
ghost use Rattle.cli_runs.specs.CommandStatus.{TraceEnds};

use crate::run_request::{RunRequest, run_chosen};
use crate::view::RunView;
use cli_base::{Host, Settings};
use cli_options::TraceOptions;

/// Runs a scenario, and prints a table of its lines. Returns the exit status.
pub fn trace_scenario<'a, H: Host>(
    host: &H,
    asked: &'a TraceOptions<'a>,
    settings: Settings<'a>,
) -> u8
    ensures { TraceEnds (H.text_at host.now) asked.now settings.entry result }
{
    let viewing = RunView::Trace { json: asked.json };
    run_chosen(
        host,
        asked.machine,
        RunRequest::whole(asked.scenario, settings, viewing),
    )
}
