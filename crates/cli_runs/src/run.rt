//! The command `run`: the transcript of a scenario.
ghost use Rattle.std.specs.Prelude.{◌≡◌};
ghost use Rattle.std.specs.Option.{option_copied};
ghost use Rattle.cli_runs.specs.CommandStatus.{IsRunOf, IsTranscript, RunEnds};

use crate::run_request::{NONE_EARLIER, RunRequest, run_chosen};
use crate::view::RunView;
use cli_base::{Coloring, Host, Settings};
use cli_options::RunOptions;
use view_runs::TranscriptOptions;

/// Runs a scenario, and prints its transcript. Returns the exit status.
pub fn run_scenario<'a, H: Host>(
    host: &H,
    asked: &'a RunOptions<'a>,
    settings: Settings<'a>,
    coloring: Coloring,
) -> u8
    ensures { RunEnds (H.text_at host.now) asked.now settings.entry result }
{
    run_chosen(
        host,
        asked.machine,
        transcript_of(asked, settings, coloring),
    )
}

// Returns the run that the options ask for.
fn transcript_of<'a>(
    asked: &'a RunOptions<'a>,
    settings: Settings<'a>,
    coloring: Coloring,
) -> RunRequest<'a>
    ensures { IsRunOf asked.now.scenario.now settings.entry (IsTranscript (option_copied asked.now.only))
        (option_copied asked.now.only) result }
{
    let showing = TranscriptOptions {
        only: bytes_of(asked.only),
        accounts: asked.accounts,
        numbers: asked.numbers,
    };
    RunRequest {
        scenario: asked.scenario,
        settings,
        viewing: RunView::Run(showing, coloring),
        name: asked.only,
        earlier: NONE_EARLIER,
    }
}

// Returns the bytes of a name, if there is one.
fn bytes_of(name: Option<&str>) -> Option<&[u8]>
    ensures { option_copied result ≡ option_copied name.entry }
{
    match name {
        Some(name) => Some(name.as_bytes()),
        None => None,
    }
}
