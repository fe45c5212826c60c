//! The command `accounts`: the accounts after a scenario.
ghost use Rattle.std.specs.Prelude.{Bool, IfErr, IfOk};
ghost use Rattle.cli_runs.specs.CommandStatus.{AccountsEnd};
ghost use Rattle.cli_runs.specs.RunStatus.{HasStatus, IsUnbooted, start_of};
ghost use Rattle.cli_runs.specs.declared.view.RunView.TheVariants.{Accounts};

use crate::run_request::{RunRequest, run_chosen};
use crate::view::RunView;
use cli_base::{Host, Settings};
use cli_options::AccountsOptions;
use list_parser::BootFault;
use run_lines::{LineRunFault, Sink, Source, write_out};
use run_scenario::{ScenarioEnd, ScenarioInput};
use std::alloc::{AllocError, Global};
use view_accounts::{AccountList, AccountRows, accounts};

/// Runs a scenario, and prints all accounts at its end. Returns the exit status.
pub fn list_accounts<'a, H: Host>(
    host: &H,
    asked: &'a AccountsOptions<'a>,
    settings: Settings<'a>,
) -> u8
    ensures { AccountsEnd (H.text_at host.now) asked.now settings.entry result }
{
    let viewing = RunView::Accounts { json: asked.json };
    run_chosen(
        host,
        asked.machine,
        RunRequest::whole(asked.scenario, settings, viewing),
    )
}

/// Runs a scenario, and writes its accounts if no fault stops the run: a table, or documents of JSON. Returns how the run ended. The
/// error is the fault of the boot.
pub(crate) fn print_accounts<S: Source, K: Sink, E: Sink>(
    alloc: Global,
    input: ScenarioInput<'_>,
    json: bool,
    reader: &mut S,
    writer: &mut K,
    complaints: &mut E,
) -> Result<ScenarioEnd, BootFault>
    ensures status { (view : Bool) → IfOk result (HasStatus (Accounts view)
        (start_of (Accounts view) input.entry) (S.remaining reader.old)) }
    ensures unbooted { IfErr result (IsUnbooted input.entry.list.now) }
{
    let AccountList { ending, rows } = accounts(alloc, input, reader, writer, complaints)?;
    if ending.fault.is_some() {
        return Ok(ending);
    }
    let Ok(text) = text_of(alloc, rows, json) else {
        return Ok(ending.stopped_by(LineRunFault::NoMemory));
    };
    if write_out(writer, text.as_slice()) < text.len() {
        return Ok(ending.stopped_by(LineRunFault::WriteFault));
    }
    Ok(ending)
}

// Returns the text of an account list.
fn text_of(
    alloc: Global,
    rows: Result<AccountRows, AllocError>,
    json: bool,
) -> Result<Vec<u8>, AllocError> {
    let rows = rows?;
    if json {
        rows.records(alloc)?.to_json()
    } else {
        rows.table(alloc)
    }
}
