//! The part of a run that a command prints.
ghost use Rattle.std.specs.Prelude.{◌≡◌, ◌==◌, ◌||◌, is_some, nat_lt, IfErr, IfOk};
ghost use Rattle.cli_runs.specs.RunStatus.{HasStatus, IsUnbooted, start_of};

use crate::accounts::print_accounts;
use cli_base::{Coloring, Printing};
use list_parser::BootFault;
use run_lines::{Sink, Source};
use run_scenario::{ScenarioEnd, ScenarioInput};
use std::alloc::Global;
use view_runs::{AloneComparison, CsvRows, JsonRows, TranscriptOptions, alone, run, trace};

/// The part of a run that a command prints.
#[derive(Clone, Copy)]
pub(crate) enum RunView<'a> {
    /// The transcript, and which streams are coloured.
    Run(TranscriptOptions<'a>, Coloring),
    /// A table of the lines.
    Trace {
        /// Whether the table is printed as documents of JSON, a document a line.
        json: bool,
    },
    /// The accounts after the last line.
    Accounts {
        /// Whether they are printed as documents of JSON, in place of a table.
        json: bool,
    },
    /// The replies to the component of this name, in the whole run and alone.
    Alone(&'a [u8]),
}

impl<'a> RunView<'a> {
    /// Returns when the part is printed: the accounts after the run, and each other part during it.
    pub(crate) fn printing(self) -> Printing {
        match self {
            RunView::Accounts { .. } => Printing::Afterwards,
            _ => Printing::Meanwhile,
        }
    }

    /// Returns which streams are coloured: only a transcript has colours.
    pub(crate) fn coloring(self) -> Coloring {
        match self {
            RunView::Run(_, coloring) => coloring,
            _ => Coloring::NOWHERE,
        }
    }
}

/// Runs a scenario, and writes this part of it. Returns how the run ended: with the errors of its own lines, and one more if a
/// component is asked for that has no line. The error is the fault of the boot.
pub(crate) fn view<S: Source, K: Sink, E: Sink>(
    alloc: Global,
    input: ScenarioInput<'_>,
    viewing: RunView<'_>,
    reader: &mut S,
    writer: &mut K,
    complaints: &mut E,
) -> Result<ScenarioEnd, BootFault>
    ensures status { IfOk result (λ ending. HasStatus viewing.entry
        (start_of viewing.entry input.entry) (S.remaining reader.old) ending) }
    ensures unbooted { IfErr result (IsUnbooted input.entry.list.now) }
{
    match viewing {
        RunView::Run(showing, _) => run(alloc, input, showing, reader, writer, complaints),
        RunView::Trace { json: false } => {
            trace(alloc, input, CsvRows, reader, writer, complaints)
        }
        RunView::Trace { json: true } => {
            let format = JsonRows { alloc };
            trace(alloc, input, format, reader, writer, complaints)
        }
        RunView::Accounts { json } => {
            print_accounts(alloc, input, json, reader, writer, complaints)
        }
        RunView::Alone(name) => {
            Ok(comparison_end(alone(alloc, input, name, reader, writer, complaints)?))
        }
    }
}

// Returns how a comparison ended: with one more error if the component has no line or another reply alone.
fn comparison_end(compared: AloneComparison) -> ScenarioEnd
    ensures fault { result.fault ≡ compared.ending.fault }
    ensures errors { nat_lt 0 result.complaints ≡ (compared.lines == 0
        || is_some compared.difference || nat_lt 0 compared.ending.complaints) }
{
    if compared.lines == 0 || compared.difference.is_some() {
        compared.ending.complained()
    } else {
        compared.ending
    }
}
