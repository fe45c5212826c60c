//! The lines of scenarios that neither of two start lists understands.

use crate::diff_runs::RunPair;
use cli_base::{Spot, report_error, summarize_errors};
use line_names::token_at;
use list_diff::{LineOutcome, LineResult, ReplyChange, ResolutionFault};
use std::alloc::{AllocError, Global};
use view_diagnostics::DiagnosticForm;

/// Prints an error for each of these lines, for a line in rounds once, and the number of errors. Fails if the host is out of memory.
pub(crate) fn report_misread(
    rt: &HostRuntime,
    runs: RunPair<'_>,
    misread: &[ReplyChange<'_>],
    form: DiagnosticForm,
) -> Result<(), AllocError> {
    let mut errors = 0u64;
    let mut last = 0;
    for change in misread {
        let (path, line) = match (change.now, change.was) {
            (Some(line), _) => (runs.now.path, line),
            (None, Some(line)) => (runs.was.path, line),
            (None, None) => continue,
        };
        if line.number == last {
            continue;
        }
        last = line.number;
        errors = errors.saturating_add(1);
        let reason = reason_of(rt.alloc(), line)?;
        let message = format_args!("neither start list understands this line: {reason}");
        report_error(rt, form, Spot::line(path, line.number), &message);
    }
    summarize_errors(rt, form, errors);
    Ok(())
}

// Returns why a line isn't understood: the message of its fault, or its reply.
fn reason_of(alloc: Global, line: LineResult<'_>) -> Result<String, AllocError> {
    match line.outcome {
        LineOutcome::Answered(exchange) => String::from_utf8_lossy(alloc, exchange.answer().text),
        LineOutcome::Silent => Ok(String::new(alloc)),
        LineOutcome::Faulty(ResolutionFault::TooLong) => {
            String::from_str(alloc, "line of more than 8192 bytes")
        }
        LineOutcome::Faulty(ResolutionFault::Misplaced(why)) => {
            String::from_str(alloc, why.words())
        }
        LineOutcome::Faulty(ResolutionFault::Name(fault)) => {
            let token = String::from_utf8_lossy(alloc, token_at(line.line, fault.column))?;
            fault.reason.about(token.as_str()).to_string(alloc)
        }
        LineOutcome::Faulty(ResolutionFault::Line(fault)) => {
            let token = String::from_utf8_lossy(alloc, token_at(line.line, fault.column))?;
            fault.reason.about(token.as_str()).to_string(alloc)
        }
    }
}
