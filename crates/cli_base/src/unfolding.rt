//! Scenarios with their rounds unfolded.
ghost use Rattle.std.specs.Prelude.{◌≡◌, ◌⊎◌, IfErr, IfOk, Ok};
ghost use Rattle.line_rounds.specs.Views.{whole_view};
ghost use Rattle.cli_base.specs.Unfolding.{HasRoundsFault, rounds_of};

use crate::lines::LineStarts;
use crate::reports::{Spot, report_error, summarize_errors};
use crate::settings::Settings;
use crate::status::{made_or_status, no_memory};
use line_names::token_at;
use line_rounds::{RoundsFault, UnfoldError, UnfoldedText, unfold};
use std::alloc::AllocError;
use view_diagnostics::DiagnosticForm;

// The exit status of a scenario whose rounds can't be unfolded.
const UNUNFOLDED: u8 = 3;

/// Unfolds the rounds of a scenario's text. Prints a fault of the rounds and returns the exit status 3. If the host is out of
/// memory, prints that and returns the exit status 1.
#[tactic(auto, unfolding(crate::specs::Unfolding::rounds_of))]
pub fn unfolded<'a>(
    rt: &HostRuntime,
    scenario: &str,
    text: &'a [u8],
    settings: Settings<'_>,
) -> Result<UnfoldedText<'a>, u8>
    ensures lines { IfOk result (λ lines. rounds_of settings.entry text.now ≡ Ok (whole_view lines)) }
    ensures failed { IfErr result (λ status. (status ≡ 1) ⊎ (status ≡ 3)) }
    ensures fault { IfErr result (λ status. status ≡ 3 → HasRoundsFault settings.entry text.now) }
{
    let known = settings.known_or_status(rt)?;
    match unfold(rt.alloc(), text, known) {
        Ok(unfolded) => Ok(unfolded),
        Err(UnfoldError::Fault(fault)) => {
            let told = tell_rounds(rt, settings.form, scenario, text, fault);
            made_or_status(rt, told)?;
            Err(UNUNFOLDED)
        }
        Err(UnfoldError::NoMemory) => Err(no_memory(rt)),
    }
}

// Prints the fault of a scenario's rounds, and the number of errors.
fn tell_rounds(
    rt: &HostRuntime,
    form: DiagnosticForm,
    scenario: &str,
    text: &[u8],
    fault: RoundsFault,
) -> Result<(), AllocError> {
    let token = rounds_token(rt, text, fault)?;
    let message = fault.reason.about(token.as_str());
    report_error(rt, form, rounds_spot(scenario, fault), &message);
    summarize_errors(rt, form, 1);
    Ok(())
}

/// Returns the place of the fault of a scenario's rounds.
pub fn rounds_spot(scenario: &str, fault: RoundsFault) -> Spot<'_> {
    Spot::byte(scenario, fault.at.line as u64, fault.at.column)
}

/// Returns the token of a scenario's text at which its rounds have a fault. The error is out of memory.
pub fn rounds_token(
    rt: &HostRuntime,
    text: &[u8],
    fault: RoundsFault,
) -> Result<String, AllocError> {
    let lines = LineStarts::of(rt, text)?;
    let line = lines.line(fault.at.line as u64);
    String::from_utf8_lossy(rt.alloc(), token_at(line, fault.at.column))
}
