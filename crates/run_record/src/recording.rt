//! The recording of a scenario.
ghost use Rattle.std.specs.Prelude.{◌≡◌, ◌≢◌, ◌++◌, ◌∷◌, [], false, IfErr, IfOk, OnOk, Some};
ghost use Rattle.own_model.specs.Listed.{start_list_of};
ghost use Rattle.own_model.specs.StartList.{Boots, entries_of};
ghost use Rattle.list_parser.specs.Quota.{quota_fault};
ghost use Rattle.list_parser.specs.declared.fault.BootFault.TheVariants.{NoMemory};
ghost use Rattle.run_lines.specs.Machine.{world_of};
ghost use Rattle.run_record.specs.Recorded.{recorded};
ghost use Rattle.run_record.specs.LineErrors.{errors_view, recording_errors};

use crate::line_marks::LineMarks;
use crate::recording_error::RecordingError;
use crate::recording_run::RecordingRun;
use init_core::boot;
use line_steps::RunPosition;
use list_parser::{BootFault, StartList};
use run_lines::{Core, Router};
use run_scenario::CallBuffers;
use std::alloc::Global;

/// A scenario that is to be recorded.
#[derive(Clone, Copy)]
pub struct Scenario<'a> {
    /// The text of the scenario.
    pub text: &'a [u8],
    /// The text with its rounds unfolded.
    pub unfolded: &'a [u8],
}

/// A scenario with its replies.
#[derive(Drop)]
pub struct Recording {
    /// The text of the scenario with its replies.
    pub text: Vec<u8>,
    /// The errors of lines that can't be parsed, or aren't understood, one for each step.
    pub errors: Vec<RecordingError>,
}

/// Runs a scenario from its start, and writes its own lines. After each call without an expected reply it writes the reply, and
/// before the call the log lines that the call finishes; with `all` it replaces the expectations of all calls. A line within
/// rounds expects what holds in each round: its reply, or, if replies differ, whether it is refused. If a reply binds a name,
/// the expectation of its line remains. A call whose line can't have an expectation, for example after `!`, or that isn't understood,
/// remains too, and so does every other byte.
/// Fails with the start list's fault if the list doesn't boot, or if the host is out of memory.
#[tactic(auto, using(run_lines::proofs::MachineLemmas::listed_at_start))]
pub fn record(
    alloc: Global,
    list: &StartList,
    scenario: Scenario<'_>,
    start: RunPosition<'_>,
    all: bool,
) -> Result<Recording, BootFault>
    ensures recorded { IfOk result (λ recording. recording.text.items
        ≡ recorded all list.now (world_of list.now) start.entry scenario.entry.unfolded.now
        scenario.entry.text.now) }
    ensures errors { IfOk result (λ recording. errors_view recording.errors.items
        ≡ recording_errors list.now (world_of list.now) start.entry scenario.entry.unfolded.now) }
    ensures boots { OnOk result (Boots (start_list_of list.now)) }
    ensures unbooted { IfErr result (λ fault. fault ≢ NoMemory →
        quota_fault list.now ≡ Some fault) }
{
    let mut core = boot(alloc, list)?;
    record_on(alloc, list, &mut core, scenario, start, all)
}

// Records a scenario on the machine of a list, which has just booted.
fn record_on<R: Router + Drop>(
    alloc: Global,
    list: &StartList,
    core: &mut Core<R>,
    scenario: Scenario<'_>,
    start: RunPosition<'_>,
    all: bool,
) -> Result<Recording, BootFault>
    requires listed { core.old.entries ≡ entries_of (start_list_of list.now) }
    ensures recorded { IfOk result (λ recording. recording.text.items ≡ recorded all list.now core.old start.entry
        scenario.entry.unfolded.now scenario.entry.text.now) }
    ensures errors { IfOk result (λ recording. errors_view recording.errors.items
        ≡ recording_errors list.now core.old start.entry scenario.entry.unfolded.now) }
    ensures fault { IfErr result (λ fault. fault ≡ NoMemory) }
{
    let marks = LineMarks::new(alloc, scenario.text)?;
    let mut buffers = CallBuffers::new(alloc)?;
    let mut player = RecordingRun::new(alloc, marks, start, all);
    player.run_scenario_lines(list, core, scenario.unfolded, &mut buffers)?;
    Ok(player.into_recording()?)
}
