//! The run of a scenario: lines in the friendly form are read, answered, reported and checked.
ghost use Rattle.std.specs.Prelude.{◌≡◌, ◌≤◌, ◌||◌, [], IfSome, IfNone, None, false, is_some};
ghost use Rattle.std.specs.Io.KnownBytes.{Appends};
ghost use Rattle.std.specs.Option.{option_copied};
ghost use Rattle.own_model.specs.Listed.{start_list_of};
ghost use Rattle.own_model.specs.StartList.{entries_of};
ghost use Rattle.run_lines.specs.Faults.{is_write_fault};
ghost use Rattle.run_scenario.specs.Faults.{fault_before, unplayed};
ghost use Rattle.run_scenario.specs.Reports.{left_over_report};
ghost use Rattle.run_scenario.specs.RunReports.{WritesAllReports, scope_of};
ghost use Rattle.run_scenario.specs.ScenarioRuns.{ClosesAs, CountsErrors, CountsOne, RunsAll, tally};
ghost use Rattle.run_scenario.specs.Writes.{start_at};
ghost use Rattle.view_diagnostics.specs.Diagnostics.{subject_at};

use crate::call_observer::CallObserver;
use crate::reply_checker::ReplyChecker;
use crate::scenario_end::ScenarioEnd;
use crate::scenario_runner::{ScenarioRunner, count};
use run_lines::{Buffers, Core, DeviceFault, LineRunFault, MAX_LINES, Router, Sink, Source};

/// Runs each line of a scenario, at most `MAX_LINES`, after writing `front`: answers its call, reports it to the observer, and
/// compares it with its expectation. All output is written before each read, and at the end. A device that has failed isn't used
/// again. If one had failed before, the fault of the outputs is returned first, then that of the reader.
pub fn play<R: Router + Drop, W: CallObserver, S: Source, K: Sink, E: Sink>(
    runner: &mut ScenarioRunner<'_, '_, '_, '_, '_, '_, '_, W, E>,
    core: &mut Core<R>,
    front: &[u8],
    reader: &mut S,
    writer: &mut K,
) -> ScenarioEnd
    requires listed { core.old.entries ≡ entries_of (start_list_of runner.old.run.now.list.now) }
    requires sees { W.sees runner.old.observer.now runner.old.run.now.list.now core.old [] }
    ensures plays { fault_before (S.has_failed reader.old)
        (K.has_failed writer.old || E.has_failed runner.old.complaints.now) ≡ None →
        RunsAll (W.tells runner.old.observer.now core.old) W.takes
        (W.sees runner.new.observer.now runner.old.run.now.list.now core.old)
        (CountsErrors runner.old.run.now.list.now (option_copied runner.old.run.now.only) core.old
        (tally runner.old.complained runner.old.state.now.checker.expected) result.complaints)
        (WritesAllReports
        (scope_of (subject_at runner.old.state.now.checker.scenario) runner.old.run.now.list.now)
        (start_at runner.old.run.now.list.now (option_copied runner.old.run.now.only) core.old runner.old.state.now.position
        runner.old.state.now.checker.expected)
        (E.contents runner.old.complaints.now) (E.contents runner.new.complaints.now))
        (option_copied runner.old.run.now.only) runner.old.state.now.position result.fault result.lines core.old
        core.new front.now
        (S.remaining reader.old) (S.remaining reader.new) (S.has_failed reader.new)
        (K.contents writer.old) (K.contents writer.new) }
    ensures same_reference { runner.new.complaints.ghost_name ≡ runner.old.complaints.ghost_name }
    ensures held { W.holds runner.new.observer.now ≡ W.holds runner.old.observer.now }
    ensures few { result.lines ≤ MAX_LINES }
    ensures listed { core.new.entries ≡ core.old.entries }
    ensures writing { (K.has_failed writer.new || E.has_failed runner.new.complaints.now)
        ≡ is_write_fault result.fault }
    ensures reading { IfNone result.fault (S.has_failed reader.new ≡ false) }
    ensures before { IfSome (fault_before (S.has_failed reader.old)
        (K.has_failed writer.old || E.has_failed runner.old.complaints.now))
        (λ fault. (result ≡ unplayed fault)
        × (reader.new ≡ reader.old) × (writer.new ≡ writer.old)
        × (runner.new.complaints.now ≡ runner.old.complaints.now)) }
{
    if let Some(fault) = failed_before(reader, writer, &*runner.complaints) {
        return ScenarioEnd::before_all(fault);
    }
    let mut buffers = Buffers::new();
    match buffers.gathered.put(writer, front) {
        Ok(()) => {}
        Err(DeviceFault) => {
            return ScenarioEnd {
                lines: 0,
                complaints: 0,
                fault: Some(LineRunFault::WriteFault),
            };
        }
    }
    let played = run_lines::play(runner, core, &mut buffers, reader, writer, MAX_LINES);
    let checker = &mut runner.state.checker;
    let fault = close(
        checker,
        played.fault,
        &mut runner.complained,
        runner.complaints,
    );
    ScenarioEnd {
        lines: played.lines,
        complaints: runner.complained,
        fault,
    }
}

// Returns the fault of a run on devices one of which had failed before.
fn failed_before<S: Source, K: Sink, E: Sink>(
    reader: &S,
    writer: &K,
    complaints: &E,
) -> Option<LineRunFault>
    ensures { result ≡ fault_before (S.has_failed reader.now)
        (K.has_failed writer.now || E.has_failed complaints.now) }
{
    if writer.failed() || complaints.failed() {
        Some(LineRunFault::WriteFault)
    } else if reader.failed() {
        Some(LineRunFault::ReadFault)
    } else {
        None
    }
}

// Writes an error for an expected log line without a call after it, if the run ended without a fault.
fn close<E: Sink>(
    checker: &mut ReplyChecker<'_>,
    fault: Option<LineRunFault>,
    complained: &mut u64,
    complaints: &mut E,
) -> Option<LineRunFault>
    requires works { IfNone fault (E.has_failed complaints.old ≡ false) }
    ensures closes { ClosesAs fault result (E.has_failed complaints.old) (E.has_failed complaints.new) }
    ensures counts { IfNone result
        (CountsOne (is_some checker.old.expected.first) complained.old complained.new) }
    ensures reports { IfNone result (Appends (E.contents complaints.old) (E.contents complaints.new)
        (left_over_report (subject_at checker.old.scenario) checker.old.expected)) }
{
    match fault {
        Some(fault) => Some(fault),
        None => count(complained, checker.report_left_over(complaints)).err(),
    }
}
