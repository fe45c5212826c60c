//! The trace of a scenario: a row of figures for each call.
ghost use Rattle.std.specs.Prelude.{◌≡◌, ◌≢◌, ◌≤◌, ◌++◌, ◌||◌, [], ⊤, false, IfOk, IfErr, IfSome, OnErr, OnOk, IfNone, None, Some};
ghost use Rattle.own_model.specs.Listed.{start_list_of};
ghost use Rattle.own_model.specs.StartList.{Boots, entries_of};
ghost use Rattle.list_parser.specs.Quota.{quota_fault};
ghost use Rattle.list_parser.specs.declared.fault.BootFault.TheVariants.{NoMemory};
ghost use Rattle.run_lines.specs.Causes.{HasCause};
ghost use Rattle.run_scenario.specs.Faults.{fault_before, unplayed};
ghost use Rattle.run_lines.specs.Faults.{is_write_fault};
ghost use Rattle.run_scenario.specs.RunCalls.{text_of_steps};
ghost use Rattle.view_runs.specs.Tracing.{trace_call_text, trace_text};
ghost use Rattle.run_scenario.specs.LineSteps.{steps_of};
ghost use Rattle.run_scenario.specs.RunReports.{WritesAllReports, scope_of};
ghost use Rattle.run_scenario.specs.Writes.{IsRunFrom, nothing_told, start_at, start_on};
ghost use Rattle.run_lines.specs.declared.line_run_fault.LineRunFault.TheVariants.{NoMemory as NoRoom};
ghost use Rattle.view_diagnostics.specs.Diagnostics.{subject_at};

use crate::row_format::RowFormat;
use crate::trace_row::row_of;
use init_core::boot;
use list_parser::{BootFault, StartList};
use run_lines::{Core, LineDispatcher, LineRunFault, MAX_LINES, Router, Sink, Source, WriteBuffer};
use run_scenario::{
    BootedScenario, CallBuffers, CallObserver, ObservedCall, ScenarioEnd, ScenarioInput,
    ScenarioRunner, ScenarioState, play as play_lines,
};
use std::alloc::Global;

/// Observes a run, and gathers the row of each call in a format.
#[derive(Drop)]
pub(crate) struct Tracer<F: RowFormat + Drop> {
    format: F,
}

impl<F: RowFormat + Drop> CallObserver for Tracer<F> {
    ghost tells = { λ _. trace_call_text F.row_text };

    ghost takes = { F.takes };

    ghost sees = { λ _ _ _ _. ⊤ };

    fn tell<R: Router + Drop, K: Sink>(
        &mut self,
        core: &Core<R>,
        list: &StartList,
        heard: &ObservedCall<'_>,
        gathered: &mut WriteBuffer,
        writer: &mut K,
    ) -> Result<(), LineRunFault> {
        let row = row_of(core, list, heard);
        self.format.put_row(&row, gathered, writer)
    }
}

/// Runs a scenario, and writes a row for each answered call in this format. A row has the line, the component, the call, the reply,
/// and use and limit of RAM and of capabilities after it. It also has these of the session that the call names, and the text of the
/// call's bytes. Errors of lines are written as they are found.
///
/// The figures are those of the own state that the call leaves its caller. At a fault the rows of the lines that were run are
/// written, or a part of them from the front if a write failed or the host is out of memory. It stops as `run` does.
#[tactic(auto, using(run_lines::proofs::MachineLemmas::listed_at_start))]
pub fn trace<F: RowFormat + Drop, S: Source, K: Sink, E: Sink>(
    alloc: Global,
    play: ScenarioInput<'_>,
    format: F,
    reader: &mut S,
    writer: &mut K,
    complaints: &mut E,
) -> Result<ScenarioEnd, BootFault>
    ensures played { IfOk result (λ ending. fault_before (S.has_failed reader.old)
        (K.has_failed writer.old || E.has_failed complaints.old) ≡ None →
        IsRunFrom (start_on None play.entry.start play.entry.list.now)
        (trace_text F.front F.row_text play.entry.list.now) nothing_told F.takes
        (WritesAllReports (scope_of (subject_at play.entry.scenario) play.entry.list.now)
        (start_on None play.entry.start play.entry.list.now)
        (E.contents complaints.old) (E.contents complaints.new))
        ending
        (S.remaining reader.old) (S.remaining reader.new)
        (S.has_failed reader.new) (K.contents writer.old) (K.contents writer.new)) }
    ensures few { IfOk result (λ ending. ending.lines ≤ MAX_LINES) }
    ensures writing { IfOk result (λ ending. (K.has_failed writer.new
        || E.has_failed complaints.new) ≡ is_write_fault ending.fault) }
    ensures reading { IfOk result (λ ending.
        IfNone ending.fault (S.has_failed reader.new ≡ false)) }
    ensures ok { IfOk result (λ ending. IfSome ending.fault (λ fault. fault ≢ NoRoom →
        IfSome (S.remaining reader.old) (λ input. HasCause input MAX_LINES
        (S.has_failed reader.new) (K.has_failed writer.new || E.has_failed complaints.new)))) }
    ensures before { IfOk result (λ ending. IfSome (fault_before (S.has_failed reader.old)
        (K.has_failed writer.old || E.has_failed complaints.old)) (λ fault.
        (ending ≡ unplayed fault)
        × (reader.new ≡ reader.old) × (writer.new ≡ writer.old)
        × (complaints.new ≡ complaints.old))) }
    ensures boots { OnOk result (Boots (start_list_of play.entry.list.now)) }
    ensures unbooted { IfErr result (λ fault. fault ≢ NoMemory →
        quota_fault play.entry.list.now ≡ Some fault) }
    ensures untouched { OnErr result
        ((reader.new ≡ reader.old) × (writer.new ≡ writer.old)
        × (complaints.new ≡ complaints.old)) }
{
    let buffers = CallBuffers::new(alloc)?;
    let core = boot(alloc, play.list)?;
    let state = ScenarioState::new(alloc, play.scenario, play.start);
    let run = LineDispatcher {
        list: play.list,
        only: None,
    };
    let stage = BootedScenario {
        run,
        core,
        state,
        buffers,
    };
    Ok(trace_on(stage, format, reader, writer, complaints))
}

// Does the same on a machine that has booted.
fn trace_on<R: Router + Drop, F: RowFormat + Drop, S: Source, K: Sink, E: Sink>(
    stage: BootedScenario<'_, '_, R>,
    format: F,
    reader: &mut S,
    writer: &mut K,
    complaints: &mut E,
) -> ScenarioEnd
    requires listed { stage.core.entries ≡ entries_of (start_list_of stage.run.list.now) }
    requires all { stage.run.only ≡ None }
    ensures played { fault_before (S.has_failed reader.old)
        (K.has_failed writer.old || E.has_failed complaints.old) ≡ None →
        IsRunFrom (start_at stage.entry.run.list.now None stage.entry.core stage.entry.state.position
        stage.entry.state.checker.expected)
        (λ steps. F.front
        ++ text_of_steps (trace_call_text F.row_text stage.entry.core) None [] steps)
        (λ _. [])
        F.takes
        (WritesAllReports
        (scope_of (subject_at stage.entry.state.checker.scenario) stage.entry.run.list.now)
        (start_at stage.entry.run.list.now None stage.entry.core stage.entry.state.position
        stage.entry.state.checker.expected)
        (E.contents complaints.old) (E.contents complaints.new))
        result (S.remaining reader.old) (S.remaining reader.new)
        (S.has_failed reader.new) (K.contents writer.old) (K.contents writer.new) }
    ensures few { result.lines ≤ MAX_LINES }
    ensures writing { (K.has_failed writer.new || E.has_failed complaints.new)
        ≡ is_write_fault result.fault }
    ensures reading { IfNone result.fault (S.has_failed reader.new ≡ false) }
    ensures before { IfSome (fault_before (S.has_failed reader.old)
        (K.has_failed writer.old || E.has_failed complaints.old))
        (λ fault. (result ≡ unplayed fault)
        × (reader.new ≡ reader.old) × (writer.new ≡ writer.old)
        × (complaints.new ≡ complaints.old)) }
{
    let BootedScenario {
        run,
        mut core,
        mut state,
        mut buffers,
    } = stage;
    let header = format.header();
    let mut observer = Tracer { format };
    let mut runner = ScenarioRunner {
        complaints,
        run: &run,
        state: &mut state,
        observer: &mut observer,
        buffers: &mut buffers,
        complained: 0,
    };
    play_lines(&mut runner, &mut core, header, reader, writer)
}
