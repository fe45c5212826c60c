//! Runs scenarios in the friendly form.
ghost use Rattle.std.specs.Prelude.{◌≡◌, ◌≤◌, ◌||◌, [], IfOk, OnOk, false, length};
ghost use Rattle.std.specs.Option.{option_copied};
ghost use Rattle.own_model.specs.Listed.{start_list_of};
ghost use Rattle.own_model.specs.StartList.{entries_of};
ghost use Rattle.line_grammar.specs.Read.{Reads};
ghost use Rattle.line_friendly.specs.Theorems.{IsBare, IsPlain};
ghost use Rattle.run_lines.specs.Next.{OutputsWork};
ghost use Rattle.run_scenario.specs.RunCalls.{text_of_steps};
ghost use Rattle.run_scenario.specs.ScenarioRuns.{CountsOne, LeadsSteps, RunsLine, Remains, StopsSteps, counted, point, tally};
ghost use Rattle.run_scenario.specs.LineSteps.{is_meant_line, resolved_at, steps_of};
ghost use Rattle.run_scenario.specs.RunReports.{ReportsLine, WritesReports, scope_of};
ghost use Rattle.run_scenario.specs.Writes.{start_at};
ghost use Rattle.view_diagnostics.specs.Diagnostics.{subject_at};
ghost use Rattle.line_steps.specs.ResolvedLines.{is_skipped};

use crate::call_observer::CallObserver;
use crate::line_step::{CallBuffers, LineStep, answer_plain, report_call, take_step};
use crate::scenario_state::ScenarioState;
use line_friendly::plain_call;
use line_steps::{ResolvedLine, is_skipped};
use run_lines::{
    Core, LONGEST_LINE, LineDispatcher, LineHandler, LineRunFault, NamedCall, Router, Sink,
    WriteBuffer,
};

/// Runs lines of the friendly form: answers each call, reports it to an observer, and compares it with its expectation.
pub struct ScenarioRunner<'e, 'r, 'l, 'n, 's, 'w, 'o, W: CallObserver, E: Sink> {
    /// The sink to which errors of lines are written.
    pub complaints: &'e mut E,
    /// The start list, and the name whose lines are answered, if not all are.
    pub run: &'r LineDispatcher<'l>,
    /// The state of the run between two lines.
    pub state: &'n mut ScenarioState<'s>,
    /// The observer of each call.
    pub observer: &'w mut W,
    /// Buffers for a line and a reply.
    pub buffers: &'o mut CallBuffers,
    /// The number of errors of lines so far.
    pub complained: u64,
}

impl<W: CallObserver, E: Sink> Drop for ScenarioRunner<'_, '_, '_, '_, '_, '_, '_, W, E> {
    // The sink of errors is returned unchanged.
    fn drop(self)
        ensures { self.exit.0.now ≡ self.entry.complaints.now }
    {
        let ScenarioRunner {
            complaints: _complaints,
            run: _run,
            state: _notes,
            observer: _watch,
            buffers: _rooms,
            complained: _complained,
        } = self;
    }
}

impl<W: CallObserver, E: Sink> ScenarioRunner<'_, '_, '_, '_, '_, '_, '_, W, E> {
    // Runs a line that isn't too long, and returns whether it has an error. Most lines are plain calls.
    fn run_line<R: Router + Drop, K: Sink>(
        &mut self,
        core: &mut Core<R>,
        line: &[u8],
        gathered: &mut WriteBuffer,
        writer: &mut K,
    ) -> Result<bool, LineRunFault>
        requires short { length line.now ≤ LONGEST_LINE }
        requires listed { core.old.entries ≡ entries_of (start_list_of self.old.run.now.list.now) }
        requires works { OutputsWork (K.has_failed writer.old)
            (E.has_failed self.old.complaints.now) }
        ensures remains { Remains self.old.complaints.ghost_name self.new.complaints.ghost_name
            self.old.run.now self.new.run.now
            (subject_at self.old.state.now.checker.scenario)
            (subject_at self.new.state.now.checker.scenario)
            (W.tells self.old.observer.now) (W.tells self.new.observer.now)
            (W.holds self.old.observer.now) (W.holds self.new.observer.now) }
        ensures plays { RunsLine self.old.run.now.list.now (option_copied self.old.run.now.only) (W.tells self.old.observer.now)
            W.takes (W.sees self.old.observer.now self.old.run.now.list.now)
            (W.sees self.new.observer.now self.old.run.now.list.now)
            (is_meant_line line.now) (resolved_at (option_copied self.old.run.now.only) self.old.state.now.position
            line.now)
            (K.has_failed writer.new || E.has_failed self.new.complaints.now) result
            (point core.old self.old.state.now.position self.old.state.now.checker.expected
            (K.contents writer.old) gathered.old)
            (point core.new self.new.state.now.position self.new.state.now.checker.expected
            (K.contents writer.new) gathered.new) }
        ensures uncounted { self.new.complained ≡ self.old.complained }
        ensures reports { OnOk result (ReportsLine
            (scope_of (subject_at self.old.state.now.checker.scenario) self.old.run.now.list.now)
            (option_copied self.old.run.now.only) core.old self.old.state.now.position line.now
            self.old.state.now.checker.expected (E.contents self.old.complaints.now)
            (E.contents self.new.complaints.now)) }
    {
        match plain_call(line) {
            Some(call) if !is_skipped(self.run.only, line) => {
                self.run_plain_line(core, line, call, gathered, writer)
            }
            _ => self.run_any_line(core, line, gathered, writer),
        }
    }

    // Runs a plain call: answers it, reports the answer, and checks it. Each step is inlined, so that the call and its answer aren't
    // copied from one to the next.
    fn run_plain_line<'x, R: Router + Drop, K: Sink>(
        &mut self,
        core: &mut Core<R>,
        line: &'x [u8],
        call: NamedCall<'x>,
        gathered: &mut WriteBuffer,
        writer: &mut K,
    ) -> Result<bool, LineRunFault>
        requires own { is_skipped (option_copied self.old.run.now.only) line.now ≡ false }
        requires plain { IsPlain line.now }
        requires bare { IsBare line.now }
        requires read { Reads line.now call }
        requires short { length line.now ≤ LONGEST_LINE }
        requires listed { core.old.entries ≡ entries_of (start_list_of self.old.run.now.list.now) }
        requires works { OutputsWork (K.has_failed writer.old)
            (E.has_failed self.old.complaints.now) }
        ensures remains { Remains self.old.complaints.ghost_name self.new.complaints.ghost_name
            self.old.run.now self.new.run.now
            (subject_at self.old.state.now.checker.scenario)
            (subject_at self.new.state.now.checker.scenario)
            (W.tells self.old.observer.now) (W.tells self.new.observer.now)
            (W.holds self.old.observer.now) (W.holds self.new.observer.now) }
        ensures plays { RunsLine self.old.run.now.list.now (option_copied self.old.run.now.only) (W.tells self.old.observer.now)
            W.takes (W.sees self.old.observer.now self.old.run.now.list.now)
            (W.sees self.new.observer.now self.old.run.now.list.now)
            (is_meant_line line.now) (resolved_at (option_copied self.old.run.now.only) self.old.state.now.position
            line.now)
            (K.has_failed writer.new || E.has_failed self.new.complaints.now) result
            (point core.old self.old.state.now.position self.old.state.now.checker.expected
            (K.contents writer.old) gathered.old)
            (point core.new self.new.state.now.position self.new.state.now.checker.expected
            (K.contents writer.new) gathered.new) }
        ensures uncounted { self.new.complained ≡ self.old.complained }
        ensures reports { OnOk result (ReportsLine
            (scope_of (subject_at self.old.state.now.checker.scenario) self.old.run.now.list.now)
            (option_copied self.old.run.now.only) core.old self.old.state.now.position line.now
            self.old.state.now.checker.expected (E.contents self.old.complaints.now)
            (E.contents self.new.complaints.now)) }
    {
        let list = self.run.list;
        let heard = answer_plain(
            self.run,
            core,
            &self.state.position,
            line,
            call,
            self.buffers,
        );
        match report_call(self.observer, core, list, &heard, gathered, writer) {
            Ok(()) => self.state.take_plain(list, line, &heard, self.complaints),
            Err(fault) => Err(fault),
        }
    }

    // Runs any line: resolves it, answers its call, reports the answer, and checks it.
    fn run_any_line<R: Router + Drop, K: Sink>(
        &mut self,
        core: &mut Core<R>,
        line: &[u8],
        gathered: &mut WriteBuffer,
        writer: &mut K,
    ) -> Result<bool, LineRunFault>
        requires short { length line.now ≤ LONGEST_LINE }
        requires listed { core.old.entries ≡ entries_of (start_list_of self.old.run.now.list.now) }
        requires works { OutputsWork (K.has_failed writer.old)
            (E.has_failed self.old.complaints.now) }
        ensures remains { Remains self.old.complaints.ghost_name self.new.complaints.ghost_name
            self.old.run.now self.new.run.now
            (subject_at self.old.state.now.checker.scenario)
            (subject_at self.new.state.now.checker.scenario)
            (W.tells self.old.observer.now) (W.tells self.new.observer.now)
            (W.holds self.old.observer.now) (W.holds self.new.observer.now) }
        ensures plays { RunsLine self.old.run.now.list.now (option_copied self.old.run.now.only) (W.tells self.old.observer.now)
            W.takes (W.sees self.old.observer.now self.old.run.now.list.now)
            (W.sees self.new.observer.now self.old.run.now.list.now)
            (is_meant_line line.now) (resolved_at (option_copied self.old.run.now.only) self.old.state.now.position
            line.now)
            (K.has_failed writer.new || E.has_failed self.new.complaints.now) result
            (point core.old self.old.state.now.position self.old.state.now.checker.expected
            (K.contents writer.old) gathered.old)
            (point core.new self.new.state.now.position self.new.state.now.checker.expected
            (K.contents writer.new) gathered.new) }
        ensures uncounted { self.new.complained ≡ self.old.complained }
        ensures reports { OnOk result (ReportsLine
            (scope_of (subject_at self.old.state.now.checker.scenario) self.old.run.now.list.now)
            (option_copied self.old.run.now.only) core.old self.old.state.now.position line.now
            self.old.state.now.checker.expected (E.contents self.old.complaints.now)
            (E.contents self.new.complaints.now)) }
    {
        let list = self.run.list;
        let step = take_step(self.run, core, &self.state.position, line, self.buffers);
        match report_call(self.observer, core, list, &step.answered, gathered, writer) {
            Ok(()) => self.state.take_in(list, line, &step, self.complaints),
            Err(fault) => Err(fault),
        }
    }
}

impl<W: CallObserver, E: Sink> LineHandler for ScenarioRunner<'_, '_, '_, '_, '_, '_, '_, W, E> {
    ghost told = { λ runner start lines. text_of_steps (W.tells runner.observer.now start)
        (option_copied runner.run.now.only) []
        (steps_of (option_copied runner.run.now.only) start runner.state.now.position lines) };

    ghost leads = { λ first start runner world lines.
        Remains first.complaints.ghost_name runner.complaints.ghost_name first.run.now runner.run.now
        (subject_at first.state.now.checker.scenario) (subject_at runner.state.now.checker.scenario)
        (W.tells first.observer.now) (W.tells runner.observer.now) (W.holds first.observer.now) (W.holds runner.observer.now)
        × LeadsSteps first.run.now.list.now (option_copied first.run.now.only) start world first.state.now.position
        runner.state.now.position
        (tally first.complained first.state.now.checker.expected)
        (tally runner.complained runner.state.now.checker.expected)
        (WritesReports (scope_of (subject_at first.state.now.checker.scenario) first.run.now.list.now)
        (start_at first.run.now.list.now (option_copied first.run.now.only) start first.state.now.position
        first.state.now.checker.expected)
        (E.contents first.complaints.now) (E.contents runner.complaints.now))
        (W.sees runner.observer.now first.run.now.list.now start) lines };

    ghost stops = { λ first start runner world fault lines.
        Remains first.complaints.ghost_name runner.complaints.ghost_name first.run.now runner.run.now
        (subject_at first.state.now.checker.scenario) (subject_at runner.state.now.checker.scenario)
        (W.tells first.observer.now) (W.tells runner.observer.now) (W.holds first.observer.now) (W.holds runner.observer.now)
        × StopsSteps W.takes (option_copied first.run.now.only) start world first.state.now.position
        fault lines };

    ghost is_ready = { λ runner world _.
        world.entries ≡ entries_of (start_list_of runner.run.now.list.now) };

    ghost has_failed = { λ runner. E.has_failed runner.complaints.now };

    fn play<R: Router + Drop, K: Sink>(
        &mut self,
        core: &mut Core<R>,
        line: &[u8],
        gathered: &mut WriteBuffer,
        writer: &mut K,
    ) -> Result<(), LineRunFault> {
        let judged = self.run_line(core, line, gathered, writer);
        count(&mut self.complained, judged)
    }

    fn play_too_long<R: Router + Drop, K: Sink>(
        &mut self,
        _core: &mut Core<R>,
        _gathered: &mut WriteBuffer,
        _writer: &mut K,
    ) -> Result<(), LineRunFault> {
        let step = LineStep {
            resolved: ResolvedLine::TooLong,
            answered: None,
        };
        let judged = self
            .state
            .take_in(self.run.list, b"", &step, self.complaints);
        count(&mut self.complained, judged)
    }
}

/// Adds an error of a line to the count, if there is one. Returns the fault of the run, if there is one.
pub fn count(complained: &mut u64, judged: Result<bool, LineRunFault>) -> Result<(), LineRunFault>
    ensures result { result ≡ counted judged }
    ensures counts { IfOk judged (λ error. CountsOne error complained.old complained.new) }
{
    match judged {
        Ok(more) => {
            *complained = complained.saturating_add(u64::from(more));
            Ok(())
        }
        Err(fault) => Err(fault),
    }
}
