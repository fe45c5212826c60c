//! The state of a run between two lines.
ghost use Rattle.std.specs.Prelude.{◌≡◌, ◌||◌, IfErr, IfOk, IfSome, OnErr, OnOk, false, true};
ghost use Rattle.std.specs.Option.{option_copied};
ghost use Rattle.run_lines.specs.Faults.{Fails};
ghost use Rattle.line_grammar.specs.Read.{IsReadAs};
ghost use Rattle.line_names.specs.Views.{directive_view, filled_view};
ghost use Rattle.line_steps.specs.ResolvedViews.{call_view, resolved_view};
ghost use Rattle.run_scenario.specs.Faults.{takes_memory};
ghost use Rattle.run_scenario.specs.CallAnswers.{answer_of};
ghost use Rattle.run_scenario.specs.Judging.{awaited_after, is_complained, nothing_awaited, text_in};
ghost use Rattle.run_scenario.specs.LineSteps.{Arrives, binds_names, is_meant_line, learnt_by, plain_line, position_with};
ghost use Rattle.line_steps.specs.RunPosition.{arrived, crosses, position_following, is_due, passed};
ghost use Rattle.run_scenario.specs.Reports.{Reports};
ghost use Rattle.view_diagnostics.specs.Diagnostics.{subject_at};
ghost use Rattle.run_lines.specs.declared.line_run_fault.LineRunFault.TheVariants.{NoMemory as NoRoom};

use crate::call_observer::ObservedCall;
use crate::line_step::{LineStep, answer_in};
use crate::reply_checker::ReplyChecker;
use crate::source_line::{JudgedLine, SourceLine};
use line_names::{Directive, FilledLine};
use line_steps::{ResolvedLine, RunPosition, ScenarioCall};
use list_parser::StartList;
use run_lines::{LineAnswer, LineRunFault, Sink};
use std::alloc::Global;
use view_diagnostics::Subject;

/// The state of a run between two lines, in addition to the machine.
#[derive(Drop)]
pub struct ScenarioState<'a> {
    /// The position of the run.
    pub position: RunPosition<'a>,
    /// The checker of answers.
    pub checker: ReplyChecker<'a>,
}

impl<'a> ScenarioState<'a> {
    /// Returns the state at the start of a scenario's run, from the position `start`.
    pub fn new(alloc: Global, scenario: Subject<'a>, start: RunPosition<'a>) -> ScenarioState<'a>
        ensures stands { result.position ≡ start.entry }
        ensures expects { result.checker.expected ≡ nothing_awaited }
        ensures subject { subject_at result.checker.scenario ≡ subject_at scenario.entry }
    {
        ScenarioState {
            position: start,
            checker: ReplyChecker::new(alloc, scenario),
        }
    }

    /// Accepts the step of a line on the machine of a list: checks its answer, follows its directive, binds its names, and enters
    /// and leaves the rounds after it. Returns whether the line has an error. The error is a failed write or that the host is out
    /// of memory.
    pub fn take_in<'x, E: Sink>(
        &mut self,
        list: &StartList,
        line: &'x [u8],
        step: &LineStep<'x>,
        complaints: &mut E,
    ) -> Result<bool, LineRunFault>
        requires read { IfSome step.now.answered (λ it. IsReadAs it.line.now it.call) }
        requires works { E.has_failed complaints.old ≡ false }
        ensures judged { IfOk result (λ complained. complained ≡ is_complained
            (is_meant_line line.now) (resolved_view step.now.resolved) (text_in list.now step.now.answered)
            self.old.checker.expected) }
        ensures expects { OnOk result (self.new.checker.expected ≡ awaited_after
            self.old.position.number (resolved_view step.now.resolved) self.old.checker.expected) }
        ensures stands { OnOk result (Arrives self.old.position
            (resolved_view step.now.resolved) (answer_of step.now.answered) self.new.position) }
        ensures failing { Fails result (E.has_failed complaints.new)
            (takes_memory false (resolved_view step.now.resolved) || crosses self.old.position) }
        ensures reports { Reports (subject_at self.old.checker.scenario) self.old.position.number result
            (E.contents complaints.old) (E.contents complaints.new) }
        ensures subject { subject_at self.new.checker.scenario ≡ subject_at self.old.checker.scenario }
    {
        match self.take_turn(list, line, step, complaints) {
            Ok(complained) => self.arrive(complained),
            Err(fault) => Err(fault),
        }
    }

    // Accepts the step of a line, without the rounds after it.
    fn take_turn<'x, E: Sink>(
        &mut self,
        list: &StartList,
        line: &'x [u8],
        step: &LineStep<'x>,
        complaints: &mut E,
    ) -> Result<bool, LineRunFault>
        requires read { IfSome step.now.answered (λ it. IsReadAs it.line.now it.call) }
        requires works { E.has_failed complaints.old ≡ false }
        ensures judged { IfOk result (λ complained. complained ≡ is_complained
            (is_meant_line line.now) (resolved_view step.now.resolved) (text_in list.now step.now.answered)
            self.old.checker.expected) }
        ensures expects { OnOk result (self.new.checker.expected ≡ awaited_after
            self.old.position.number (resolved_view step.now.resolved) self.old.checker.expected) }
        ensures stands { OnOk result (self.new.position ≡ position_with (passed self.old.position)
            (resolved_view step.now.resolved) (answer_of step.now.answered)) }
        ensures failing { Fails result (E.has_failed complaints.new)
            (takes_memory false (resolved_view step.now.resolved)) }
        ensures reports { Reports (subject_at self.old.checker.scenario) self.old.position.number result
            (E.contents complaints.old) (E.contents complaints.new) }
        ensures subject { subject_at self.new.checker.scenario ≡ subject_at self.old.checker.scenario }
    {
        let number = self.position.pass();
        let given = SourceLine { number, line };
        match &step.resolved {
            ResolvedLine::TooLong => self.checker.report_too_long(number, complaints),
            ResolvedLine::Skipped => {
                self.checker.forget_expected();
                Ok(false)
            }
            ResolvedLine::BadName(fault) => {
                self.checker.report_bad_name(given, *fault, complaints)
            }
            ResolvedLine::Directive(directive) => self.follow(*directive),
            ResolvedLine::Misplaced(column, why) => {
                self.checker
                    .report_misplaced(given, *column, *why, complaints)
            }
            ResolvedLine::Nothing => Ok(false),
            ResolvedLine::Log(text) => self.checker.expect_line(number, *text),
            ResolvedLine::Call(call) => {
                self.judge_call(list, given, call, &step.answered, complaints)
            }
            ResolvedLine::BadLine(fault) => {
                self.checker.report_bad_line(given, *fault, complaints)
            }
        }
    }

    /// Accepts a plain call on the machine of a list: checks its answer, and enters and leaves the rounds after it. Returns
    /// whether the line has an error. The error is a failed write or that the host is out of memory.
    #[inline(always)]
    pub fn take_plain<E: Sink>(
        &mut self,
        list: &StartList,
        line: &[u8],
        heard: &Option<ObservedCall<'_>>,
        complaints: &mut E,
    ) -> Result<bool, LineRunFault>
        requires read { IfSome heard.now (λ it. IsReadAs it.line.now it.call) }
        requires works { E.has_failed complaints.old ≡ false }
        ensures judged { IfOk result (λ complained. complained ≡ is_complained
            (is_meant_line line.now) (plain_line line.now) (text_in list.now heard.now) self.old.checker.expected) }
        ensures expects { OnOk result (self.new.checker.expected ≡ awaited_after
            self.old.position.number (plain_line line.now) self.old.checker.expected) }
        ensures stands { OnOk result (Arrives self.old.position
            (plain_line line.now) (answer_of heard.now) self.new.position) }
        ensures failing { Fails result (E.has_failed complaints.new)
            (takes_memory false (plain_line line.now) || crosses self.old.position) }
        ensures reports { Reports (subject_at self.old.checker.scenario) self.old.position.number result
            (E.contents complaints.old) (E.contents complaints.new) }
        ensures subject { subject_at self.new.checker.scenario ≡ subject_at self.old.checker.scenario }
    {
        let number = self.position.pass();
        let asked = JudgedLine {
            given: SourceLine { number, line },
            line,
            reply: None,
        };
        let known = self.position.known();
        match self.checker.judge(list, asked, known, heard, complaints) {
            Ok(complained) => self.arrive(complained),
            Err(fault) => Err(fault),
        }
    }

    // Enters and leaves the rounds after a line.
    fn arrive(&mut self, complained: bool) -> Result<bool, LineRunFault>
        ensures judged { IfOk result (λ judged. judged ≡ complained) }
        ensures fault { IfErr result (λ fault. fault ≡ NoRoom) }
        ensures takes { OnErr result
            (is_due self.old.position.number self.old.position.ahead ≡ true) }
        ensures stands { OnOk result (self.new.position ≡ arrived self.old.position) }
        ensures same { self.new.checker ≡ self.old.checker }
    {
        self.position.arrive()?;
        Ok(complained)
    }

    // Follows a directive. The error is that the host is out of memory.
    fn follow(&mut self, directive: Directive<'_>) -> Result<bool, LineRunFault>
        ensures stands { OnOk result
            (self.new.position ≡ position_following self.old.position (directive_view directive.entry)) }
        ensures fault { IfErr result (λ fault. fault ≡ NoRoom) }
        ensures judged { IfOk result (λ complained. complained ≡ false) }
        ensures keeps { self.new.checker ≡ self.old.checker }
    {
        self.position.follow(directive)?;
        Ok(false)
    }

    // Checks the answer of a line's call, and binds the names of the line.
    fn judge_call<E: Sink>(
        &mut self,
        list: &StartList,
        given: SourceLine<'_>,
        call: &ScenarioCall<'_>,
        heard: &Option<ObservedCall<'_>>,
        complaints: &mut E,
    ) -> Result<bool, LineRunFault>
        requires read { IfSome heard.now (λ it. IsReadAs it.line.now it.call) }
        requires works { E.has_failed complaints.old ≡ false }
        ensures judged { IfOk result (λ complained. complained
            ≡ is_complained (is_meant_line given.entry.line.now) (call_view call.now) (text_in list.now heard.now) self.old.checker.expected) }
        ensures forgets { self.new.checker.expected ≡ nothing_awaited }
        ensures stands { OnOk result
            (self.new.position ≡ position_with self.old.position (call_view call.now) (answer_of heard.now)) }
        ensures failing { Fails result (E.has_failed complaints.new)
            (takes_memory false (call_view call.now)) }
        ensures reports { Reports (subject_at self.old.checker.scenario) given.entry.number result
            (E.contents complaints.old) (E.contents complaints.new) }
        ensures subject { subject_at self.new.checker.scenario ≡ subject_at self.old.checker.scenario }
    {
        let asked = JudgedLine {
            given,
            line: call.filled.line,
            reply: call.reply,
        };
        let known = self.position.known();
        match self.checker.judge(list, asked, known, heard, complaints) {
            Ok(complained) => match learn(&mut self.position, &call.filled, answer_in(heard)) {
                Ok(()) => Ok(complained),
                Err(fault) => Err(fault),
            },
            Err(fault) => Err(fault),
        }
    }
}

// Binds the names of a line that its reply binds, unless the call is skipped.
fn learn(
    position: &mut RunPosition<'_>,
    filled: &FilledLine<'_>,
    answer: Option<LineAnswer<'_>>,
) -> Result<(), LineRunFault>
    ensures fault { IfErr result (λ fault. fault ≡ NoRoom) }
    ensures takes { OnErr result (binds_names (filled_view filled.now) ≡ true) }
    ensures learns { OnOk result (position.new ≡ record position.old {
      known = learnt_by position.old.known (filled_view filled.now) answer.entry;
    }) }
{
    match answer {
        Some(answer) if !filled.holes.is_empty() => {
            position.learn(filled, answer.reply)?;
            Ok(())
        }
        _ => Ok(()),
    }
}
