//! The run of a scenario that is recorded.
ghost use Rattle.std.specs.Prelude.{◌≡◌, ◌++◌, ◌∷◌, [], None, false, OnOk, IfOk, is_some, length, nat_lt, if◌then◌else◌};
ghost use Rattle.std.specs.Option.{option_copied};
ghost use Rattle.own_model.specs.Listed.{start_list_of};
ghost use Rattle.own_model.specs.StartList.{entries_of};
ghost use Rattle.own_model.specs.World.{World};
ghost use Rattle.line_grammar.specs.Read.{IsReadAs};
ghost use Rattle.line_names.specs.Views.{filled_view};
ghost use Rattle.line_steps.specs.ResolvedLines.{resolved_line};
ghost use Rattle.line_steps.specs.ResolvedViews.{HasParsedCall, call_view, resolved_view};
ghost use Rattle.run_lines.specs.Answer.{AnswersLine};
ghost use Rattle.run_scenario.specs.CallAnswers.{AnswersIn, answer_of};
ghost use Rattle.run_scenario.specs.LineSteps.{calls_in, resolved_at};
ghost use Rattle.run_record.specs.Marked.{all_marked};
ghost use Rattle.run_record.specs.RecordedCalls.{awaits_after, events, events_in, is_lost, recording_behind};
ghost use Rattle.run_record.specs.Recorded.{pieces_of, without_last, written_lines};
ghost use Rattle.run_record.specs.LineErrors.{errors_view, is_missed, line_by_reason, recording_errors_from, recording_errors_in};
ghost use Rattle.run_record.specs.LineErrors.Reason.{Misread as IsMisread, Unread as IsUnread};
ghost use Rattle.run_record.specs.Views.{IsOfLine, marks_view, recorded_call_view, recording_in};

use crate::line_marks::LineMarks;
use crate::pieces::first_piece;
use crate::recorded_call::RecordedCall;
use crate::recording::Recording;
use crate::recording_error::RecordingError;
use line_friendly::{can_pass, is_misread};
use line_names::NameTable;
use line_steps::{ResolvedLine, RunPosition, ScenarioCall, UnreadLine, UnreadReason};
use list_parser::StartList;
use run_lines::{Core, LineAnswer, LineDispatcher, Router};
use run_scenario::{
    CallBuffers, LineStep, SourceLine, answer_in, is_meant_line, misread_error, move_past,
    names_unknown, take_step,
};
use std::alloc::{AllocError, Global};

/// The run of a scenario that is recorded.
#[derive(Drop)]
pub(crate) struct RecordingRun<'a, 'm> {
    /// Whether each reply is written again.
    all: bool,
    position: RunPosition<'m>,
    /// Whether log lines are expected of the next call.
    awaits: bool,
    marks: LineMarks<'a>,
    errors: Vec<RecordingError>,
    alloc: Global,
}

impl<'a, 'm> RecordingRun<'a, 'm> {
    /// Returns the run before its first line.
    pub(crate) fn new(
        alloc: Global,
        marks: LineMarks<'a>,
        start: RunPosition<'m>,
        all: bool,
    ) -> RecordingRun<'a, 'm>
        ensures all { result.all ≡ all }
        ensures marks { result.marks ≡ marks.entry }
        ensures position { result.position ≡ start.entry }
        ensures awaits { result.awaits ≡ false }
        ensures errors { result.errors.items ≡ [] }
    {
        RecordingRun {
            all,
            position: start,
            awaits: false,
            marks,
            errors: Vec::new(alloc),
            alloc,
        }
    }

    /// Runs each line of a text. The error is that the host is out of memory.
    pub(crate) fn run_scenario_lines<R: Router + Drop>(
        &mut self,
        list: &StartList,
        core: &mut Core<R>,
        scenario: &[u8],
        buffers: &mut CallBuffers,
    ) -> Result<(), AllocError>
        requires listed { core.old.entries ≡ entries_of (start_list_of list.now) }
        ensures all { self.new.all ≡ self.old.all }
        ensures marks { OnOk result (marks_view self.new.marks.marks.items ≡ all_marked
            (events self.old.all (recording_in list.now self.old.position self.old.awaits core.old) (pieces_of scenario.now))
            (marks_view self.old.marks.marks.items)) }
        ensures errors { OnOk result (errors_view self.new.errors.items ≡ errors_view self.old.errors.items
            ++ recording_errors_from (recording_in list.now self.old.position self.old.awaits core.old) (pieces_of scenario.now)) }
    {
        let mut rest = Some(scenario);
        while let Some(text) = rest {
            let (line, behind) = first_piece(text);
            self.run_line(list, core, line, buffers)?;
            rest = behind;
        }
        Ok(())
    }

    // Runs a line: takes its step, records the step, and moves the position past the line.
    fn run_line<R: Router + Drop>(
        &mut self,
        list: &StartList,
        core: &mut Core<R>,
        line: &[u8],
        buffers: &mut CallBuffers,
    ) -> Result<(), AllocError>
        requires listed { core.old.entries ≡ entries_of (start_list_of list.now) }
        ensures all { self.new.all ≡ self.old.all }
        ensures stage { OnOk result (recording_in list.now self.new.position self.new.awaits core.new
            ≡ recording_behind (recording_in list.now self.old.position self.old.awaits core.old) line.now) }
        ensures marks { OnOk result (marks_view self.new.marks.marks.items ≡ all_marked
            (events_in self.old.all (recording_in list.now self.old.position self.old.awaits core.old) line.now
            (resolved_at None self.old.position line.now)) (marks_view self.old.marks.marks.items)) }
        ensures errors { OnOk result (errors_view self.new.errors.items ≡ errors_view self.old.errors.items
            ++ recording_errors_in (recording_in list.now self.old.position self.old.awaits core.old) line.now
            (resolved_at None self.old.position line.now)) }
    {
        let run = LineDispatcher { list, only: None };
        let step = take_step(&run, core, &self.position, line, buffers);
        self.note(list, line, &step)?;
        move_past(&mut self.position, &step)
    }

    // Records the step of a line, before the position moves past it.
    fn note(&mut self, list: &StartList, line: &[u8], step: &LineStep<'_>) -> Result<(), AllocError>
        requires resolved { resolved_view step.now.resolved ≡ resolved_at None self.old.position line.now }
        requires parsed { HasParsedCall step.now.resolved }
        ensures all { self.new.all ≡ self.old.all }
        ensures position { self.new.position ≡ self.old.position }
        ensures awaits { OnOk result
            (self.new.awaits ≡ awaits_after self.old.awaits (resolved_view step.now.resolved)) }
        ensures marks { (world : World) → AnswersIn None world
            (calls_in (resolved_view step.now.resolved)) (answer_of step.now.answered) →
            OnOk result (marks_view self.new.marks.marks.items ≡ all_marked
            (events_in self.old.all (recording_in list.now self.old.position self.old.awaits world) line.now
            (resolved_view step.now.resolved)) (marks_view self.old.marks.marks.items)) }
        ensures errors { (world : World) → AnswersIn None world
            (calls_in (resolved_view step.now.resolved)) (answer_of step.now.answered) →
            OnOk result (errors_view self.new.errors.items ≡ errors_view self.old.errors.items
            ++ recording_errors_in (recording_in list.now self.old.position self.old.awaits world) line.now
            (resolved_view step.now.resolved)) }
    {
        match &step.resolved {
            ResolvedLine::TooLong => self.miss(UnreadReason::TooLong),
            ResolvedLine::BadName(fault) => self.miss(UnreadReason::Name(*fault)),
            ResolvedLine::Misplaced(column, why) => {
                self.miss(UnreadReason::Misplaced(*column, *why))
            }
            ResolvedLine::BadLine(fault) => self.miss(UnreadReason::Fault(*fault)),
            ResolvedLine::Log(_) => {
                self.awaits = true;
                self.marks.log(self.position.number());
                Ok(())
            }
            ResolvedLine::Call(call) => {
                self.note_call(list, line, call, answer_in(&step.answered))
            }
            ResolvedLine::Skipped | ResolvedLine::Directive(_) | ResolvedLine::Nothing => Ok(()),
        }
    }

    // Records the call of a line, if it was answered.
    #[tactic(auto, using(crate::proofs::ErrorLemmas::missed_in))]
    fn note_call(
        &mut self,
        list: &StartList,
        line: &[u8],
        call: &ScenarioCall<'_>,
        answer: Option<LineAnswer<'_>>,
    ) -> Result<(), AllocError>
        requires resolved { resolved_at None self.old.position line.now ≡ call_view call.now }
        requires parsed { IsReadAs call.now.line.now call.now.call }
        ensures all { self.new.all ≡ self.old.all }
        ensures position { self.new.position ≡ self.old.position }
        ensures awaits { self.new.awaits ≡ false }
        ensures marks { (world : World) → AnswersLine None world call.now.line.now answer.entry →
            OnOk result (marks_view self.new.marks.marks.items ≡ all_marked
            (events_in self.old.all (recording_in list.now self.old.position self.old.awaits world) line.now
            (call_view call.now)) (marks_view self.old.marks.marks.items)) }
        ensures errors { (world : World) → AnswersLine None world call.now.line.now answer.entry →
            OnOk result (errors_view self.new.errors.items ≡ errors_view self.old.errors.items
            ++ recording_errors_in (recording_in list.now self.old.position self.old.awaits world) line.now
            (call_view call.now)) }
    {
        let awaited = self.awaits && !self.all;
        self.awaits = false;
        let Some(answer) = answer else {
            return Ok(());
        };
        let lost = is_lost(list, line, call, answer.reply);
        self.report(list, line, call, answer.reply)?;
        let lines = lines_for(awaited, answer);
        let known = self.position.known();
        let heard = recorded_call(known, line, call, answer.reply, lines, lost);
        self.marks.hear(self.position.number(), &heard)
    }

    // Records that the call of the next line isn't understood, if it isn't.
    fn report(
        &mut self,
        list: &StartList,
        line: &[u8],
        call: &ScenarioCall<'_>,
        reply: &[u8],
    ) -> Result<(), AllocError>
        requires { IsReadAs call.now.line.now call.now.call }
        ensures all { self.new.all ≡ self.old.all }
        ensures position { self.new.position ≡ self.old.position }
        ensures awaits { self.new.awaits ≡ self.old.awaits }
        ensures marks { self.new.marks ≡ self.old.marks }
        ensures errors { OnOk result (errors_view self.new.errors.items ≡ errors_view self.old.errors.items
            ++ (if is_missed list.now line.now call.now.line.now (option_copied call.now.reply) reply.now
            then record { number = self.old.position.number; reason = IsMisread } ∷ [] else [])) }
    {
        if !is_missed(list, line, call, reply) {
            return Ok(());
        }
        let number = self.position.number();
        let given = SourceLine { number, line };
        let error = misread_error(self.alloc, list, given, self.position.known(), call, reply)?;
        self.errors.push(RecordingError::Misread(error))?;
        Ok(())
    }

    // Records why the next line can't be parsed.
    fn miss(&mut self, why: UnreadReason) -> Result<(), AllocError>
        ensures all { self.new.all ≡ self.old.all }
        ensures position { self.new.position ≡ self.old.position }
        ensures awaits { self.new.awaits ≡ self.old.awaits }
        ensures marks { self.new.marks ≡ self.old.marks }
        ensures errors { OnOk result (errors_view self.new.errors.items ≡ errors_view self.old.errors.items
            ++ record { number = self.old.position.number; reason = IsUnread (line_by_reason why) } ∷ []) }
    {
        let number = self.position.number();
        let line = UnreadLine { number, why };
        self.errors.push(RecordingError::Unread(line))?;
        Ok(())
    }

    /// Returns the recording of the lines so far. The error is that the host is out of memory.
    pub(crate) fn into_recording(self) -> Result<Recording, AllocError>
        ensures text { IfOk result (λ recording. recording.text.items ≡ without_last
            (written_lines self.entry.all (marks_view self.entry.marks.marks.items))) }
        ensures errors { IfOk result (λ recording. recording.errors ≡ self.entry.errors) }
    {
        let mut text = self.marks.write(self.all)?;
        let _ = text.pop();
        Ok(Recording {
            text,
            errors: self.errors,
        })
    }
}

// Returns whether the call of a line isn't understood, by its reply or a name in it, and the line isn't meant.
fn is_lost(list: &StartList, line: &[u8], call: &ScenarioCall<'_>, reply: &[u8]) -> bool
    requires { IsReadAs call.now.line.now call.now.call }
    ensures { result ≡ is_lost list.now line.now call.now.line.now reply.now }
{
    (is_misread(reply) || names_unknown(list, call.line, call.call)) && !is_meant_line(line)
}

// Returns whether the call of a line isn't understood, and the line doesn't expect the whole reply that says so.
fn is_missed(list: &StartList, line: &[u8], call: &ScenarioCall<'_>, reply: &[u8]) -> bool
    requires { IsReadAs call.now.line.now call.now.call }
    ensures { result ≡ is_missed list.now line.now call.now.line.now (option_copied call.now.reply) reply.now }
{
    is_lost(list, line, call, reply)
        && (names_unknown(list, call.line, call.call) || !can_pass(call.reply, reply))
}

// Returns the call of a line that was run, with its reply and the log lines to be expected of it.
fn recorded_call<'k, 'a>(
    known: &'k NameTable,
    line: &'a [u8],
    call: &ScenarioCall<'a>,
    reply: &'a [u8],
    lines: &'a [u8],
    lost: bool,
) -> RecordedCall<'k, 'a>
    requires { resolved_line None known.now line.now ≡ call_view call.now }
    ensures value { recorded_call_view result ≡ record {
      known = known.now;
      binds = nat_lt 0 (length (filled_view call.now.filled).holes);
      expects = is_some (option_copied call.now.reply);
      lost = lost;
      call = call.now.line.now;
      reply = reply.now;
      lines = lines.now;
    } }
    ensures line { IsOfLine result }
{
    RecordedCall {
        known,
        binds: !call.filled.holes.is_empty(),
        line,
        expected: call.reply,
        lost,
        call: call.line,
        reply,
        lines,
    }
}

// Returns the log lines to be expected of a call, unless the scenario expects some already.
fn lines_for<'a>(awaits: bool, answer: LineAnswer<'a>) -> &'a [u8]
    ensures { result.now ≡ (if awaits then [] else answer.entry.lines.now) }
{
    if awaits { b"" } else { answer.lines }
}
