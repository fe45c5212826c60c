//! The errors of a scenario's lines under the budgets that are written.
ghost use Rattle.std.specs.Prelude.{◌≡◌, ◌<◌, if◌then◌else◌, IfErr, IfOk, IfSome, false, length};
ghost use Rattle.trade_base.specs.Refusal.{refusal_name};
ghost use Rattle.core_calls.specs.Call.{model_call};
ghost use Rattle.core_calls.specs.Outcome.{rendering};
ghost use Rattle.line_grammar.specs.Read.{IsReadAs};
ghost use Rattle.run_scenario.specs.UnknownNames.{names_unknown};
ghost use Rattle.std.specs.Option.{option_copied};
ghost use Rattle.budget_least.specs.LineErrors.{are_of_form, caller_in, has_grammar, has_other_amounts, is_grantable, is_unmade, one_more, HasErrors, IsJudgeFault};
ghost use Rattle.budget_least.specs.declared.judged_run.JudgeFault.TheVariants.{Boot, Run as Stopped};
ghost use Rattle.run_lines.specs.declared.line_run_fault.LineRunFault.TheVariants.{NoMemory as NoRoom};

use crate::binding_run::{BindingBudgets, BindingRun};
use crate::lines_by_component::{expects_refusal, is_routed, may_be_short};
use crate::report::BudgetReport;
use crate::written_scenario::lines_of;
use core_calls::{Answer, Call, Outcome};
use line_friendly::meets;
use line_grammar::call_in;
use line_steps::{LineBuffers, ResolvedLine, RunPosition, ScenarioCall, resolve};
use list_parser::{BootFault, StartList};
use run_lines::{LineAnswer, LineRunFault, Sink};
use run_scenario::{JudgedLine, ObservedCall, ReplyChecker, SourceLine, names_unknown};
use session_proto::{FileRequest, LogRequest, ObjectRequest, SessionArgs};
use std::alloc::{AllocError, Global};
use trade_base::Refusal;
use view_diagnostics::Subject;

/// The fault that stopped the comparison of a scenario's replies.
#[derive(Drop)]
pub enum JudgeFault {
    /// The machine of a component doesn't boot.
    Boot(BootFault),
    /// An error can't be written, or the host is out of memory.
    Run(LineRunFault),
}

impl From<BootFault> for JudgeFault {
    ghost from_gives = { λ fault result. result ≡ Boot fault };

    fn from(fault: BootFault) -> JudgeFault {
        JudgeFault::Boot(fault)
    }
}

impl From<LineRunFault> for JudgeFault {
    ghost from_gives = { λ fault result. result ≡ Stopped fault };

    fn from(fault: LineRunFault) -> JudgeFault {
        JudgeFault::Run(fault)
    }
}

impl From<AllocError> for JudgeFault {
    ghost from_gives = { λ _ result. result ≡ Stopped NoRoom };

    fn from(_fault: AllocError) -> JudgeFault {
        JudgeFault::Run(LineRunFault::NoMemory)
    }
}

// A run whose errors are written.
#[derive(Drop)]
struct JudgedRun<'a, 'b, 'm, 's> {
    alloc: Global,
    subject: Subject<'s>,
    run: BindingRun<'a, 'b, 'm>,
    // How many lines of each component are before the position.
    counts: Vec<usize>,
    errors: u64,
}

// An engine's line, and the reply to it.
#[derive(Drop)]
struct HeardLine {
    line: Vec<u8>,
    reply: Vec<u8>,
    outcome: Outcome,
    ghost rendered: { reply.items ≡ rendering outcome reply.items },
}

impl BudgetReport<'_> {
    /// Runs a report's scenario, from the report's start, with the budgets that are written, and writes an error for each line that
    /// can't be read, and for each whose reply isn't as expected, as a run does. Other addresses and other limits are no error. A
    /// call whose refusal is expected, and may be a shortage of quota, isn't made. Returns the number of errors.
    pub fn write_errors<E: Sink>(
        &self,
        alloc: Global,
        scenario: &[u8],
        start: RunPosition<'_>,
        subject: Subject<'_>,
        sink: &mut E,
    ) -> Result<u64, JudgeFault>
        requires { E.has_failed sink.old ≡ false }
        ensures errors { IfOk result (HasErrors self.now scenario.now start.entry) }
        ensures fault { IfErr result (IsJudgeFault self.now.list.now) }
    {
        let budgets = BindingBudgets::Chosen {
            choice: self.choice,
            accounts: self.accounts.as_slice(),
            steps: self.scene.steps.as_slice(),
        };
        let mut judged = JudgedRun {
            alloc,
            subject,
            run: BindingRun::new(alloc, self.list, start, budgets, true)?,
            counts: vec![in alloc; 0usize; self.list.count()]?,
            errors: 0,
        };
        let lines = lines_of(alloc, scenario)?;
        judged.judge_all(lines.as_slice(), sink)?;
        Ok(judged.errors)
    }
}

impl JudgedRun<'_, '_, '_, '_> {
    ghost use Rattle.std.specs.Prelude.{◌≡◌, ◌<◌, [], IfErr, IfOk, OnOk, Some, false, length, map, unwrap_or};
    ghost use Rattle.std.specs.List.{slice_get};
    ghost use Rattle.std.specs.Option.{option_copied};
    ghost use Rattle.core_calls.specs.Call.{model_call, IsWellFormed};
    ghost use Rattle.line_grammar.specs.Read.{IsReadAs};
    ghost use Rattle.line_names.specs.Views.{filled_view};
    ghost use Rattle.line_steps.specs.ResolvedViews.{resolved_view, HasParsedCall};
    ghost use Rattle.run_scenario.specs.Judging.{is_other, nothing_awaited};
    ghost use Rattle.run_scenario.specs.LineSteps.{is_meant_line};
    ghost use Rattle.run_scenario.specs.UnknownNames.{names_unknown};
    ghost use Rattle.budget_least.specs.ComponentLines.{said_in};
    ghost use Rattle.budget_least.specs.LineErrors.{counted, is_error, is_unmade, judged_of, judging_of, AreJudged, IsJudged, IsJudgedAs, IsJudgedCall, IsJudgeFault, IsMadeUnless};

    // Judges lines.
    fn judge_all<E: Sink>(&mut self, lines: &[&[u8]], sink: &mut E) -> Result<(), JudgeFault>
        requires { E.has_failed sink.old ≡ false }
        ensures judged { OnOk result
            (AreJudged (map (λ line. line.now) lines.now) (judged_of self.old) (judged_of self.new)) }
        ensures fault { IfErr result (IsJudgeFault self.old.run.list) }
    {
        let mut buffers = LineBuffers::new();
        for line in lines {
            self.judge_line(line, &mut buffers, sink)?;
        }
        Ok(())
    }

    // Judges a line at the position of the run.
    fn judge_line<E: Sink>(
        &mut self,
        line: &[u8],
        buffers: &mut LineBuffers,
        sink: &mut E,
    ) -> Result<(), JudgeFault>
        requires { E.has_failed sink.old ≡ false }
        ensures judged { OnOk result (IsJudged line.now (judged_of self.old) (judged_of self.new)) }
        ensures list { OnOk result (self.new.run.list ≡ self.old.run.list) }
        ensures works { OnOk result (E.has_failed sink.new ≡ false) }
        ensures fault { IfErr result (IsJudgeFault self.old.run.list) }
    {
        let number = self.run.pass();
        let resolved = resolve(None, self.run.known(), line, buffers);
        let complained = self.judge(SourceLine { number, line }, resolved, sink)?;
        self.errors = errors_with(self.errors, complained);
        self.run.arrive()?;
        Ok(())
    }

    // Judges a resolved line, and returns whether it has an error.
    fn judge<E: Sink>(
        &mut self,
        given: SourceLine<'_>,
        resolved: ResolvedLine<'_>,
        sink: &mut E,
    ) -> Result<bool, JudgeFault>
        requires parsed { HasParsedCall resolved }
        requires works { E.has_failed sink.old ≡ false }
        ensures judged { IfOk result (IsJudgedAs (is_meant_line given.entry.line.now)
            (resolved_view resolved.entry) (judging_of self.old) (judging_of self.new)) }
        ensures errors { self.new.errors ≡ self.old.errors }
        ensures works { OnOk result (E.has_failed sink.new ≡ false) }
        ensures fault { IfErr result (IsJudgeFault self.old.run.list) }
    {
        match resolved {
            ResolvedLine::TooLong => Ok(self.checker().report_too_long(given.number, sink)?),
            ResolvedLine::BadName(fault) => {
                Ok(self.checker().report_bad_name(given, fault, sink)?)
            }
            ResolvedLine::BadLine(fault) => {
                Ok(self.checker().report_bad_line(given, fault, sink)?)
            }
            ResolvedLine::Misplaced(column, why) => {
                Ok(self.checker().report_misplaced(given, column, why, sink)?)
            }
            ResolvedLine::Directive(directive) => {
                self.run.follow(directive)?;
                Ok(false)
            }
            ResolvedLine::Call(call) => self.judge_call(given, &call, sink),
            ResolvedLine::Skipped => Ok(false),
            ResolvedLine::Nothing => Ok(false),
            ResolvedLine::Log(_) => Ok(false),
        }
    }

    // Judges a call. No component makes a call in a line that the engine can't parse, or of a path that no component has.
    fn judge_call<E: Sink>(
        &mut self,
        given: SourceLine<'_>,
        call: &ScenarioCall<'_>,
        sink: &mut E,
    ) -> Result<bool, JudgeFault>
        requires parsed { IsReadAs call.now.line.now call.now.call }
        requires works { E.has_failed sink.old ≡ false }
        ensures judged { IfOk result (IsJudgedCall (is_meant_line given.entry.line.now)
            (names_unknown self.old.run.list call.now.line.now) (filled_view call.now.filled)
            (option_copied call.now.reply) (said_in call.now.line.now) (judging_of self.old) (judging_of self.new)) }
        ensures errors { self.new.errors ≡ self.old.errors }
        ensures works { OnOk result (E.has_failed sink.new ≡ false) }
        ensures fault { IfErr result (IsJudgeFault self.old.run.list) }
    {
        let Some(said) = call.call else {
            return Ok(self.compare(given, call, refused(Refusal::BadLine), sink)?);
        };
        let Some(component) = find_caller(self.run.list(), said.name) else {
            return Ok(self.compare(given, call, refused(Refusal::UnknownComponent), sink)?);
        };
        self.judge_component(given, component, call, said.call, sink)
    }

    // Makes a component's call, unless it expects a refusal that may be a shortage of quota, and judges the reply.
    fn judge_component<E: Sink>(
        &mut self,
        given: SourceLine<'_>,
        component: usize,
        call: &ScenarioCall<'_>,
        said: Call<'_>,
        sink: &mut E,
    ) -> Result<bool, JudgeFault>
        requires there { component < length self.old.run.list.entries }
        requires parsed { IsReadAs call.now.line.now call.now.call }
        requires formed { IsWellFormed said }
        requires works { E.has_failed sink.old ≡ false }
        ensures judged { IfOk result (IsMadeUnless
            (is_unmade (names_unknown self.old.run.list call.now.line.now) self.old.run.list component
            (option_copied call.now.reply) (model_call said.entry))
            (is_meant_line given.entry.line.now) (names_unknown self.old.run.list call.now.line.now) component
            (filled_view call.now.filled) (option_copied call.now.reply) (model_call said.entry)
            (judging_of self.old) (judging_of self.new)) }
        ensures errors { self.new.errors ≡ self.old.errors }
        ensures works { OnOk result (E.has_failed sink.new ≡ false) }
        ensures fault { IfErr result (IsJudgeFault self.old.run.list) }
    {
        let place = self.count(component);
        if is_passed_over(self.run.list(), component, call, said) {
            return Ok(false);
        }
        let mut client = self.run.take_client(self.alloc, component)?;
        let budgets = self.run.budgets();
        budgets.make(self.alloc, &mut client, component, place, said)?;
        let complained = self.compare(given, call, client.answer(), sink)?;
        let binds = !expects_refusal(call.reply);
        self.run.keep(component, client, &call.filled, binds)?;
        Ok(complained)
    }

    // Counts a line of a component, and returns how many of its lines are before this one.
    fn count(&mut self, component: usize) -> usize
        ensures place { result ≡ unwrap_or (slice_get self.old.counts.items component) 0 }
        ensures counted { judging_of self.new ≡ counted component (judging_of self.old) }
        ensures errors { self.new.errors ≡ self.old.errors }
    {
        if component >= self.counts.len() {
            return 0;
        }
        let place = self.counts[component];
        self.counts[component] = place.saturating_add(1);
        place
    }

    // Compares a reply with the one that its line expects, writes an error if it is another one, and returns whether it is.
    fn compare<E: Sink>(
        &self,
        given: SourceLine<'_>,
        call: &ScenarioCall<'_>,
        answer: Answer<'_>,
        sink: &mut E,
    ) -> Result<bool, LineRunFault>
        requires { E.has_failed sink.old ≡ false }
        ensures complained { IfOk result (λ complained. complained
            ≡ is_error (is_meant_line given.entry.line.now)
            (names_unknown self.now.run.list call.now.line.now) (option_copied call.now.reply)
            answer.entry.text.now) }
        ensures works { OnOk result (E.has_failed sink.new ≡ false) }
    {
        if may_vary(call.reply, answer.text) {
            return Ok(false);
        }
        let asked = JudgedLine {
            given,
            line: call.filled.line,
            reply: call.reply,
        };
        let line = Vec::from_slice(self.alloc, call.line)?;
        let reply = Vec::from_slice(self.alloc, answer.text)?;
        let heard = HeardLine {
            line,
            reply,
            outcome: answer.outcome,
        };
        self.compare_heard(asked, &heard, sink)
    }

    // Compares the reply to an engine's line.
    fn compare_heard<E: Sink>(
        &self,
        asked: JudgedLine<'_>,
        heard: &HeardLine,
        sink: &mut E,
    ) -> Result<bool, LineRunFault>
        requires { E.has_failed sink.old ≡ false }
        ensures complained { IfOk result (λ complained. complained
            ≡ is_other (is_meant_line asked.entry.given.line.now) (option_copied asked.entry.reply)
            (Some (record {
              reply = heard.now.reply.items;
              lines = [];
              is_unknown = names_unknown self.now.run.list heard.now.line.items;
            })) nothing_awaited) }
        ensures works { OnOk result (E.has_failed sink.new ≡ false) }
    {
        let line = heard.line.as_slice();
        let heard = Some(ObservedCall {
            number: asked.given.number,
            line,
            call: call_in(line),
            answer: LineAnswer {
                lines: b"",
                name: b"",
                reply: heard.reply.as_slice(),
                outcome: heard.outcome,
            },
        });
        let (list, known) = (self.run.list(), self.run.known());
        self.checker().judge(list, asked, known, &heard, sink)
    }

    // Returns a checker that expects no log line.
    fn checker(&self) -> ReplyChecker<'_>
        ensures { result.expected ≡ nothing_awaited }
    {
        ReplyChecker::new(self.alloc, self.subject)
    }
}

// Returns the number of errors with one more, if a line has one.
fn errors_with(errors: u64, complained: bool) -> u64
    ensures { result ≡ (if complained then one_more errors else errors) }
{
    if complained {
        errors.saturating_add(1)
    } else {
        errors
    }
}

// Returns the component of a path, unless it is an init.
fn find_caller(list: &StartList, name: &[u8]) -> Option<usize>
    ensures component { result ≡ caller_in list.now name.now }
    ensures there { IfSome result (λ component. component < length list.now.entries) }
{
    match list.find(name) {
        Some(component) if !list.is_init(component) => Some(component),
        _ => None,
    }
}

// Returns the answer to a line that no component answers.
fn refused(refusal: Refusal) -> Answer<'static>
    ensures { result.text.now ≡ refusal_name refusal }
{
    Answer {
        outcome: Outcome::Refused(refusal),
        text: refusal.name().as_bytes(),
    }
}

// Returns whether a component's call isn't made: it has no unknown name, and its refusal is expected, and may be a shortage of quota.
fn is_passed_over(
    list: &StartList,
    component: usize,
    call: &ScenarioCall<'_>,
    said: Call<'_>,
) -> bool
    requires there { component < length list.now.entries }
    requires parsed { IsReadAs call.now.line.now call.now.call }
    ensures { result ≡ is_unmade (names_unknown list.now call.now.line.now) list.now component
        (option_copied call.now.reply) (model_call said.entry) }
{
    expects_refusal(call.reply)
        && may_be_short(call.reply)
        && !names_unknown(list, call.line, call.call)
        && may_be_granted(list, component, said)
}

// Returns whether a call could be granted with some budget, as far as its component, its route and its grammar say.
fn may_be_granted(list: &StartList, component: usize, call: Call<'_>) -> bool
    requires { component < length list.now.entries }
    ensures { result ≡ is_grantable list.now component (model_call call.entry) }
{
    match list.entries().get(component) {
        Some(entry) => {
            entry.is_script() && is_routed(list, component, call) && is_readable(call)
        }
        None => false,
    }
}

// Returns whether the arguments or the request of a call are in the grammar of some service.
fn is_readable(call: Call<'_>) -> bool
    ensures { result ≡ has_grammar (model_call call.entry) }
{
    match call {
        Call::Open { args, .. } | Call::Upgrade { args, .. } => SessionArgs::read(args).is_ok(),
        Call::Request(args) | Call::Yield(args) => SessionArgs::read(args).is_ok(),
        Call::CallSession { request, .. } => {
            FileRequest::read(request).is_some()
                || ObjectRequest::read(request).is_some()
                || LogRequest::read(request).is_some()
        }
        _ => true,
    }
}

// Returns whether a reply and its expectation are both an address, or both limits of an account or a session.
fn may_vary(expected: Option<&[u8]>, reply: &[u8]) -> bool
    ensures { result ≡ has_other_amounts (option_copied expected.entry) reply.now }
{
    match expected {
        Some(text) => {
            have_form(reply, text, b"at *")
                || have_form(reply, text, b"ram * caps *")
                || have_form(reply, text, b"OK ram * caps *")
        }
        None => false,
    }
}

// Returns whether a reply and its expectation both match a form.
fn have_form(reply: &[u8], expected: &[u8], form: &[u8]) -> bool
    ensures { result ≡ are_of_form reply.now expected.now form.now }
{
    meets(reply, form) && meets(expected, form)
}
