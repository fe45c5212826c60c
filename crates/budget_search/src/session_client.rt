//! A client that makes the calls of one session.
ghost use Rattle.std.specs.Prelude.{◌≡◌, ◌<◌, ◌++◌, codes, None, Some, IfErr, OnOk};
ghost use Rattle.list_parser.specs.declared.fault.BootFault.TheVariants.{NoMemory};
ghost use Rattle.std.specs.Option.{option_map};
ghost use Rattle.std.specs.Str.{bytes_eq};
ghost use Rattle.own_model.specs.Session.{Session};
ghost use Rattle.core_calls.specs.Quotas.{quotas_account};
ghost use Rattle.budget_meter.specs.Needs.{amounts_of};
ghost use Rattle.budget_meter.specs.Sessions.{IsAt};
ghost use Rattle.budget_meter.specs.Asked.{asked_in};
ghost use Rattle.budget_search.specs.RunLines.{skipped_by};
ghost use Rattle.budget_search.specs.SessionLines.{session_shortage};
ghost use Rattle.budget_search.specs.Steps.{mark_of};

use crate::component_line::ComponentLine;
use crate::trial::{BudgetTrial, RefusedLine, Shortage};
use budget_meter::{SessionMeter, named_by};
use core_calls::{Answer, Call, FileError, Outcome, Quotas, Reply, ServiceOutcome};
use init_core::{Core, Router};
use list_parser::{BootFault, ConfigField};
use object_kinds::ObjectKind;

/// The selector of the only session of a component that has made no other call.
pub(crate) const FIRST: u64 = 1;

/// The error of a run whose client doesn't cover what is donated for the session.
pub(crate) const NO_ROOM: BootFault = BootFault::BadConfig(ConfigField::Start);

/// A session whose requests are observed.
#[derive(Drop)]
pub(crate) struct SessionRun {
    pub(crate) heard: SessionMeter,
    pub(crate) trial: BudgetTrial,
}

/// A client that has one session at a time, one after another.
#[derive(Drop)]
pub(crate) struct SessionClient<R: Router + Drop> {
    core: Core<R>,
    client: usize,
    pub(crate) reply: Reply,
}

impl<R: Router + Drop> SessionClient<R> {
    ghost use Rattle.std.specs.Prelude.{◌≡◌, ◌≢◌, ◌<◌, ℕ, List, None, Some, true, false, is_some, length, slice_get, IfErr, IfOk, OnOk};
    ghost use Rattle.list_parser.specs.declared.fault.BootFault.TheVariants.{BadConfig, NoMemory};
    ghost use Rattle.list_parser.specs.declared.fault.ConfigField.TheVariants.{Start};
    ghost use Rattle.std.specs.FinMap.{get};
    ghost use Rattle.std.specs.Option.{option_and_then, option_copied, option_map};
    ghost use Rattle.own_model.specs.Amounts.{Amounts};
    ghost use Rattle.own_model.specs.Call.{is_of_session};
    ghost use Rattle.own_model.specs.Call.Call.{CallSession, Upgrade};
    ghost use Rattle.own_model.specs.OwnState.{session_named};
    ghost use Rattle.own_model.specs.Reply.{reply_text};
    ghost use Rattle.own_model.specs.Session.{Session, offer_of};
    ghost use Rattle.own_model.specs.Transcript.{state_at};
    ghost use Rattle.own_model.specs.World.{outcome_at, with_state};
    ghost use Rattle.core_calls.specs.Quotas.{quotas_account};
    ghost use Rattle.object_kinds.specs.Offered.{offered_kinds};
    ghost use Rattle.core_calls.specs.Call.{model_call, IsWellFormed};
    ghost use Rattle.budget_meter.specs.SessionRuns.{Sent};
    ghost use Rattle.budget_search.specs.OpenedSessions.{HasEnded, HasLeft, sends, sent_at, sent_by, CanDonate, HasDue, whole_at};
    ghost use Rattle.budget_meter.specs.Needs.{amounts_of};
    ghost use Rattle.budget_search.specs.RunLines.{RunLines, lines_in};
    ghost use Rattle.budget_search.specs.SessionLines.{LinesAfter, HasSessionLeft, lines_at, lines_calling, lines_step};
    ghost use Rattle.budget_search.specs.Steps.{Mark, call_said, mark_of};

    /// Returns the client for a component of a core that has made no call, with the reply that its calls write.
    pub(crate) fn new(core: Core<R>, client: usize, reply: Reply) -> SessionClient<R>
        ensures core { result.core ≡ core }
        ensures client { result.client ≡ client }
    {
        SessionClient {
            core,
            client,
            reply,
        }
    }

    /// Returns the session's account, while it is open.
    pub(crate) fn account(&self) -> Option<Quotas>
        ensures { self.now.client < length self.now.core.entries →
            option_map quotas_account result ≡ option_map (λ (s : Session). s.account)
            (session_named (get (state_at self.now.core.states self.now.client).selectors 1)) }
    {
        if self.client >= self.core.count() {
            return None;
        }
        self.core.session_account(self.client, FIRST)
    }

    /// Returns the kinds of objects that the session's server offers, while the session is open.
    pub(crate) fn kinds(&self) -> Option<&[ObjectKind]>
        ensures { self.now.client < length self.now.core.entries →
            option_copied result ≡ option_and_then (λ (s : Session). offered_kinds (offer_of s.state))
            (session_named (get (state_at self.now.core.states self.now.client).selectors 1)) }
    {
        if self.client >= self.core.count() {
            return None;
        }
        self.core.session_kinds(self.client, FIRST)
    }

    /// Makes a call, if the client is there.
    pub(crate) fn step(&mut self, call: Call<'_>)
        requires { IsWellFormed call }
        ensures same { self.new.client ≡ self.old.client }
        ensures entries { self.new.core.entries ≡ self.old.core.entries }
        ensures whole { is_of_session (model_call call.entry) ≡ true →
            whole_at self.new.core self.new.client ≡ whole_at self.old.core self.old.client }
        ensures answered { self.old.client < length self.old.core.entries → self.new.reply.text
            ≡ reply_text (outcome_at self.old.core self.old.client (model_call call.entry)).reply }
        ensures stepped { self.old.client < length self.old.core.entries → self.new.core
            ≡ with_state self.old.core self.old.client
            (outcome_at self.old.core self.old.client (model_call call.entry)).next }
    {
        if self.client < self.core.count() {
            self.core.step(self.client, call, &mut self.reply);
        }
    }

    /// Makes the calls of the lines at these places, up to the first that is short of quota. The error is that of a call that needs
    /// more than the client covers, or that the host is out of memory.
    pub(crate) fn go_through(
        &mut self,
        run: &mut SessionRun,
        steps: &[ComponentLine],
        places: &[usize],
    ) -> Result<(), BootFault>
        requires none { run.old.trial.refused ≡ None }
        ensures same { self.new.client ≡ self.old.client }
        ensures entries { self.new.core.entries ≡ self.old.core.entries }
        ensures whole { whole_at self.new.core self.new.client ≡ whole_at self.old.core self.old.client }
        ensures ended { OnOk result ((sent : List Sent) (session : Session) (donation : Amounts) →
            HasLeft self.old.core self.old.client run.old.heard sent (sent_at steps.now places.now)
            session donation →
            HasEnded self.new.core self.new.client sent session donation
            (is_some run.new.trial.refused) run.new.heard.meter) }
        ensures lines { OnOk result ((session : Session) (donation : Amounts) (whole : RunLines) →
            HasSessionLeft self.old.core self.old.client run.old.heard session donation
            run.old.trial.left_out.items
            (lines_at (amounts_of run.old.trial.meter.start) steps.now places.now) whole →
            lines_in run.new.trial ≡ whole) }
        ensures fault { IfErr result (λ fault. fault ≢ NoMemory → fault ≡ BadConfig Start) }
        ensures lacks { IfErr result (λ fault. fault ≢ NoMemory →
            (due : Amounts) →
            HasDue self.old.core self.old.client due
            (sent_at steps.now places.now) →
            CanDonate self.old.core self.old.client due → ⊥) }
    {
        for place in places {
            if !self.reach(run, steps, *place)? {
                return Ok(());
            }
        }
        Ok(())
    }

    // Makes the call of the line at a place, if it is there, and returns whether the run continues.
    fn reach(
        &mut self,
        run: &mut SessionRun,
        steps: &[ComponentLine],
        place: usize,
    ) -> Result<bool, BootFault>
        requires none { run.old.trial.refused ≡ None }
        ensures same { self.new.client ≡ self.old.client }
        ensures entries { self.new.core.entries ≡ self.old.core.entries }
        ensures whole { whole_at self.new.core self.new.client ≡ whole_at self.old.core self.old.client }
        ensures meter { run.new.trial.meter ≡ run.old.trial.meter }
        ensures on { IfOk result (λ goes_on. goes_on ≡ true → run.new.trial.refused ≡ None) }
        ensures left { IfOk result (λ goes_on. goes_on ≡ true → (sent rest : List Sent)
            (session : Session) (donation : Amounts) →
            HasLeft self.old.core self.old.client run.old.heard sent
            (sent_by (slice_get steps.now place) rest)
            session donation →
            HasLeft self.new.core self.new.client run.new.heard sent rest session donation) }
        ensures ends { IfOk result (λ goes_on. goes_on ≡ false → (sent rest : List Sent)
            (session : Session) (donation : Amounts) →
            HasLeft self.old.core self.old.client run.old.heard sent
            (sent_by (slice_get steps.now place) rest)
            session donation →
            HasEnded self.new.core self.new.client sent session donation
            (is_some run.new.trial.refused) run.new.heard.meter) }
        ensures later { IfOk result (λ goes_on. goes_on ≡ true → (session : Session)
            (donation : Amounts) (rest : LinesAfter) (whole : RunLines) →
            HasSessionLeft self.old.core self.old.client run.old.heard session donation
            run.old.trial.left_out.items
            (lines_step (amounts_of run.old.trial.meter.start) (slice_get steps.now place) rest) whole →
            HasSessionLeft self.new.core self.new.client run.new.heard session donation
            run.new.trial.left_out.items rest whole) }
        ensures lines { IfOk result (λ goes_on. goes_on ≡ false → (session : Session)
            (donation : Amounts) (rest : LinesAfter) (whole : RunLines) →
            HasSessionLeft self.old.core self.old.client run.old.heard session donation
            run.old.trial.left_out.items
            (lines_step (amounts_of run.old.trial.meter.start) (slice_get steps.now place) rest) whole →
            lines_in run.new.trial ≡ whole) }
        ensures due { OnOk result ((due : Amounts) (rest : List Sent) →
            HasDue self.old.core self.old.client due
            (sent_by (slice_get steps.now place) rest) →
            HasDue self.new.core self.new.client due rest) }
        ensures fault { IfErr result (λ fault. fault ≢ NoMemory → fault ≡ BadConfig Start) }
        ensures lacks { IfErr result (λ fault. fault ≢ NoMemory →
            (due : Amounts) (rest : List Sent) →
            HasDue self.old.core self.old.client due
            (sent_by (slice_get steps.now place) rest) →
            CanDonate self.old.core self.old.client due → ⊥) }
    {
        match steps.get(place) {
            Some(step) => self.goes_on(run, step),
            None => Ok(true),
        }
    }

    // Makes the call of a line, and returns whether the run continues.
    fn goes_on(&mut self, run: &mut SessionRun, step: &ComponentLine) -> Result<bool, BootFault>
        requires none { run.old.trial.refused ≡ None }
        ensures same { self.new.client ≡ self.old.client }
        ensures entries { self.new.core.entries ≡ self.old.core.entries }
        ensures whole { whole_at self.new.core self.new.client ≡ whole_at self.old.core self.old.client }
        ensures meter { run.new.trial.meter ≡ run.old.trial.meter }
        ensures on { IfOk result (λ goes_on. goes_on ≡ true → run.new.trial.refused ≡ None) }
        ensures left { IfOk result (λ goes_on. goes_on ≡ true → (sent rest : List Sent)
            (session : Session) (donation : Amounts) →
            HasLeft self.old.core self.old.client run.old.heard sent
            (sends step.now.is_left_out (call_said step.now.line.items) rest)
            session donation →
            HasLeft self.new.core self.new.client run.new.heard sent rest session donation) }
        ensures ends { IfOk result (λ goes_on. goes_on ≡ false → (sent rest : List Sent)
            (session : Session) (donation : Amounts) →
            HasLeft self.old.core self.old.client run.old.heard sent
            (sends step.now.is_left_out (call_said step.now.line.items) rest)
            session donation →
            HasEnded self.new.core self.new.client sent session donation
            (is_some run.new.trial.refused) run.new.heard.meter) }
        ensures later { IfOk result (λ goes_on. goes_on ≡ true → (session : Session)
            (donation : Amounts) (rest : LinesAfter) (whole : RunLines) →
            HasSessionLeft self.old.core self.old.client run.old.heard session donation
            run.old.trial.left_out.items
            (lines_calling (amounts_of run.old.trial.meter.start) (mark_of step.now)
            (call_said step.now.line.items) rest) whole →
            HasSessionLeft self.new.core self.new.client run.new.heard session donation
            run.new.trial.left_out.items rest whole) }
        ensures lines { IfOk result (λ goes_on. goes_on ≡ false → (session : Session)
            (donation : Amounts) (rest : LinesAfter) (whole : RunLines) →
            HasSessionLeft self.old.core self.old.client run.old.heard session donation
            run.old.trial.left_out.items
            (lines_calling (amounts_of run.old.trial.meter.start) (mark_of step.now)
            (call_said step.now.line.items) rest) whole →
            lines_in run.new.trial ≡ whole) }
        ensures due { OnOk result ((due : Amounts) (rest : List Sent) →
            HasDue self.old.core self.old.client due
            (sends step.now.is_left_out (call_said step.now.line.items) rest) →
            HasDue self.new.core self.new.client due rest) }
        ensures fault { IfErr result (λ fault. fault ≢ NoMemory → fault ≡ BadConfig Start) }
        ensures lacks { IfErr result (λ fault. fault ≢ NoMemory →
            (due : Amounts) (rest : List Sent) →
            HasDue self.old.core self.old.client due
            (sends step.now.is_left_out (call_said step.now.line.items) rest) →
            CanDonate self.old.core self.old.client due → ⊥) }
    {
        let Some(call) = step.said() else {
            return Ok(true);
        };
        match call {
            Call::CallSession { request, .. } => self.ask(run, step, request),
            Call::Upgrade { args, .. } => {
                self.raise(run, step.is_left_out, args)?;
                Ok(true)
            }
            _ => Ok(true),
        }
    }

    // Makes a request.
    fn ask(
        &mut self,
        run: &mut SessionRun,
        step: &ComponentLine,
        request: &[u8],
    ) -> Result<bool, BootFault>
        requires none { run.old.trial.refused ≡ None }
        ensures same { self.new.client ≡ self.old.client }
        ensures entries { self.new.core.entries ≡ self.old.core.entries }
        ensures whole { whole_at self.new.core self.new.client ≡ whole_at self.old.core self.old.client }
        ensures meter { run.new.trial.meter ≡ run.old.trial.meter }
        ensures on { IfOk result (λ goes_on. goes_on ≡ true → run.new.trial.refused ≡ None) }
        ensures left { IfOk result (λ goes_on. goes_on ≡ true → (sent rest : List Sent)
            (session : Session) (donation : Amounts) (selector : ℕ) →
            HasLeft self.old.core self.old.client run.old.heard sent
            (sends step.now.is_left_out (Some (CallSession selector request.now)) rest)
            session donation →
            HasLeft self.new.core self.new.client run.new.heard sent rest session donation) }
        ensures ends { IfOk result (λ goes_on. goes_on ≡ false → (sent rest : List Sent)
            (session : Session) (donation : Amounts) (selector : ℕ) →
            HasLeft self.old.core self.old.client run.old.heard sent
            (sends step.now.is_left_out (Some (CallSession selector request.now)) rest)
            session donation →
            HasEnded self.new.core self.new.client sent session donation
            (is_some run.new.trial.refused) run.new.heard.meter) }
        ensures later { IfOk result (λ goes_on. goes_on ≡ true → (session : Session)
            (donation : Amounts) (rest : LinesAfter) (whole : RunLines) (selector : ℕ) →
            HasSessionLeft self.old.core self.old.client run.old.heard session donation
            run.old.trial.left_out.items
            (lines_calling (amounts_of run.old.trial.meter.start) (mark_of step.now)
            (Some (CallSession selector request.now)) rest) whole →
            HasSessionLeft self.new.core self.new.client run.new.heard session donation
            run.new.trial.left_out.items rest whole) }
        ensures lines { IfOk result (λ goes_on. goes_on ≡ false → (session : Session)
            (donation : Amounts) (rest : LinesAfter) (whole : RunLines) (selector : ℕ) →
            HasSessionLeft self.old.core self.old.client run.old.heard session donation
            run.old.trial.left_out.items
            (lines_calling (amounts_of run.old.trial.meter.start) (mark_of step.now)
            (Some (CallSession selector request.now)) rest) whole →
            lines_in run.new.trial ≡ whole) }
        ensures due { OnOk result ((due : Amounts) (rest : List Sent) (selector : ℕ) →
            HasDue self.old.core self.old.client due
            (sends step.now.is_left_out (Some (CallSession selector request.now)) rest) →
            HasDue self.new.core self.new.client due rest) }
        ensures fault { IfErr result (λ fault. fault ≢ NoMemory → fault ≡ BadConfig Start) }
        ensures lacks { IfErr result (λ fault. fault ≢ NoMemory →
            (due : Amounts) (rest : List Sent) (selector : ℕ) →
            HasDue self.old.core self.old.client due
            (sends step.now.is_left_out (Some (CallSession selector request.now)) rest) →
            CanDonate self.old.core self.old.client due → ⊥) }
    {
        if step.is_left_out {
            run.leave_out(step, self.account(), request)?;
            return Ok(true);
        }
        self.step(Call::CallSession {
            selector: FIRST,
            request,
        });
        let Some(after) = self.account() else {
            return Err(NO_ROOM);
        };
        if run.heard.follow(request, self.reply.answer(), after)? {
            run.trial.refused = Some(refused_at(step.number, self.reply.answer()));
            return Ok(false);
        }
        run.trial.keep_reply(self.reply.answer())?;
        Ok(true)
    }

    // Donates more, if the client covers it.
    fn raise(
        &mut self,
        run: &mut SessionRun,
        is_left_out: bool,
        args: &[u8],
    ) -> Result<(), BootFault>
        ensures same { self.new.client ≡ self.old.client }
        ensures entries { self.new.core.entries ≡ self.old.core.entries }
        ensures whole { whole_at self.new.core self.new.client ≡ whole_at self.old.core self.old.client }
        ensures kept { lines_in run.new.trial ≡ lines_in run.old.trial }
        ensures meter { run.new.trial.meter ≡ run.old.trial.meter }
        ensures left { OnOk result ((sent rest : List Sent) (session : Session)
            (donation : Amounts) (selector : ℕ) →
            HasLeft self.old.core self.old.client run.old.heard sent
            (sends is_left_out (Some (Upgrade selector args.now)) rest) session donation →
            HasLeft self.new.core self.new.client run.new.heard sent rest session donation) }
        ensures later { OnOk result ((session : Session) (donation : Amounts) (rest : LinesAfter)
            (whole : RunLines) (mark : Mark) (selector : ℕ) → mark.left_out ≡ is_left_out →
            HasSessionLeft self.old.core self.old.client run.old.heard session donation
            run.old.trial.left_out.items
            (lines_calling (amounts_of run.old.trial.meter.start) mark
            (Some (Upgrade selector args.now)) rest) whole →
            HasSessionLeft self.new.core self.new.client run.new.heard session donation
            run.new.trial.left_out.items rest whole) }
        ensures due { OnOk result ((due : Amounts) (rest : List Sent) (selector : ℕ) →
            HasDue self.old.core self.old.client due
            (sends is_left_out (Some (Upgrade selector args.now)) rest) →
            HasDue self.new.core self.new.client due rest) }
        ensures fault { IfErr result (λ fault. fault ≢ NoMemory → fault ≡ BadConfig Start) }
        ensures lacks { IfErr result (λ fault. fault ≢ NoMemory →
            (due : Amounts) (rest : List Sent) (selector : ℕ) →
            HasDue self.old.core self.old.client due
            (sends is_left_out (Some (Upgrade selector args.now)) rest) →
            CanDonate self.old.core self.old.client due → ⊥) }
    {
        if is_left_out {
            return Ok(());
        }
        let Some(_) = named_by(args) else {
            return Ok(());
        };
        self.step(Call::Upgrade {
            selector: FIRST,
            args,
        });
        if !is_done(self.reply.answer()) {
            return Err(NO_ROOM);
        }
        let Some(account) = self.account() else {
            return Err(NO_ROOM);
        };
        run.heard.raise(account);
        run.trial.keep_reply(self.reply.answer())?;
        Ok(())
    }
}

impl SessionRun {
    // Leaves a request out, by the quota that it asks of the session's account.
    fn leave_out(
        &mut self,
        step: &ComponentLine,
        account: Option<Quotas>,
        request: &[u8],
    ) -> Result<(), BootFault>
        ensures refused { self.new.trial.refused ≡ self.old.trial.refused }
        ensures heard { self.new.heard ≡ self.old.heard }
        ensures meter { self.new.trial.meter ≡ self.old.trial.meter }
        ensures left_out { OnOk result ((session : Session) → IsAt self.old.heard session →
            option_map quotas_account account ≡ Some session.account →
            self.new.trial.left_out.items ≡ self.old.trial.left_out.items
            ++ skipped_by (amounts_of self.old.trial.meter.start) session.account
            (mark_of step.now) (asked_in session.state request.now)) }
        ensures fault { IfErr result (λ fault. fault ≡ NoMemory) }
    {
        match account {
            Some(account) => self.trial.leave_out(
                step.number,
                account,
                step.asked(self.heard.asked(request)),
            ),
            None => Ok(()),
        }
    }
}

/// Returns whether a call is done.
pub(crate) fn is_done(answer: Answer<'_>) -> bool
    ensures { result ≡ bytes_eq answer.entry.text.now (codes "ok") }
{
    matches!(answer.outcome, Outcome::Done)
}

// Returns the refusal of a request for which the session's account is short of quota.
fn refused_at(line: u64, answer: Answer<'_>) -> RefusedLine
    ensures line { result.line ≡ line }
    ensures shortage { result.shortage ≡ session_shortage answer.entry.text.now }
{
    let shortage = match answer.outcome {
        Outcome::Served(ServiceOutcome::Refused(FileError::OutOfRam)) => Shortage::SessionRam,
        _ => Shortage::SessionCaps,
    };
    RefusedLine { line, shortage }
}
