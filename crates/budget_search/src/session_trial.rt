//! A run of one session's calls from a donation.
ghost use Rattle.std.specs.Prelude.{◌≡◌, ◌≢◌, ◌<◌, ◌^◌, ◌∷◌, [], None, Some, true, false, is_some, slice_get, IfErr, IfOk, OnErr, OnOk};
ghost use Rattle.list_parser.specs.declared.fault.BootFault.TheVariants.{BadConfig, NoMemory};
ghost use Rattle.list_parser.specs.declared.fault.ConfigField.TheVariants.{Start};
ghost use Rattle.own_model.specs.Amounts.{Amounts, more_of};
ghost use Rattle.own_model.specs.Session.{Session, Wish, new_session, too_small as session_too_small};
ghost use Rattle.own_model.specs.Transcript.{entry_at};
ghost use Rattle.core_calls.specs.Quotas.{quotas_account};
ghost use Rattle.budget_meter.specs.Needs.{amounts_of, shown_by, shown_in};
ghost use Rattle.budget_meter.specs.SessionRuns.{opening_need, opened_needs, opened_in_want};
ghost use Rattle.budget_meter.specs.Sessions.{Shows};
ghost use Rattle.budget_search.specs.BudgetIntervals.{IsRun};
ghost use Rattle.budget_search.specs.OpenedSessions.{HasSelectors, IsReady, held, opened_with, sent_at, is_too_small, CanDonate, HasDue, raised_in, whole_at};
ghost use Rattle.budget_search.specs.RunLines.{ended_by, lines_in};
ghost use Rattle.budget_search.specs.SessionLines.{donated_shortage, is_skipped, lines_at, refused_line, session_lines};

use crate::component_line::ComponentLine;
use crate::donation::{args_with, donates};
use crate::opened_sessions::OpenedSession;
use crate::session_client::{FIRST, NO_ROOM, SessionClient, SessionRun};
use crate::trial::{BudgetTrial, RefusedLine, Shortage};
use budget_meter::{Budget, Meter, SessionMeter};
use core_calls::{Answer, Call, Outcome, Quotas};
use init_core::Router;
use list_parser::BootFault;
use std::alloc::Global;
use trade_base::Refusal;

/// A session with the lines that reach it.
#[derive(Clone, Copy)]
pub(crate) struct SessionLines<'a> {
    /// The lines of its client.
    pub(crate) steps: &'a [ComponentLine],
    /// The places of the lines that open it and reach it.
    pub(crate) opened: &'a OpenedSession,
}

impl SessionLines<'_> {
    /// Returns whether a line that reaches the session is left out.
    pub(crate) fn leaves_out(self) -> bool
        ensures { result ≡ false → (session : Session) (donation : Amounts) →
            (session_lines self.entry.steps.now self.entry.opened.now.step
            self.entry.opened.now.steps.items session donation).left_out ≡ [] }
    {
        self.opened
            .steps
            .iter()
            .any(|place| is_left_out(self.steps, *place))
    }

    /// Runs the session's calls from a donation, by its client, which has enough and no other session. The error is that of the
    /// run, or that the host is out of memory. A run of a session that is routed has an error only if its client doesn't cover the
    /// donation and those of the upgrades.
    ///
    /// The opening is made with the donation. Before the run its arguments are compared: they name exactly this donation.
    pub(crate) fn trial<R: Router + Drop>(
        self,
        alloc: Global,
        client: &mut SessionClient<R>,
        donation: Budget,
    ) -> Result<BudgetTrial, BootFault>
        ensures run { IfOk result (λ trial. (session : Session) →
            IsReady client.old.core client.old.client →
            opened_with (entry_at client.old.core.entries client.old.client)
            (slice_get self.entry.steps.now self.entry.opened.now.step) ≡ Some session →
            IsRun (opened_needs (sent_at self.entry.steps.now self.entry.opened.now.steps.items) session
            (amounts_of donation))
            (opened_in_want (sent_at self.entry.steps.now self.entry.opened.now.steps.items) session
            (amounts_of donation)) (amounts_of donation) trial) }
        ensures ready { OnOk result ((session : Session) →
            IsReady client.old.core client.old.client →
            opened_with (entry_at client.old.core.entries client.old.client)
            (slice_get self.entry.steps.now self.entry.opened.now.step) ≡ Some session →
            IsReady client.new.core client.new.client) }
        ensures lines { IfOk result (λ trial. (session : Session) →
            IsReady client.old.core client.old.client →
            opened_with (entry_at client.old.core.entries client.old.client)
            (slice_get self.entry.steps.now self.entry.opened.now.step) ≡ Some session →
            lines_in trial ≡ session_lines self.entry.steps.now self.entry.opened.now.step
            self.entry.opened.now.steps.items session (amounts_of donation)) }
        ensures opened { OnOk result (IsReady client.old.core client.old.client →
            is_some (opened_with (entry_at client.old.core.entries client.old.client)
            (slice_get self.entry.steps.now self.entry.opened.now.step)) ≡ true) }
        ensures entries { client.new.core.entries ≡ client.old.core.entries }
        ensures same { client.new.client ≡ client.old.client }
        ensures whole { whole_at client.new.core client.new.client
            ≡ whole_at client.old.core client.old.client }
        ensures fault { IfErr result (λ fault. fault ≢ NoMemory → fault ≡ BadConfig Start) }
        ensures lacks { IfErr result (λ fault. fault ≢ NoMemory → donation.caps < 2 ^ 32 →
            (session : Session) → IsReady client.old.core client.old.client →
            opened_with (entry_at client.old.core.entries client.old.client)
            (slice_get self.entry.steps.now self.entry.opened.now.step) ≡ Some session →
            CanDonate client.old.core client.old.client (more_of (amounts_of donation)
            (raised_in (sent_at self.entry.steps.now self.entry.opened.now.steps.items))) → ⊥) }
    {
        let Some(opening) = self.steps.get(self.opened.step) else {
            return Err(NO_ROOM);
        };
        let Some(
            Call::Open {
                service,
                args: given,
            },
        ) = opening.said()
        else {
            return Err(NO_ROOM);
        };
        let named = args_with(alloc, donation, given)?;
        let args = named.as_slice();
        if !donates(args, donation, given) {
            return Err(NO_ROOM);
        }
        client.step(Call::Open { service, args });
        match client.account() {
            Some(account) => self.run(alloc, client, donation, account),
            None => unopened(alloc, opening.number, client.reply.answer(), donation),
        }
    }

    // Runs the session once it is opened, with this account. Then the session is closed, so that the client has the donation
    // again.
    fn run<R: Router + Drop>(
        self,
        alloc: Global,
        client: &mut SessionClient<R>,
        donation: Budget,
        account: Quotas,
    ) -> Result<BudgetTrial, BootFault>
        ensures entries { client.new.core.entries ≡ client.old.core.entries }
        ensures same { client.new.client ≡ client.old.client }
        ensures whole { whole_at client.new.core client.new.client
            ≡ whole_at client.old.core client.old.client }
        ensures run { IfOk result (λ trial. (wish : Wish) →
            session_too_small wish.ram wish.caps ≡ None →
            quotas_account account ≡ (new_session wish).account →
            HasSelectors client.old.core client.old.client (held (new_session wish) None) →
            Shows (sent_at self.entry.steps.now self.entry.opened.now.steps.items) (new_session wish)
            (record { ram = wish.ram; caps = wish.caps }) (is_some trial.refused) trial.meter) }
        ensures lines { IfOk result (λ trial. (wish : Wish) →
            session_too_small wish.ram wish.caps ≡ None →
            quotas_account account ≡ (new_session wish).account →
            HasSelectors client.old.core client.old.client (held (new_session wish) None) →
            lines_in trial ≡ lines_at (amounts_of donation) self.entry.steps.now
            self.entry.opened.now.steps.items None (new_session wish)) }
        ensures ready { OnOk result ((wish : Wish) →
            session_too_small wish.ram wish.caps ≡ None →
            quotas_account account ≡ (new_session wish).account →
            HasSelectors client.old.core client.old.client (held (new_session wish) None) →
            IsReady client.new.core client.new.client) }
        ensures fault { IfErr result (λ fault. fault ≢ NoMemory → fault ≡ BadConfig Start) }
        ensures lacks { IfErr result (λ fault. fault ≢ NoMemory → (due : Amounts) →
            HasDue client.old.core client.old.client due
            (sent_at self.entry.steps.now self.entry.opened.now.steps.items) →
            CanDonate client.old.core client.old.client due → ⊥) }
    {
        let heard = SessionMeter::new(alloc, account, client.kinds())?;
        let mut run = SessionRun {
            heard,
            trial: BudgetTrial::new(alloc, donation),
        };
        client.go_through(&mut run, self.steps, self.opened.steps.as_slice())?;
        client.step(Call::Close(FIRST));
        let mut trial = run.trial;
        trial.meter = run.heard.meter;
        Ok(trial)
    }
}

// Returns whether the line at a place is left out.
fn is_left_out(steps: &[ComponentLine], place: usize) -> bool
    ensures { result ≡ is_skipped (slice_get steps.now place) }
{
    match steps.get(place) {
        Some(step) => step.is_left_out,
        None => false,
    }
}

// Returns the run of a session that isn't opened, since its donation is too small.
fn unopened(
    alloc: Global,
    line: u64,
    answer: Answer<'_>,
    donation: Budget,
) -> Result<BudgetTrial, BootFault>
    ensures small { OnOk result (is_too_small answer.entry.text.now ≡ true) }
    ensures refused { IfOk result (λ trial. is_some trial.refused ≡ true) }
    ensures lines { IfOk result (λ trial. lines_in trial
        ≡ ended_by (refused_line line (donated_shortage answer.entry.text.now))) }
    ensures shown { IfOk result (λ trial. shown_in trial.meter
        ≡ shown_by (amounts_of donation) (opening_need (amounts_of donation) ∷ [])) }
    ensures fault { IfErr result (λ fault. fault ≢ NoMemory → fault ≡ BadConfig Start) }
    ensures large { OnErr result (is_too_small answer.entry.text.now ≡ false) }
{
    let Some(shortage) = too_small(answer) else {
        return Err(NO_ROOM);
    };
    let mut trial = BudgetTrial::new(alloc, donation);
    trial.refused = Some(RefusedLine { line, shortage });
    trial.meter = Meter::opened(donation);
    Ok(trial)
}

// Returns what a donation is short of, if an opening is answered so.
fn too_small(answer: Answer<'_>) -> Option<Shortage>
    ensures small { is_some result ≡ is_too_small answer.entry.text.now }
    ensures shortage { result ≡ donated_shortage answer.entry.text.now }
{
    match answer.outcome {
        Outcome::Refused(Refusal::InsufficientRamQuota) => Some(Shortage::DonatedRam),
        Outcome::Refused(Refusal::InsufficientCapQuota) => Some(Shortage::DonatedCaps),
        _ => None,
    }
}
