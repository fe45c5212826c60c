//! Runs of a session from any donation.
ghost use Rattle.std.specs.Prelude.{◌≡◌, ◌<◌, ◌^◌, Some, slice_get, IfOk, OnOk, ◌≢◌, IfErr};
ghost use Rattle.list_parser.specs.declared.fault.BootFault.TheVariants.{BadConfig, NoMemory};
ghost use Rattle.list_parser.specs.declared.fault.ConfigField.TheVariants.{Start};
ghost use Rattle.own_model.specs.Amounts.{Amounts, more_of};
ghost use Rattle.own_model.specs.Session.{Session};
ghost use Rattle.own_model.specs.StartList.{Entry};
ghost use Rattle.own_model.specs.Transcript.{entry_at};
ghost use Rattle.budget_meter.specs.Needs.{amounts_of};
ghost use Rattle.budget_search.specs.BudgetIntervals.{lowest_of, safe_of, HasRunLines};
ghost use Rattle.budget_search.specs.OpenedSessions.{AreExactOf, AreSessionRuns, IsReady, IsReadyFor, opened_with, sent_at, suffices_of, CanDonate, raised_in};
ghost use Rattle.budget_search.specs.SessionLines.{session_lines};
ghost use Rattle.budget_search.specs.Sufficient.{HasLeast, HasSafe};

use crate::budget_intervals::{BudgetIntervals, BudgetTrials};
use crate::session_client::SessionClient;
use crate::session_trial::SessionLines;
use crate::trial::BudgetTrial;
use budget_meter::Budget;
use init_core::Router;
use list_parser::BootFault;
use std::alloc::Global;

/// Returns exactly the donations, up to the given maximum, with which a session opens and its run isn't short of quota. The error
/// is that of a run.
pub(crate) fn session_rows<R: Router + Drop>(
    alloc: Global,
    client: &mut SessionClient<R>,
    reached: SessionLines<'_>,
    most: Budget,
    given: Option<&[u8]>,
) -> Result<BudgetIntervals, BootFault>
    ensures exact { IfOk result (λ found. (session : Session) →
        IsReady client.old.core client.old.client →
        opened_with (entry_at client.old.core.entries client.old.client)
        (slice_get reached.entry.steps.now reached.entry.opened.now.step) ≡ Some session →
        AreExactOf (sent_at reached.entry.steps.now reached.entry.opened.now.steps.items) session most.caps
        most.ram found.rows.items) }
    ensures least { IfOk result (λ found. (session : Session) →
        IsReady client.old.core client.old.client →
        opened_with (entry_at client.old.core.entries client.old.client)
        (slice_get reached.entry.steps.now reached.entry.opened.now.step) ≡ Some session →
        HasLeast (suffices_of (sent_at reached.entry.steps.now reached.entry.opened.now.steps.items) session)
        (amounts_of most) (lowest_of found.rows.items)) }
    ensures safe { IfOk result (λ found. (session : Session) →
        IsReady client.old.core client.old.client →
        opened_with (entry_at client.old.core.entries client.old.client)
        (slice_get reached.entry.steps.now reached.entry.opened.now.step) ≡ Some session →
        HasSafe (suffices_of (sent_at reached.entry.steps.now reached.entry.opened.now.steps.items) session)
        (amounts_of most) (safe_of found.rows.items)) }
    ensures lines { IfOk result (λ found. (session : Session) →
        IsReady client.old.core client.old.client →
        opened_with (entry_at client.old.core.entries client.old.client)
        (slice_get reached.entry.steps.now reached.entry.opened.now.step) ≡ Some session →
        HasRunLines (session_lines reached.entry.steps.now reached.entry.opened.now.step
        reached.entry.opened.now.steps.items session) (amounts_of most) found) }
    ensures ready { OnOk result ((entry : Entry) (whole : Amounts) (session : Session) →
        IsReadyFor entry whole client.old.core client.old.client →
        opened_with entry (slice_get reached.entry.steps.now reached.entry.opened.now.step) ≡ Some session →
        IsReadyFor entry whole client.new.core client.new.client) }
    ensures fault { IfErr result (λ fault. fault ≢ NoMemory → (session : Session) →
        IsReady client.old.core client.old.client →
        opened_with (entry_at client.old.core.entries client.old.client)
        (slice_get reached.entry.steps.now reached.entry.opened.now.step) ≡ Some session →
        fault ≡ BadConfig Start) }
    ensures lacks { IfErr result (λ fault. fault ≢ NoMemory → most.caps < 2 ^ 32 →
        (session : Session) → IsReady client.old.core client.old.client →
        opened_with (entry_at client.old.core.entries client.old.client)
        (slice_get reached.entry.steps.now reached.entry.opened.now.step) ≡ Some session →
        CanDonate client.old.core client.old.client (more_of (amounts_of most)
        (raised_in (sent_at reached.entry.steps.now reached.entry.opened.now.steps.items))) → ⊥) }
{
    let mut trials = SessionTrials {
        client,
        caps: most.caps,
        reached,
    };
    let found = BudgetIntervals::of(alloc, &mut trials, most.ram, given)?;
    Ok(found)
}

// Runs of a session, each from a donation with the same capabilities.
struct SessionTrials<'a, R: Router + Drop> {
    client: &'a mut SessionClient<R>,
    caps: u64,
    reached: SessionLines<'a>,
}

impl<R: Router + Drop> Drop for SessionTrials<'_, R> {
    // The client is returned as it is.
    fn drop(self)
        ensures { self.exit.0.now ≡ self.entry.client.now }
    {
        let SessionTrials {
            client: _client,
            caps: _caps,
            reached: _reached,
        } = self;
    }
}

impl<R: Router + Drop> BudgetTrials for SessionTrials<'_, R> {
    ghost use Rattle.std.specs.Borrow.{GName};
    ghost use Rattle.std.specs.Prelude.{◌≡◌, Some, slice_get};
    ghost use Rattle.own_model.specs.StartList.{Entry};
    ghost use Rattle.own_model.specs.Transcript.{entry_at};
    ghost use Rattle.own_model.specs.Session.{Session};
    ghost use Rattle.budget_search.specs.OpenedSessions.{AreSessionRuns, IsReady, opened_with, sent_at, FailsToDonate, whole_at};
    ghost use Rattle.budget_search.specs.SessionLines.{session_lines};
    ghost use Rattle.own_model.specs.Account.{Account};

    ghost caps = { λ trials. trials.caps };

    ghost Rest = { (Entry × Account) × GName };

    ghost rest = { λ trials. (
      (
        entry_at trials.client.now.core.entries trials.client.now.client,
        whole_at trials.client.now.core trials.client.now.client,
      ),
      trials.client.ghost_name,
    ) };

    ghost AreRuns = { λ trials each want.
        AreSessionRuns trials.client.now.core trials.client.now.client
        (slice_get trials.reached.steps.now trials.reached.opened.now.step)
        (sent_at trials.reached.steps.now trials.reached.opened.now.steps.items) each want };

    ghost AreLines = { λ trials lines.
        IsReady trials.client.now.core trials.client.now.client
        × ((session : Session)
        × ((opened_with (entry_at trials.client.now.core.entries trials.client.now.client)
        (slice_get trials.reached.steps.now trials.reached.opened.now.step) ≡ Some session)
        × (lines ≡ session_lines trials.reached.steps.now trials.reached.opened.now.step
        trials.reached.opened.now.steps.items session))) };

    ghost fails = { λ trials ram fault.
        FailsToDonate trials.client.now.core trials.client.now.client
        (sent_at trials.reached.steps.now trials.reached.opened.now.steps.items)
        (record { ram = ram; caps = trials.caps }) fault };

    fn run(&mut self, alloc: Global, ram: u64) -> Result<BudgetTrial, BootFault> {
        let caps = self.caps;
        let donation = Budget { ram, caps };
        let trial = self.reached.trial(alloc, self.client, donation)?;
        Ok(trial)
    }

    fn leaves_out(&self) -> bool {
        self.reached.leaves_out()
    }
}
