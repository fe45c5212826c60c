//! The accounts of a script: its sessions', and its own.
ghost use Rattle.std.specs.Prelude.{◌≡◌, ◌-◌, ◌<◌, ◌^◌, length, IfOk};
ghost use Rattle.budget_search.specs.Steps.{number_at};

use crate::account_budgets::{AccountBudgets, GivenBudget, SessionKey};
use crate::component_line::ComponentLine;
use crate::funded_list::{ample, most_beside, reserve_of};
use crate::opened_sessions::{OpenedSession, OpenedSessions};
use crate::own_trials::{funded_trial, own_rows};
use crate::session_accounts::SessionAccounts;
use crate::session_client::SessionClient;
use crate::session_intervals::session_rows;
use crate::session_trial::SessionLines;
use crate::trial::BudgetTrial;
use budget_meter::Budget;
use core_calls::Reply;
use init_core::{Router, boot};
use list_parser::{BootFault, ListEntry, StartList};
use std::alloc::Global;

/// A script of a list.
#[derive(Drop)]
pub struct ScriptSearch<'a> {
    pub(crate) list: &'a StartList,
    pub(crate) component: usize,
    /// The budget that the list gives it.
    pub(crate) given: Budget,
    ghost there: { component < length list.now.entries },
    ghost few: { given.caps < 2 ^ 32 },
}

/// What the sessions of a script need.
#[derive(Drop)]
pub struct ScriptSessions {
    /// The run of the script's own account from its given budget, with the donations of the scenario.
    pub given: BudgetTrial,
    /// The accounts of the sessions, in the order of their first openings.
    pub accounts: Vec<AccountBudgets>,
}

impl ScriptSearch<'_> {
    ghost use Rattle.std.specs.Prelude.{◌≡◌, ◌≢◌, ◌<◌, ◌∷◌, [], false, true, length, map, is_some, List, None, IfNone, IfOk, IfSome, OnOk, ◌⊎◌, IfErr, Some};
    ghost use Rattle.std.specs.List.{AllByRecursion};
    ghost use Rattle.list_parser.specs.Quota.{quota_fault};
    ghost use Rattle.list_parser.specs.declared.fault.BootFault.TheVariants.{BadConfig, NoMemory};
    ghost use Rattle.list_parser.specs.declared.fault.ConfigField.TheVariants.{Start};
    ghost use Rattle.budget_search.specs.NoBudgets.{has_room, HasNoRoom, LacksBudgets};
    ghost use Rattle.budget_meter.specs.Needs.{amounts_of};
    ghost use Rattle.own_model.specs.Amounts.{more_of};
    ghost use Rattle.own_model.specs.StartList.Kind.{Script as AScript};
    ghost use Rattle.budget_meter.specs.Run.{Shows};
    ghost use Rattle.budget_search.specs.Alike.{given_in, most_in, own_entry, own_state, reserve_in, IsFunded};
    ghost use Rattle.budget_search.specs.BudgetIntervals.{lowest_of, safe_of, HasRunLines};
    ghost use Rattle.budget_search.specs.OpenedSessions.{IsReadyFor};
    ghost use Rattle.budget_search.specs.Own.{suffices_with, AreExact};
    ghost use Rattle.budget_search.specs.ReachedSessions.{reached_of, IsOfLines, Reached};
    ghost use Rattle.budget_search.specs.SessionAccounts.{AreCounted, AreSessionAccounts, HaveLines, IsAccountOf};
    ghost use Rattle.budget_search.specs.OwnLines.{lines_from};
    ghost use Rattle.budget_search.specs.Steps.{calls_of};
    ghost use Rattle.budget_search.specs.Sufficient.{HasLeast, HasSafe};
    ghost use Rattle.budget_search.specs.declared.account_budgets.AccountBudgets.{AccountBudgets};

    /// Returns the search for the budgets of a component of a list, if it is a script.
    pub fn of(list: &StartList, component: usize) -> Option<ScriptSearch<'_>>
        requires { component < length list.now.entries }
        ensures component { IfSome result (λ search. search.component ≡ component) }
        ensures list { IfSome result (λ search. search.list.now ≡ list.now) }
        ensures given { IfSome result (λ search.
            amounts_of search.given ≡ given_in list.now component) }
        ensures script { IfSome result (λ _. (own_entry list.now component).kind ≡ AScript) }
        ensures other { IfNone result ((own_entry list.now component).kind ≢ AScript) }
    {
        let entry = &list.entries()[component];
        if !entry.is_script() {
            return None;
        }
        Some(ScriptSearch {
            list,
            component,
            given: budget_of(entry),
        })
    }

    /// Returns what its sessions need, each by its opening donation with every other account ample.
    pub fn sessions(
        &self,
        alloc: Global,
        steps: &[ComponentLine],
    ) -> Result<ScriptSessions, BootFault>
        ensures given { IfOk result (λ found.
            (own_entry self.now.list.now self.now.component).kind ≡ AScript →
            Shows (own_entry self.now.list.now self.now.component) (calls_of steps.now)
            (own_state self.now.list.now self.now.component) (amounts_of self.now.given)
            (is_some found.given.refused) found.given.meter) }
        ensures refused { IfOk result (λ found.
            (own_entry self.now.list.now self.now.component).kind ≡ AScript →
            found.given.refused ≡ (lines_from self.now.list.now self.now.component steps.now
            (amounts_of self.now.given)).refused) }
        ensures accounts { IfOk result (λ found.
            (own_entry self.now.list.now self.now.component).kind ≡ AScript →
            AreSessionAccounts self.now.list.now self.now.component steps.now found.accounts.items) }
        ensures fault { IfErr result (λ fault. fault ≢ NoMemory →
            (own_entry self.now.list.now self.now.component).kind ≡ AScript →
            amounts_of self.now.given ≡ given_in self.now.list.now self.now.component →
            LacksBudgets self.now.list.now fault) }
    {
        let given = funded_trial(alloc, self.list, self.component, steps, self.given)?;
        let accounts = self.session_accounts(alloc, steps)?;
        Ok(ScriptSessions { given, accounts })
    }

    // Returns the accounts of its sessions.
    fn session_accounts(
        &self,
        alloc: Global,
        steps: &[ComponentLine],
    ) -> Result<Vec<AccountBudgets>, BootFault>
        ensures accounts { IfOk result (λ found.
            (own_entry self.now.list.now self.now.component).kind ≡ AScript →
            AreSessionAccounts self.now.list.now self.now.component steps.now found.items) }
        ensures fault { IfErr result (λ fault. fault ≢ NoMemory →
            (own_entry self.now.list.now self.now.component).kind ≡ AScript →
            LacksBudgets self.now.list.now fault) }
    {
        let ample = ample(alloc, self.list, self.component)?;
        let opened = OpenedSessions::of(alloc, &ample, self.component, steps)?;
        self.opened_accounts(alloc, &ample, steps, opened.opened.as_slice())
    }

    // Returns the accounts of the sessions that it opens on the machine of a list where every account is ample.
    fn opened_accounts(
        &self,
        alloc: Global,
        ample: &StartList,
        steps: &[ComponentLine],
        sessions: &[OpenedSession],
    ) -> Result<Vec<AccountBudgets>, BootFault>
        ensures accounts { IfOk result (λ found.
            (own_entry self.now.list.now self.now.component).kind ≡ AScript →
            IsFunded ample.now self.now.list.now self.now.component
            (most_in self.now.list.now self.now.component) →
            AreCounted self.now.list.now self.now.component steps.now (map reached_of sessions.now) []
            found.items) }
        ensures fault { IfErr result (λ fault. fault ≢ NoMemory →
            (own_entry self.now.list.now self.now.component).kind ≡ AScript →
            IsFunded ample.now self.now.list.now self.now.component
            (most_in self.now.list.now self.now.component) →
            AllByRecursion (IsOfLines (own_entry self.now.list.now self.now.component) steps.now)
            (map reached_of sessions.now) →
            (quota_fault ample.now ≡ Some fault)
            ⊎ HasNoRoom self.now.list.now self.now.component (map reached_of sessions.now) fault) }
    {
        let reply = Reply::boot(alloc)?;
        let core = boot(alloc, ample)?;
        let client = SessionClient::new(core, self.component, reply);
        self.needs(alloc, client, steps, sessions)
    }

    // Returns the needs of the sessions that a client opens.
    fn needs<R: Router + Drop>(
        &self,
        alloc: Global,
        client: SessionClient<R>,
        steps: &[ComponentLine],
        sessions: &[OpenedSession],
    ) -> Result<Vec<AccountBudgets>, BootFault>
        ensures accounts { IfOk result (λ found.
            IsReadyFor (own_entry self.now.list.now self.now.component)
            (most_in self.now.list.now self.now.component) client.core client.client →
            AreCounted self.now.list.now self.now.component steps.now (map reached_of sessions.now) []
            found.items) }
        ensures fault { IfErr result (λ fault. fault ≢ NoMemory →
            IsReadyFor (own_entry self.now.list.now self.now.component)
            (most_in self.now.list.now self.now.component) client.core client.client →
            AllByRecursion (IsOfLines (own_entry self.now.list.now self.now.component) steps.now)
            (map reached_of sessions.now) →
            HasNoRoom self.now.list.now self.now.component (map reached_of sessions.now) fault) }
    {
        let mut client = client;
        let mut accounts = SessionAccounts::new(alloc);
        for opened in sessions {
            self.add_session(alloc, &mut client, steps, opened, &mut accounts)?;
        }
        Ok(accounts.accounts)
    }

    // Adds the need of a session to those before it.
    fn add_session<R: Router + Drop>(
        &self,
        alloc: Global,
        client: &mut SessionClient<R>,
        steps: &[ComponentLine],
        opened: &OpenedSession,
        accounts: &mut SessionAccounts,
    ) -> Result<(), BootFault>
        ensures ready { OnOk result
            (IsReadyFor (own_entry self.now.list.now self.now.component)
            (most_in self.now.list.now self.now.component) client.old.core client.old.client →
            IsReadyFor (own_entry self.now.list.now self.now.component)
            (most_in self.now.list.now self.now.component) client.new.core client.new.client) }
        ensures lines { OnOk result (HaveLines accounts.old → HaveLines accounts.new) }
        ensures counted { OnOk result
            (IsReadyFor (own_entry self.now.list.now self.now.component)
            (most_in self.now.list.now self.now.component) client.old.core client.old.client →
            HaveLines accounts.old → (rest : List Reached) (end : List AccountBudgets) →
            AreCounted self.now.list.now self.now.component steps.now rest accounts.new.accounts.items
            end →
            AreCounted self.now.list.now self.now.component steps.now (reached_of opened.now ∷ rest)
            accounts.old.accounts.items end) }
        ensures fault { IfErr result (λ fault. fault ≢ NoMemory →
            IsReadyFor (own_entry self.now.list.now self.now.component)
            (most_in self.now.list.now self.now.component) client.old.core client.old.client →
            fault ≡ BadConfig Start) }
        ensures lacks { IfErr result (λ fault. fault ≢ NoMemory →
            IsReadyFor (own_entry self.now.list.now self.now.component)
            (most_in self.now.list.now self.now.component) client.old.core client.old.client →
            IsOfLines (own_entry self.now.list.now self.now.component) steps.now (reached_of opened.now) →
            has_room self.now.list.now self.now.component
            (more_of (amounts_of opened.now.donation) (amounts_of opened.now.raised)) ≡ false) }
    {
        let account = self.session(alloc, client, steps, opened)?;
        accounts.add(account)?;
        Ok(())
    }

    /// Returns the need of its own account: exactly the budgets under which none of its calls is short of quota, up to the largest
    /// machine's, less the reserve.
    pub fn own(
        &self,
        alloc: Global,
        steps: &[ComponentLine],
        given: &BudgetTrial,
    ) -> Result<AccountBudgets, BootFault>
        ensures component { IfOk result (λ account. account.component ≡ self.now.component) }
        ensures own { IfOk result (λ account. account.session ≡ None) }
        ensures given { IfOk result (λ account. account.given.budget ≡ self.now.given) }
        ensures refused { IfOk result (λ account. account.given.refused ≡ given.now.refused) }
        ensures reserve { IfOk result (λ account. amounts_of account.reserve
            ≡ reserve_in self.now.list.now self.now.component) }
        ensures exact { IfOk result (λ account.
            (own_entry self.now.list.now self.now.component).kind ≡ AScript →
            AreExact self.now.list.now self.now.component steps.now
            (most_in self.now.list.now self.now.component).caps
            (most_in self.now.list.now self.now.component).ram account.found.rows.items) }
        ensures least { IfOk result (λ account.
            (own_entry self.now.list.now self.now.component).kind ≡ AScript →
            HasLeast (suffices_with self.now.list.now self.now.component steps.now)
            (most_in self.now.list.now self.now.component)
            (lowest_of account.found.rows.items)) }
        ensures safe { IfOk result (λ account.
            (own_entry self.now.list.now self.now.component).kind ≡ AScript →
            HasSafe (suffices_with self.now.list.now self.now.component steps.now)
            (most_in self.now.list.now self.now.component)
            (safe_of account.found.rows.items)) }
        ensures lines { IfOk result (λ account.
            (own_entry self.now.list.now self.now.component).kind ≡ AScript →
            HasRunLines (lines_from self.now.list.now self.now.component steps.now)
            (most_in self.now.list.now self.now.component) account.found) }
        ensures fault { IfErr result (λ fault. fault ≢ NoMemory →
            (own_entry self.now.list.now self.now.component).kind ≡ AScript →
            LacksBudgets self.now.list.now fault) }
    {
        let reserve = reserve_of(self.list, self.component);
        let most = most_beside(reserve);
        let found = own_rows(
            alloc,
            self.list,
            self.component,
            steps,
            most,
            replies_of(given),
        )?;
        Ok(AccountBudgets {
            component: self.component,
            session: None,
            count: 1,
            given: GivenBudget {
                budget: self.given,
                refused: given.refused,
            },
            reserve,
            found,
        })
    }

    // Returns the need of a session's account, if its client has enough.
    fn session<R: Router + Drop>(
        &self,
        alloc: Global,
        client: &mut SessionClient<R>,
        steps: &[ComponentLine],
        opened: &OpenedSession,
    ) -> Result<AccountBudgets, BootFault>
        ensures account { IfOk result (λ account.
            IsReadyFor (own_entry self.now.list.now self.now.component)
            (most_in self.now.list.now self.now.component) client.old.core client.old.client →
            IsAccountOf self.now.list.now self.now.component steps.now (reached_of opened.now) account) }
        ensures key { IfOk result (λ account. is_some account.session ≡ true) }
        ensures ready { OnOk result
            (IsReadyFor (own_entry self.now.list.now self.now.component)
            (most_in self.now.list.now self.now.component) client.old.core client.old.client →
            IsReadyFor (own_entry self.now.list.now self.now.component)
            (most_in self.now.list.now self.now.component) client.new.core client.new.client) }
        ensures fault { IfErr result (λ fault. fault ≢ NoMemory →
            IsReadyFor (own_entry self.now.list.now self.now.component)
            (most_in self.now.list.now self.now.component) client.old.core client.old.client →
            fault ≡ BadConfig Start) }
        ensures lacks { IfErr result (λ fault. fault ≢ NoMemory →
            IsReadyFor (own_entry self.now.list.now self.now.component)
            (most_in self.now.list.now self.now.component) client.old.core client.old.client →
            IsOfLines (own_entry self.now.list.now self.now.component) steps.now (reached_of opened.now) →
            has_room self.now.list.now self.now.component
            (more_of (amounts_of opened.now.donation) (amounts_of opened.now.raised)) ≡ false) }
    {
        let reached = SessionLines { steps, opened };
        let given = reached.trial(alloc, client, opened.donation)?;
        let most = most_beside(reserve_of(self.list, self.component));
        let rest = Budget {
            ram: most.ram.saturating_sub(opened.raised.ram),
            caps: most.caps.saturating_sub(opened.raised.caps),
        };
        let found = session_rows(alloc, client, reached, rest, replies_of(&given))?;
        Ok(AccountBudgets {
            component: self.component,
            session: Some(SessionKey {
                selector: opened.selector,
                line: number_of(steps, opened.step),
            }),
            count: 1,
            given: GivenBudget {
                budget: opened.donation,
                refused: given.refused,
            },
            reserve: Budget { ram: 0, caps: 0 },
            found,
        })
    }
}

/// Returns the budget of an entry.
pub fn budget_of(entry: &ListEntry) -> Budget
    ensures ram { result.ram ≡ entry.now.ram }
    ensures caps { result.caps ≡ entry.now.caps }
    ensures few { result.caps < 2 ^ 32 }
{
    Budget {
        ram: entry.ram(),
        caps: u64::from(entry.caps()),
    }
}

// Returns the number of the scenario's line for a line of a script.
fn number_of(steps: &[ComponentLine], place: usize) -> u64
    ensures { result ≡ number_at steps.now place }
{
    match steps.get(place) {
        Some(step) => step.number,
        None => 0,
    }
}

// Returns the replies of a run, if no call is short of quota.
fn replies_of(trial: &BudgetTrial) -> Option<&[u8]> {
    if trial.refused.is_some() {
        None
    } else {
        Some(trial.replies.as_slice())
    }
}
