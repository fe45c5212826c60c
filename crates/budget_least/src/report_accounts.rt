//! The accounts of a report, component by component.
ghost use Rattle.std.specs.Prelude.{◌≡◌, ◌≢◌, ◌++◌, ◌∷◌, ◌<◌, [], List, length, IfErr, IfOk, OnOk};
ghost use Rattle.list_parser.specs.declared.fault.BootFault.TheVariants.{NoMemory};
ghost use Rattle.budget_search.specs.NoBudgets.{IsSearchFault};
ghost use Rattle.own_model.specs.StartList.Kind.{Script as AScript};
ghost use Rattle.budget_search.specs.Alike.{given_in, own_entry};
ghost use Rattle.budget_search.specs.SessionAccounts.{AreSessionAccounts};
ghost use Rattle.budget_search.specs.OwnLines.{lines_as_written};
ghost use Rattle.budget_search.specs.declared.component_line.ComponentLine.{ComponentLine};
ghost use Rattle.budget_least.specs.ComponentAccounts.{AreAccountsOf, IsGiven, IsSessionsOf};
ghost use Rattle.budget_search.specs.declared.account_budgets.AccountBudgets.{AccountBudgets};
ghost use Rattle.budget_least.specs.ComponentLines.{AreWritten};
ghost use Rattle.budget_least.specs.LineDonations.{HoldsFor, sessions_in, sessions_of};

use crate::line_donations::LineDonations;
use crate::report::BudgetReport;
use budget_search::{AccountBudgets, ComponentLine, ScriptSearch, ScriptSessions, budget_of};
use list_parser::{BootFault, StartList};
use std::alloc::{AllocError, Global};

impl BudgetReport<'_> {
    ghost use Rattle.std.specs.Prelude.{◌≡◌, ◌+◌, ◌<◌, [], length, IfOk, OnOk, ◌≢◌, IfErr, ◌++◌, flat_map, false, true, List};
    ghost use Rattle.budget_least.specs.ComponentAccounts.{steps_at, AreSessionsFrom, IsSessionsOf};
    ghost use Rattle.list_parser.specs.declared.fault.BootFault.TheVariants.{NoMemory};
    ghost use Rattle.budget_search.specs.NoBudgets.{IsSearchFault};
    ghost use Rattle.budget_least.specs.ComponentLines.{lines_in, AreAllWritten};
    ghost use Rattle.budget_search.specs.declared.account_budgets.AccountBudgets.{AccountBudgets};
    ghost use Rattle.budget_least.specs.LineDonations.{AreAllDonated, HasDonations, HoldsFor, sessions_in, sessions_of};
    ghost use Rattle.budget_least.specs.ReportOf.{HasAccounts};

    /// Adds the accounts of all components, without what inits need. The lines donate what their sessions need before scripts' own
    /// accounts are measured, unless they donate what the scenario says.
    pub(crate) fn add_accounts(&mut self, alloc: Global, as_donated: bool) -> Result<(), BootFault>
        requires none { self.old.accounts.items ≡ [] }
        requires written { AreAllWritten self.old.scene.steps.items }
        ensures list { self.new.list ≡ self.old.list }
        ensures choice { self.new.choice ≡ self.old.choice }
        ensures unmeasured { OnOk result (self.new.scene.unmeasured ≡ self.old.scene.unmeasured) }
        ensures lines { OnOk result (lines_in self.new.scene ≡ lines_in self.old.scene) }
        ensures accounts { OnOk result
            (HasAccounts self.new (length self.new.list.now.entries)) }
        ensures donations { OnOk result (HasDonations as_donated self.new) }
        ensures fault { IfErr result (IsSearchFault self.old.list.now) }
    {
        let mut donations = LineDonations::new(alloc, self.choice);
        let scripts = self.sessions(alloc, &mut donations)?;
        self.donate(alloc, &donations, as_donated)?;
        self.add_components(alloc, scripts)?;
        Ok(())
    }

    // Returns what the sessions of each component need, and adds their lines' donations.
    fn sessions(
        &self,
        alloc: Global,
        donations: &mut LineDonations,
    ) -> Result<Vec<Option<ScriptSessions>>, BootFault>
        requires { AreAllWritten self.now.scene.steps.items }
        ensures sessions { IfOk result (λ scripts.
            AreSessionsFrom self.now.list.now self.now.scene.steps.items 0 scripts.items) }
        ensures count { IfOk result (λ scripts.
            length scripts.items ≡ length self.now.list.now.entries) }
        ensures holds { IfOk result (λ scripts. HoldsFor donations.old [] →
            HoldsFor donations.new (flat_map sessions_of scripts.items)) }
        ensures choice { donations.new.choice ≡ donations.old.choice }
        ensures fault { IfErr result (IsSearchFault self.now.list.now) }
    {
        let list = self.list;
        let mut scripts = Vec::new(alloc);
        for component in 0..list.count() {
            let script = sessions_of(alloc, list, component, self.scene.of(component))?;
            add_donations(donations, &script)?;
            scripts.push(script)?;
        }
        Ok(scripts)
    }

    // Sets the donations of the lines, unless they donate what the scenario says.
    fn donate(
        &mut self,
        alloc: Global,
        donations: &LineDonations,
        as_donated: bool,
    ) -> Result<(), BootFault>
        ensures list { self.new.list ≡ self.old.list }
        ensures choice { self.new.choice ≡ self.old.choice }
        ensures accounts { self.new.accounts ≡ self.old.accounts }
        ensures unmeasured { self.new.scene.unmeasured ≡ self.old.scene.unmeasured }
        ensures lines { OnOk result (lines_in self.new.scene ≡ lines_in self.old.scene) }
        ensures donated { as_donated ≡ false → OnOk result ((sessions : List AccountBudgets) →
            HoldsFor donations.now sessions → AreAllWritten self.old.scene.steps.items →
            AreAllDonated donations.now.choice sessions self.new.scene.steps.items) }
        ensures same { as_donated ≡ true → self.new ≡ self.old }
        ensures fault { IfErr result (λ fault. fault ≡ NoMemory) }
    {
        if as_donated {
            return Ok(());
        }
        self.scene.donate(alloc, donations)?;
        Ok(())
    }

    // Adds the accounts of the components, by what their sessions need.
    fn add_components(
        &mut self,
        alloc: Global,
        scripts: Vec<Option<ScriptSessions>>,
    ) -> Result<(), BootFault>
        requires sessions { AreSessionsFrom self.old.list.now self.old.scene.steps.items 0 scripts.items }
        requires count { length scripts.items ≡ length self.old.list.now.entries }
        requires none { self.old.accounts.items ≡ [] }
        ensures list { self.new.list ≡ self.old.list }
        ensures choice { self.new.choice ≡ self.old.choice }
        ensures scene { self.new.scene ≡ self.old.scene }
        ensures accounts { OnOk result
            (HasAccounts self.new (length self.new.list.now.entries)) }
        ensures added { OnOk result
            (sessions_in self.new.accounts.items ≡ flat_map sessions_of scripts.items) }
        ensures fault { IfErr result (IsSearchFault self.old.list.now) }
    {
        let _few = self.list.count();
        let mut component = 0;
        for script in scripts {
            self.add_component(alloc, component, script)?;
            component += 1;
        }
        Ok(())
    }

    // Adds the accounts of the next component.
    fn add_component(
        &mut self,
        alloc: Global,
        component: usize,
        sessions: Option<ScriptSessions>,
    ) -> Result<(), BootFault>
        requires there { component < length self.old.list.now.entries }
        requires sessions { IsSessionsOf self.old.list.now component
            (steps_at self.old.scene.steps.items component) sessions }
        requires before { HasAccounts self.old component }
        ensures list { self.new.list ≡ self.old.list }
        ensures choice { self.new.choice ≡ self.old.choice }
        ensures scene { self.new.scene ≡ self.old.scene }
        ensures accounts { OnOk result (HasAccounts self.new (component + 1)) }
        ensures added { OnOk result (sessions_in self.new.accounts.items
            ≡ sessions_in self.old.accounts.items ++ sessions_of sessions) }
        ensures fault { IfErr result (IsSearchFault self.old.list.now) }
    {
        let steps = self.scene.of(component);
        let accounts = accounts_of(alloc, self.list, component, steps, sessions)?;
        add_all(&mut self.accounts, accounts)?;
        Ok(())
    }
}

// Adds accounts to others.
fn add_all(accounts: &mut Vec<AccountBudgets>, more: Vec<AccountBudgets>) -> Result<(), AllocError>
    ensures { OnOk result (accounts.new.items ≡ accounts.old.items ++ more.items) }
{
    for account in more {
        accounts.push(account)?;
    }
    Ok(())
}

// Adds the donations of a component's lines, if it is a script.
fn add_donations(
    donations: &mut LineDonations,
    script: &Option<ScriptSessions>,
) -> Result<(), AllocError>
    ensures holds { OnOk result ((before : List AccountBudgets) → HoldsFor donations.old before →
        HoldsFor donations.new (before ++ sessions_of script.now)) }
    ensures choice { donations.new.choice ≡ donations.old.choice }
{
    match script {
        Some(script) => donations.add_all(script.accounts.as_slice()),
        None => Ok(()),
    }
}

// Returns what the sessions of a component need, if it is a script.
fn sessions_of(
    alloc: Global,
    list: &StartList,
    component: usize,
    steps: &[ComponentLine],
) -> Result<Option<ScriptSessions>, BootFault>
    requires there { component < length list.now.entries }
    requires written { AreWritten steps.now }
    ensures sessions { IfOk result (IsSessionsOf list.now component steps.now) }
    ensures fault { IfErr result (IsSearchFault list.now) }
{
    match ScriptSearch::of(list, component) {
        Some(search) => {
            let sessions = search.sessions(alloc, steps)?;
            Ok(Some(sessions))
        }
        None => Ok(None),
    }
}

// Returns the accounts of a component, the sessions of a script before its own.
fn accounts_of(
    alloc: Global,
    list: &StartList,
    component: usize,
    steps: &[ComponentLine],
    sessions: Option<ScriptSessions>,
) -> Result<Vec<AccountBudgets>, BootFault>
    requires there { component < length list.now.entries }
    requires sessions { IsSessionsOf list.now component steps.now sessions }
    ensures accounts { IfOk result (λ accounts. AreAccountsOf list.now component steps.now accounts.items) }
    ensures sessions { IfOk result (λ accounts. sessions_in accounts.items ≡ sessions_of sessions) }
    ensures fault { IfErr result (IsSearchFault list.now) }
{
    let Some(sessions) = sessions else {
        return server_accounts(alloc, list, component);
    };
    match ScriptSearch::of(list, component) {
        Some(search) => script_accounts(alloc, &search, steps, sessions),
        None => server_accounts(alloc, list, component),
    }
}

// Returns the accounts of a script: those of its sessions, and its own.
fn script_accounts(
    alloc: Global,
    search: &ScriptSearch<'_>,
    steps: &[ComponentLine],
    sessions: ScriptSessions,
) -> Result<Vec<AccountBudgets>, BootFault>
    requires given { IsGiven search.now }
    requires sessions { AreSessionAccounts search.now.list.now search.now.component steps.now
        sessions.accounts.items }
    requires refused { sessions.given.refused
        ≡ (lines_as_written search.now.list.now search.now.component steps.now
        (given_in search.now.list.now search.now.component)).refused }
    ensures accounts { IfOk result (λ accounts.
        AreAccountsOf search.now.list.now search.now.component steps.now accounts.items) }
    ensures sessions { IfOk result (λ accounts.
        sessions_in accounts.items ≡ sessions.accounts.items) }
    ensures fault { IfErr result (IsSearchFault search.now.list.now) }
{
    let own = search.own(alloc, steps, &sessions.given)?;
    let mut accounts = sessions.accounts;
    accounts.push(own)?;
    Ok(accounts)
}

// Returns the own account of a component that makes no calls.
fn server_accounts(
    alloc: Global,
    list: &StartList,
    component: usize,
) -> Result<Vec<AccountBudgets>, BootFault>
    requires there { component < length list.now.entries }
    requires other { (own_entry list.now component).kind ≢ AScript }
    ensures accounts { IfOk result (λ accounts. (steps : List ComponentLine) →
        AreAccountsOf list.now component steps accounts.items) }
    ensures sessions { IfOk result (λ accounts. sessions_in accounts.items ≡ []) }
    ensures fault { IfErr result (λ fault. fault ≡ NoMemory) }
{
    let given = budget_of(&list.entries()[component]);
    let idle = AccountBudgets::idle(alloc, component, given)?;
    let accounts = alone(alloc, idle)?;
    Ok(accounts)
}

// Returns one account alone.
fn alone(alloc: Global, account: AccountBudgets) -> Result<Vec<AccountBudgets>, AllocError>
    ensures { IfOk result (λ accounts. accounts.items ≡ account ∷ []) }
{
    let mut accounts = Vec::new(alloc);
    accounts.push(account)?;
    Ok(accounts)
}
