//! What all accounts of a scenario need.
ghost use Rattle.std.specs.Prelude.{◌≡◌, ◌≢◌, ◌+◌, ◌<◌, ℕ, true, false, [], length, suc, IfErr, IfOk, OnOk};
ghost use Rattle.list_parser.specs.declared.fault.BootFault.TheVariants.{NoMemory};
ghost use Rattle.budget_search.specs.NoBudgets.{IsSearchFault};
ghost use Rattle.std.specs.List.{list_all};
ghost use Rattle.std.specs.Option.{option_map};
ghost use Rattle.own_model.specs.Amounts.{more_of};
ghost use Rattle.budget_meter.specs.Needs.{amounts_of};
ghost use Rattle.budget_least.specs.Report.{accounts_of, list_of, sum_of, unmeasured_of, HasSmallestMachine};
ghost use Rattle.line_steps.specs.RunPosition.{RunPosition};
ghost use Rattle.budget_least.specs.ComponentLines.{numbers_in, AreAllWritten, HasRead};
ghost use Rattle.budget_least.specs.ReportOf.{first_budgets, AreFilledBy, AreUnsettledIf, HaveKept, IsDraft, IsDraftAt, IsReportIf, IsReportOf};
ghost use Rattle.budget_least.specs.declared.binding_run.BindingBudgets.{BindingBudgets};
ghost use Rattle.budget_least.specs.InitNeeds.{capped, is_entry_of, need_of, needed_below, sum_with, AreChanged, AreNeeded, AreNeededFrom};
ghost use Rattle.budget_least.specs.WrittenList.{has_budget, IsResized, IsWritten, LacksList};
ghost use Rattle.budget_least.specs.WrittenScenario.{scenario_of};

use crate::binding_run::BindingBudgets;
use crate::lines_by_component::{LinesByComponent, has_names};
use crate::machine_size::MachineSize;
use crate::unmeasured_line::UnmeasuredLine;
use crate::written_list::{ListSizes, has_budget, has_size, size_of, test_boot};
use crate::written_scenario::scenario_with;
use budget_meter::Budget;
use budget_search::{AccountBudgets, BudgetChoice};
use line_steps::RunPosition;
use list_parser::{BootFault, ConfigField, StartList};
use std::alloc::{AllocError, Global};

/// The number of the last draft: the lines of a report are measured again at most so many times.
const LAST_DRAFT: usize = 7;

/// A question: a start list, the text of a scenario, which budgets are written, and whether sessions get what the scenario donates
/// in place of these.
#[derive(Clone, Copy)]
pub struct BudgetQuery<'a> {
    /// The start list.
    pub list: &'a StartList,
    /// The scenario, with its rounds unfolded.
    pub scenario: &'a [u8],
    /// Whether the minimum or the safe budget of each account is written.
    pub choice: BudgetChoice,
    /// Whether sessions keep the scenario's donations. Otherwise they get the budgets that are written.
    pub as_donated: bool,
}

impl BudgetQuery<'_> {
    // Returns the budgets of the first run that binds names.
    fn ample(self) -> BindingBudgets<'static>
        ensures { result ≡ first_budgets self.entry }
    {
        if self.as_donated {
            BindingBudgets::AsDonated
        } else {
            BindingBudgets::Ample
        }
    }

    // Returns the lines of the scenario, with the names that a run from the start with these budgets binds.
    fn lines(
        self,
        alloc: Global,
        start: &RunPosition<'_>,
        budgets: BindingBudgets<'_>,
    ) -> Result<LinesByComponent, BootFault>
        ensures read { IfOk result
            (HasRead self.entry.list.now self.entry.scenario.now start.now budgets.entry) }
        ensures written { IfOk result (λ lines. AreAllWritten lines.steps.items) }
        ensures fault { IfErr result (IsSearchFault self.entry.list.now) }
    {
        let start = start.copy(alloc)?;
        LinesByComponent::read(alloc, self.list, self.scenario, start, budgets)
    }
}

/// The budgets that each account of a scenario needs: the components in the order of the start list, the sessions of each before
/// its own account.
#[derive(Drop)]
pub struct BudgetReport<'a> {
    pub(crate) list: &'a StartList,
    pub(crate) choice: BudgetChoice,
    pub(crate) accounts: Vec<AccountBudgets>,
    pub(crate) scene: LinesByComponent,
}

impl<'a> BudgetReport<'a> {
    /// Returns the answer to a question. Names denote the given values, and those that a run from the start with the budgets that
    /// are written binds.
    /// The list needn't boot. Fails with `QuotaExceeded` if the largest machine doesn't have a script's own budget in addition to the
    /// script's reserve, with `BadConfig start` if it doesn't have what the script donates for a session in addition to the reserve,
    /// and with `NoMemory` if the host is out of memory.
    pub fn of(
        alloc: Global,
        question: BudgetQuery<'a>,
        start: RunPosition<'_>,
    ) -> Result<BudgetReport<'a>, BootFault>
        ensures report { IfOk result (IsReportOf question.entry start.entry) }
        ensures needed { IfOk result (λ report.
            AreNeeded report.choice report.list.now report.accounts.items) }
        ensures fault { IfErr result (IsSearchFault question.entry.list.now) }
    {
        let mut report = BudgetReport::first(alloc, question, &start)?;
        if !has_names(question.scenario) {
            return Ok(report);
        }
        report.settle(alloc, question, &start)?;
        Ok(report)
    }

    // Returns the first draft of a report.
    fn first(
        alloc: Global,
        question: BudgetQuery<'a>,
        start: &RunPosition<'_>,
    ) -> Result<BudgetReport<'a>, BootFault>
        ensures draft { IfOk result (λ report.
            IsDraftAt question.entry start.now 0 (numbers_in report.scene) report) }
        ensures fault { IfErr result (IsSearchFault question.entry.list.now) }
    {
        let lines = question.lines(alloc, start, question.ample())?;
        let report = BudgetReport::with(alloc, question, lines)?;
        Ok(report)
    }

    // Returns the report on these lines.
    fn with(
        alloc: Global,
        question: BudgetQuery<'a>,
        lines: LinesByComponent,
    ) -> Result<BudgetReport<'a>, BootFault>
        requires { AreAllWritten lines.steps.items }
        ensures draft { IfOk result (λ report. (start : RunPosition) (budgets : BindingBudgets) →
            HasRead question.entry.list.now question.entry.scenario.now start budgets lines →
            IsDraft question.entry start budgets (numbers_in report.scene) report) }
        ensures fault { IfErr result (IsSearchFault question.entry.list.now) }
    {
        let mut report = BudgetReport {
            list: question.list,
            choice: question.choice,
            accounts: Vec::new(alloc),
            scene: lines,
        };
        report.add_accounts(alloc, question.as_donated)?;
        report.sum_inits(alloc)?;
        Ok(report)
    }

    // Measures the lines again as a run with the budgets that are written fills them, until they stay the same. Lines that still change
    // aren't measured.
    fn settle(
        &mut self,
        alloc: Global,
        question: BudgetQuery<'a>,
        start: &RunPosition<'_>,
    ) -> Result<(), BootFault>
        requires { IsDraftAt question start.now 0 (numbers_in self.old.scene) self.old }
        ensures report { OnOk result (IsReportIf true question.entry start.now self.new) }
        ensures fault { IfErr result (IsSearchFault question.entry.list.now) }
    {
        for number in 0..LAST_DRAFT {
            if self.settles(alloc, question, start)? {
                return Ok(());
            }
        }
        self.leave_unsettled(alloc, question, start)?;
        Ok(())
    }

    // Measures the lines again as a run with the budgets that are written fills them, unless they stay the same, and returns whether
    // they do.
    fn settles(
        &mut self,
        alloc: Global,
        question: BudgetQuery<'a>,
        start: &RunPosition<'_>,
    ) -> Result<bool, BootFault>
        ensures same { IfOk result (λ settles. settles ≡ true → self.new ≡ self.old) }
        ensures settled { IfOk result (λ settles. settles ≡ true →
            AreUnsettledIf true question.entry start.now self.old []) }
        ensures next { IfOk result (λ settles. settles ≡ false → (number : ℕ) →
            IsDraftAt question.entry start.now number (numbers_in self.old.scene) self.old →
            IsDraftAt question.entry start.now (number + 1) (numbers_in self.new.scene) self.new) }
        ensures fault { IfErr result (IsSearchFault question.entry.list.now) }
    {
        let lines = self.filled(alloc, question, start)?;
        let changed = self.scene.changed(alloc, &lines)?;
        if changed.is_empty() {
            return Ok(true);
        }
        let report = BudgetReport::with(alloc, question, lines)?;
        *self = report;
        Ok(false)
    }

    // Adds the lines that a run with the budgets that are written fills otherwise to those that aren't measured.
    fn leave_unsettled(
        &mut self,
        alloc: Global,
        question: BudgetQuery<'a>,
        start: &RunPosition<'_>,
    ) -> Result<(), BootFault>
        ensures report { OnOk result ((number : ℕ) → number < 8 →
            IsDraftAt question.entry start.now number (numbers_in self.old.scene) self.old →
            IsReportIf true question.entry start.now self.new) }
        ensures fault { IfErr result (IsSearchFault question.entry.list.now) }
    {
        let lines = self.filled(alloc, question, start)?;
        let changed = self.scene.changed(alloc, &lines)?;
        self.scene.leave_changed(alloc, changed.as_slice())?;
        Ok(())
    }

    // Returns the lines as a run with the budgets that are written fills them.
    fn filled(
        &self,
        alloc: Global,
        question: BudgetQuery<'a>,
        start: &RunPosition<'_>,
    ) -> Result<LinesByComponent, BootFault>
        ensures filled { IfOk result (AreFilledBy question.entry start.now self.now) }
        ensures written { IfOk result (λ lines. AreAllWritten lines.steps.items) }
        ensures fault { IfErr result (IsSearchFault question.entry.list.now) }
    {
        let accounts = self.accounts.as_slice();
        let steps = self.scene.steps.as_slice();
        let chosen = BindingBudgets::Chosen {
            choice: self.choice,
            accounts,
            steps,
        };
        let lines = question.lines(alloc, start, chosen)?;
        Ok(lines)
    }

    // Gives the accounts of inits what their lists need, those of the innermost init first.
    fn sum_inits(&mut self, alloc: Global) -> Result<(), AllocError>
        ensures list { self.new.list ≡ self.old.list }
        ensures choice { self.new.choice ≡ self.old.choice }
        ensures scene { self.new.scene ≡ self.old.scene }
        ensures accounts { OnOk result (HaveKept self.old self.new) }
        ensures needed { OnOk result
            (AreNeeded self.new.choice self.new.list.now self.new.accounts.items) }
    {
        let mut place = self.list.count();
        while place > 0 {
            place -= 1;
            self.sum_init(alloc, place)?;
        }
        Ok(())
    }

    // Gives the accounts of the component at a place what its list needs, if it is an init.
    fn sum_init(&mut self, alloc: Global, place: usize) -> Result<(), AllocError>
        requires { place < length self.old.list.now.entries }
        ensures list { self.new.list ≡ self.old.list }
        ensures choice { self.new.choice ≡ self.old.choice }
        ensures scene { self.new.scene ≡ self.old.scene }
        ensures accounts { OnOk result (HaveKept self.old self.new) }
        ensures needed { OnOk result (AreNeededFrom (suc place) self.old.choice self.old.list.now
            self.old.accounts.items →
            AreNeededFrom place self.new.choice self.new.list.now self.new.accounts.items) }
    {
        if !self.list.is_init(place) {
            return Ok(());
        }
        let _parent = self.list.home(place);
        let _few = self.list.count();
        let needed = self.needed_below(place + 1);
        self.set_need(alloc, place, needed)?;
        Ok(())
    }

    // Sets what the accounts of a component need for others.
    fn set_need(
        &mut self,
        alloc: Global,
        component: usize,
        needed: Option<Budget>,
    ) -> Result<(), AllocError>
        ensures list { self.new.list ≡ self.old.list }
        ensures choice { self.new.choice ≡ self.old.choice }
        ensures scene { self.new.scene ≡ self.old.scene }
        ensures changed { OnOk result (AreChanged component (option_map amounts_of needed)
            self.old.accounts.items self.new.accounts.items) }
    {
        for at in 0..self.accounts.len() {
            self.accounts[at].need(alloc, component, needed)?;
        }
        Ok(())
    }

    // Returns the need of an init's list, by the init's number: what its entries need together with their reserves.
    fn needed_below(&self, init: usize) -> Option<Budget>
        ensures { option_map amounts_of result ≡ option_map capped
            (needed_below self.now.choice self.now.list.now init self.now.accounts.items) }
    {
        let accounts = self.accounts.as_slice();
        let mut sum = Budget { ram: 0, caps: 0 };
        for account in accounts {
            match self.sum_with(init, sum, account) {
                Some(next) => sum = next,
                None => return None,
            }
        }
        Some(sum)
    }

    // Adds what an account needs to a sum, if it is that of an entry of an init's list.
    fn sum_with(&self, init: usize, sum: Budget, account: &AccountBudgets) -> Option<Budget>
        ensures { option_map amounts_of result
            ≡ sum_with self.now.choice self.now.list.now init (amounts_of sum) account.now }
    {
        if self.is_entry_of(account, init) {
            with_need(sum, account, self.choice)
        } else {
            Some(sum)
        }
    }

    // Returns whether an account is that of an entry of an init's list, by the init's number, and not of a session.
    fn is_entry_of(&self, account: &AccountBudgets, init: usize) -> bool
        ensures { result ≡ is_entry_of self.now.list.now init account.now }
    {
        match self.list.entries().get(account.component) {
            Some(entry) => account.session.is_none() && entry.home() == init,
            None => false,
        }
    }

    /// Returns what the machine's init hands out in all: what the entries of its list need together, with their reserves. Returns
    /// nothing if no budget suffices for one of them.
    pub fn sum(&self) -> Option<Budget>
        ensures { option_map amounts_of result ≡ sum_of self.now }
    {
        self.needed_below(0)
    }

    /// Returns the smallest machine on which a list with the budgets that are written boots, if there is one.
    pub fn machine(&self) -> Option<MachineSize>
        ensures { HasSmallestMachine (sum_of self.now) result }
    {
        match self.sum() {
            Some(sum) => MachineSize::covering(sum),
            None => None,
        }
    }

    /// Returns the lines of the scenario that aren't measured, in the order in which the run comes to them.
    pub fn unmeasured(&self) -> &[UnmeasuredLine]
        ensures { result.now ≡ unmeasured_of self.now }
    {
        self.scene.unmeasured.as_slice()
    }

    /// Returns the accounts, the sessions of each component before its own account.
    pub fn accounts(&self) -> &[AccountBudgets]
        ensures { result.now ≡ accounts_of self.now }
    {
        self.accounts.as_slice()
    }

    /// Returns the start list.
    pub fn list(&self) -> &'a StartList
        ensures { result.now ≡ list_of self.now }
    {
        self.list
    }

    /// Returns the text of a start list from which the report's was read, with its budgets in place. Every other byte stays. The
    /// machine is as large as the budgets ask, and no smaller than it was; if no machine is large enough, it stays.
    ///
    /// Refuses as `StartList::read` if the text with the budgets is no start list, for example with `BadConfig size` if it is too
    /// long. Then refuses with `BadConfig start` if the text isn't the report's. If a machine is large enough, the list with the
    /// budgets boots; otherwise refuses with the fault of the boot.
    pub fn start_list(&self, alloc: Global, text: &[u8]) -> Result<Vec<u8>, BootFault>
        ensures written { IfOk result (λ written. IsWritten self.now text.now written.items) }
        ensures fault { IfErr result
            (λ fault. fault ≢ NoMemory → LacksList self.now text.now fault) }
    {
        let machine = self.machine();
        let size = size_of(self.list, machine);
        let written = self.list_with(alloc, text, size)?;
        let list = StartList::read(alloc, written.as_slice())?;
        if self.has_budgets(&list) && has_size(&list, size) {
            test_boot(alloc, &list, machine.is_some())?;
            Ok(written)
        } else {
            Err(BootFault::BadConfig(ConfigField::Start))
        }
    }

    // Returns the text of a start list with the report's budgets on a machine of a size.
    fn list_with(
        &self,
        alloc: Global,
        text: &[u8],
        size: MachineSize,
    ) -> Result<Vec<u8>, AllocError>
        ensures { IfOk result (λ written. IsResized text.now written.items) }
    {
        let mut sizes = ListSizes::none(alloc, self.list)?;
        for account in self.accounts.as_slice() {
            if let (None, Some(budget)) = (account.session, account.chosen(self.choice)) {
                sizes.add_budget(alloc, self.list, account.component, budget)?;
            }
        }
        sizes.add_machine(alloc, self.list, size)?;
        sizes.text(alloc, text)
    }

    // Returns whether the entries of a list have the report's budgets.
    fn has_budgets(&self, list: &StartList) -> bool
        ensures { result ≡ list_all (has_budget list.now self.now.choice) self.now.accounts.items }
    {
        self.accounts
            .iter()
            .all(|account| has_budget(list, self.choice, account))
    }

    /// Returns the text of the report's scenario, with the donations that were measured. A line of a round donates the same in each
    /// iteration. The error is that the host is out of memory.
    pub fn scenario(&self, alloc: Global, text: &[u8]) -> Result<Vec<u8>, AllocError>
        ensures { IfOk result (λ written. written.items ≡ scenario_of self.now text.now) }
    {
        scenario_with(alloc, text, self.scene.steps.as_slice())
    }
}

// Adds what an account needs with its reserve to a sum.
fn with_need(sum: Budget, account: &AccountBudgets, choice: BudgetChoice) -> Option<Budget>
    ensures { option_map amounts_of result
        ≡ option_map (λ need. capped (more_of (amounts_of sum) need)) (need_of choice account.now) }
{
    let (budget, reserve) = (account.chosen(choice)?, account.reserve);
    Some(Budget {
        ram: sum
            .ram
            .saturating_add(budget.ram)
            .saturating_add(reserve.ram),
        caps: sum
            .caps
            .saturating_add(budget.caps)
            .saturating_add(reserve.caps),
    })
}
