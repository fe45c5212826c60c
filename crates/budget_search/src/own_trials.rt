//! Runs of a script's own calls from any budget.
ghost use Rattle.std.specs.Prelude.{◌≡◌, ◌≢◌, ◌<◌, ◌^◌, length, is_some, IfErr, IfOk};
ghost use Rattle.list_parser.specs.declared.fault.BootFault.TheVariants.{NoMemory};
ghost use Rattle.budget_search.specs.NoBudgets.{IsUnbooted};
ghost use Rattle.own_model.specs.StartList.{Entry};
ghost use Rattle.own_model.specs.StartList.Kind.{Script};
ghost use Rattle.budget_meter.specs.Needs.{amounts_of};
ghost use Rattle.budget_meter.specs.Run.{Shows};
ghost use Rattle.budget_search.specs.Alike.{own_entry, own_state};
ghost use Rattle.budget_search.specs.BudgetIntervals.{AreOrdered, FailsWithin, HasRunLines};
ghost use Rattle.budget_search.specs.Own.{AreExact, AreOwnRuns};
ghost use Rattle.budget_search.specs.OwnLines.{lines_from};
ghost use Rattle.budget_search.specs.RunLines.{lines_in};
ghost use Rattle.budget_search.specs.Steps.{any_left_out, calls_of};

use crate::budget_intervals::{BudgetIntervals, BudgetTrials};
use crate::component_line::ComponentLine;
use crate::funded_list::funded;
use crate::trial::BudgetTrial;
use budget_meter::Budget;
use list_parser::{BootFault, StartList};
use std::alloc::Global;

/// The run of a script's lines from a budget, on the largest machine, on which it alone has one.
pub(crate) fn funded_trial(
    alloc: Global,
    list: &StartList,
    component: usize,
    steps: &[ComponentLine],
    budget: Budget,
) -> Result<BudgetTrial, BootFault>
    requires there { component < length list.now.entries }
    requires few { budget.caps < 2 ^ 32 }
    ensures shows { IfOk result (λ trial. (own_entry list.now component).kind ≡ Script →
        Shows (own_entry list.now component) (calls_of steps.now) (own_state list.now component)
        (amounts_of budget) (is_some trial.refused) trial.meter) }
    ensures lines { IfOk result (λ trial. (own_entry list.now component).kind ≡ Script →
        lines_in trial ≡ lines_from list.now component steps.now (amounts_of budget)) }
    ensures fault { IfErr result (λ fault. fault ≢ NoMemory →
        IsUnbooted list.now component (amounts_of budget) fault) }
{
    let machine = funded(alloc, list, component, budget)?;
    let trial = BudgetTrial::of_account(alloc, &machine, component, steps, budget)?;
    Ok(trial)
}

/// Returns exactly the budgets, up to the largest, under which none of a script's calls is short of quota.
pub(crate) fn own_rows(
    alloc: Global,
    list: &StartList,
    component: usize,
    steps: &[ComponentLine],
    most: Budget,
    given: Option<&[u8]>,
) -> Result<BudgetIntervals, BootFault>
    requires there { component < length list.now.entries }
    requires few { most.caps < 2 ^ 32 }
    ensures exact { IfOk result (λ found. (own_entry list.now component).kind ≡ Script →
        AreExact list.now component steps.now most.caps most.ram found.rows.items) }
    ensures ordered { IfOk result (λ found. (own_entry list.now component).kind ≡ Script →
        AreOrdered most.caps most.ram found.rows.items) }
    ensures lines { IfOk result (λ found. (own_entry list.now component).kind ≡ Script →
        HasRunLines (lines_from list.now component steps.now) (amounts_of most) found) }
    ensures fault { IfErr result (λ fault. fault ≢ NoMemory →
        (own_entry list.now component).kind ≡ Script →
        FailsWithin (λ ram its. IsUnbooted list.now component (record { ram = ram; caps = most.caps }) its)
        most.ram fault) }
{
    let mut trials = OwnTrials {
        caps: most.caps,
        list,
        component,
        steps,
    };
    let found = BudgetIntervals::of(alloc, &mut trials, most.ram, given)?;
    Ok(found)
}

// Runs of a script's own account, each with the same capabilities.
#[derive(Drop)]
struct OwnTrials<'a> {
    caps: u64,
    list: &'a StartList,
    component: usize,
    steps: &'a [ComponentLine],
    ghost there: { component < length list.now.entries },
    ghost few: { caps < 2 ^ 32 },
}

impl BudgetTrials for OwnTrials<'_> {
    ghost caps = { λ trials. trials.caps };

    ghost Rest = { Entry };

    ghost rest = { λ trials. own_entry trials.list.now trials.component };

    ghost AreRuns = { λ trials each want.
        AreOwnRuns trials.list.now trials.component trials.steps.now each want };

    ghost AreLines = { λ trials lines.
        ((own_entry trials.list.now trials.component).kind ≡ Script)
        × (lines ≡ lines_from trials.list.now trials.component trials.steps.now) };

    ghost fails = { λ trials ram fault.
        IsUnbooted trials.list.now trials.component (record { ram = ram; caps = trials.caps }) fault };

    fn run(&mut self, alloc: Global, ram: u64) -> Result<BudgetTrial, BootFault> {
        let caps = self.caps;
        let budget = Budget { ram, caps };
        let trial = funded_trial(alloc, self.list, self.component, self.steps, budget)?;
        Ok(trial)
    }

    fn leaves_out(&self) -> bool {
        any_left_out(self.steps)
    }
}

// Returns whether a line is left out.
fn any_left_out(steps: &[ComponentLine]) -> bool
    ensures { result ≡ any_left_out steps.now }
{
    steps.iter().any(|step| step.is_left_out)
}
