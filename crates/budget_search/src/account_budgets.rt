//! The budgets of one account.

ghost use Rattle.std.specs.Prelude.{◌≡◌, ◌↔◌, IsTrue, IfOk, OnOk};
ghost use Rattle.std.specs.Option.{option_map};
ghost use Rattle.own_model.specs.Amounts.{Amounts};
ghost use Rattle.budget_meter.specs.Needs.{amounts_of};
ghost use Rattle.budget_search.specs.BudgetIntervals.{chosen_of, lowest_of, safe_of, serves, AreOrdered};
ghost use Rattle.budget_search.specs.AccountNeeds.{need_rows, IsChanged, IsIdle};
ghost use Rattle.budget_search.specs.SessionAccounts.{IsAlike};
ghost use Rattle.budget_search.specs.Sufficient.{HasLeast, HasSafe};

use crate::budget_intervals::{BudgetChoice, BudgetGap, BudgetInterval, BudgetIntervals, Likeness};
use crate::trial::{RefusedLine, SkippedLine};
use budget_meter::Budget;
use std::alloc::{AllocError, Global};

/// A session, as its client names it.
#[derive(Clone, Copy, PartialEq, Eq)]
pub struct SessionKey {
    /// The selector of the session.
    pub selector: u64,
    /// The number of the line that opens the session, from 1 on.
    pub line: u64,
}

/// The given budget, and the first line that is short of quota under it.
#[derive(Clone, Copy, PartialEq, Eq)]
pub struct GivenBudget {
    /// The given budget, in bytes and capabilities.
    pub budget: Budget,
    /// The first line that is short of quota, if there is one.
    pub refused: Option<RefusedLine>,
}

/// The budgets that an account needs.
#[derive(Drop)]
pub struct AccountBudgets {
    /// The number of the component in the start list.
    pub component: usize,
    /// The session of the account, unless it is the component's own account.
    pub session: Option<SessionKey>,
    /// The number of sessions that its line opens and that have these budgets: 1 for a component's own account.
    pub count: u64,
    /// The given budget.
    pub given: GivenBudget,
    /// The reserve of the component, in addition to its account.
    pub reserve: Budget,
    /// The budgets that suffice.
    pub found: BudgetIntervals,
}

impl AccountBudgets {
    /// Returns the account of a component that makes no calls, and needs nothing. The error is that the host is out of memory.
    pub fn idle(
        alloc: Global,
        component: usize,
        given: Budget,
    ) -> Result<AccountBudgets, AllocError>
        ensures { IfOk result (IsIdle component (amounts_of given)) }
    {
        let rows = rows_from(alloc, Some(Budget { ram: 0, caps: 0 }))?;
        Ok(AccountBudgets {
            component,
            session: None,
            count: 1,
            given: GivenBudget {
                budget: given,
                refused: None,
            },
            reserve: Budget { ram: 0, caps: 0 },
            found: BudgetIntervals {
                rows,
                holes: Vec::new(alloc),
                left_out: Vec::new(alloc),
                refused: None,
            },
        })
    }

    /// Sets what the account needs for others, if it is one of this component; without a budget no budget is sufficient. The error
    /// is that the host is out of memory.
    pub fn need(
        &mut self,
        alloc: Global,
        component: usize,
        needed: Option<Budget>,
    ) -> Result<(), AllocError>
        ensures { OnOk result
            (IsChanged component (option_map amounts_of needed) self.old self.new) }
    {
        if self.component != component {
            return Ok(());
        }
        let rows = rows_from(alloc, needed)?;
        self.found.rows = rows;
        Ok(())
    }

    /// Returns the number of the component in the start list.
    pub fn component(&self) -> usize
        ensures { result ≡ self.now.component }
    {
        self.component
    }

    /// Returns the session of the account, or nothing if it is the component's own account.
    pub fn session(&self) -> Option<SessionKey>
        ensures { result ≡ self.now.session }
    {
        self.session
    }

    /// Returns the number of sessions that one line opens and that have these budgets; 1 for a component's own account.
    pub fn count(&self) -> u64
        ensures { result ≡ self.now.count }
    {
        self.count
    }

    /// Returns whether two sessions are opened by one line and alike in all that a report has of them, except their selectors.
    pub(crate) fn is_alike(&self, other: &AccountBudgets) -> bool
        ensures { IsTrue result ↔ IsAlike self.now other.now }
    {
        let (Some(one), Some(two)) = (self.session, other.session) else {
            return false;
        };
        one.line == two.line
            && self.component == other.component
            && self.given == other.given
            && self.found.is_alike(&other.found)
    }

    /// Returns the given budget, and the first line that is short of quota under it.
    pub fn given(&self) -> GivenBudget
        ensures { result ≡ self.now.given }
    {
        self.given
    }

    /// Returns the intervals of budgets under which the account isn't short of quota, from the lowest RAM on.
    pub fn rows(&self) -> &[BudgetInterval]
        ensures { result.now ≡ self.now.found.rows.items }
    {
        self.found.rows.as_slice()
    }

    /// Returns the ranges of RAM between the intervals, from the lowest RAM on.
    pub fn holes(&self) -> &[BudgetGap]
        ensures { result.now ≡ self.now.found.holes.items }
    {
        self.found.holes.as_slice()
    }

    /// Returns the lines that are left out, since their refusal is expected.
    pub fn left_out(&self) -> &[SkippedLine]
        ensures { result.now ≡ self.now.found.left_out.items }
    {
        self.found.left_out.as_slice()
    }

    /// Returns the minimum RAM under which the account isn't short of quota, with the capabilities that it needs there.
    pub fn least(&self) -> Option<Budget>
        ensures value { option_map amounts_of result ≡ lowest_of self.now.found.rows.items }
        ensures least { (most : Amounts) →
            AreOrdered most.caps most.ram self.now.found.rows.items →
            HasLeast (serves self.now.found.rows.items) most (option_map amounts_of result) }
    {
        self.found.least()
    }

    /// Returns the lowest RAM from which on no budget is short of quota that has the capabilities returned with it, and no fewer.
    pub fn safe(&self) -> Option<Budget>
        ensures value { option_map amounts_of result ≡ safe_of self.now.found.rows.items }
        ensures safe { (most : Amounts) →
            AreOrdered most.caps most.ram self.now.found.rows.items →
            HasSafe (serves self.now.found.rows.items) most (option_map amounts_of result) }
    {
        self.found.safe()
    }

    /// Returns the budget that is written by a choice.
    pub fn chosen(&self, choice: BudgetChoice) -> Option<Budget>
        ensures { option_map amounts_of result ≡ chosen_of choice self.now.found.rows.items }
    {
        self.found.chosen(choice)
    }
}

// Returns the intervals of an account that needs so much for others: one without an end, or none.
fn rows_from(alloc: Global, needed: Option<Budget>) -> Result<Vec<BudgetInterval>, AllocError>
    ensures { IfOk result (λ rows. rows.items ≡ need_rows (option_map amounts_of needed)) }
{
    let mut rows = Vec::new(alloc);
    if let Some(needed) = needed {
        rows.push(BudgetInterval {
            ram_from: needed.ram,
            ram_below: None,
            caps_from: needed.caps,
            likeness: Likeness::Same,
        })?;
    }
    Ok(rows)
}
