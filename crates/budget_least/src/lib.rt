//! The budgets that the accounts of a scenario need: every budget under which none of an account's calls is short of quota.
//!
//! `cli_budgets` and `cli_lists` call it. For example `BudgetReport::of(alloc, question, start)?.accounts()` has the intervals of
//! sufficient budgets of each account.
#![tactic(auto)]

mod binding_run;
mod changed_line;
mod judged_run;
mod line_donations;
mod lines_by_component;
mod machine_size;
mod member_values;
mod report;
mod report_accounts;
mod unmeasured_line;
mod written_donation;
mod written_list;
mod written_scenario;

pub use budget_meter::Budget;
pub use budget_search::{
    AccountBudgets, BudgetChoice, BudgetGap, BudgetInterval, GivenBudget, Likeness, RefusedLine,
    SessionKey, Shortage, SkippedLine,
};
pub use judged_run::JudgeFault;
pub use machine_size::MachineSize;
pub use report::{BudgetQuery, BudgetReport};
pub use unmeasured_line::{UnmeasuredLine, UnmeasuredReason, UnmeasuredWords};
