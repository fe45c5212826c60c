//! Searches for the budgets of one account: every budget under which none of its calls is short of quota, from a few runs.
//!
//! `budget_least` calls it for each account of a scenario. For example `ScriptSearch::of(list, component)` is the search for the
//! budgets of a script, and `search.own(alloc, lines, given)?` has the intervals of budgets that suffice for its own account.
#![tactic(auto)]

mod account_budgets;
mod ample_client;
mod budget_intervals;
mod component_line;
mod donation;
mod funded_list;
mod line_numbers;
mod opened_sessions;
mod own_run;
mod own_trials;
mod script_search;
mod session_accounts;
mod session_client;
mod session_intervals;
mod session_trial;
mod trial;

pub use account_budgets::{AccountBudgets, GivenBudget, SessionKey};
pub use ample_client::AmpleClient;
pub use budget_intervals::{BudgetChoice, BudgetGap, BudgetInterval, BudgetIntervals, Likeness};
pub use component_line::ComponentLine;
pub use funded_list::{LARGEST, ample, funded, most_of};
pub use init_core::{RouteTable, boot, route};
pub use line_numbers::LineNumbers;
pub use script_search::{ScriptSearch, ScriptSessions, budget_of};
pub use trial::{BudgetTrial, RefusedLine, SHORTAGES, Shortage, SkippedLine};
