//! Policies: lines that state which scripts of a start list may reach which servers, and the breaches of these lines. `check` and
//! `test` read a policy by `Policy::read`. They ask each line for its `breaches`, as `for line in policy.lines() { let breaches =
//! line.breaches(alloc, &list)?; .. }`.
#![tactic(auto)]

mod breach;
mod breach_text;
mod budget;
mod components;
mod cuts;
mod demand;
mod fault;
mod pairs;
mod policy_text;
mod statement;
mod status;

pub use breach::{Breach, ReachBreach};
pub use breach_text::BreachText;
pub use components::NamedKind;
pub use demand::{BudgetLimit, Demand, LabelRange, PolicyLine};
pub use fault::{PolicyFault, PolicyFlaw};
pub use pairs::PairCount;
pub use policy_text::Policy;
pub use status::exit_status;
