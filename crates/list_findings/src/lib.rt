//! Findings: parts of a start list that boots which are probably not intended. Examples are rules that decide nothing, members
//! that nothing reads, and budgets that are insufficient for a session. `list_review` calls it for `check`.
//!
//! ```text
//! start[2] alice: route[1]: unreachable rule: rule [0] of this list decides each of its requests first
//! ```
#![tactic(auto)]

mod decision_views;
mod duplicate_members;
mod expectations;
mod finding;
mod finding_list;
mod findings;
mod idle_rules;
mod json_keys;
mod key_places;
mod members;
mod missing_targets;
mod near;
mod object_parts;
mod outer_lists;
mod placed_rule;
mod reached;
mod rule_targets;
mod service_names;
mod unreachable_rules;
mod unread_members;
mod unused_budget;

pub use finding::{Finding, FindingText, Remark, StaticName};
pub use finding_list::all_findings;
pub use unreachable_rules::unreachable_rules_never_decide;
pub use unused_budget::{Advice, UnusedBudget, spare_of};
