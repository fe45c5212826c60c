//! Reach: which labels of a script's session requests are routed to which server, for every label that a client can give. The
//! commands `reach`, `diff`, `tree` and `check` use it, for example as `ReachTable::of(alloc, &list)?`.
#![tactic(auto)]

mod client_reach;
mod comparison;
mod component_numbers;
mod near_path;
mod paths;
mod reach_cell;
mod reach_filter;
mod reach_path_list;
mod reach_table;
mod reach_text;
mod route_decisions;
mod route_path;
mod route_summary;
mod script_decisions;
mod services;
mod texts;
mod theorems;

pub use client_reach::{Reach, shortest_in_range};
pub use comparison::{RouteComparison, WitnessedSet};
pub use component_numbers::{ComponentKind, Unnamed, numbers};
pub use paths::{pieces, selects, trimmed};
pub use reach_cell::ReachCell;
pub use reach_filter::ReachFilter;
pub use reach_path_list::{ReachPath, ReachPathList};
pub use reach_table::ReachTable;
pub use reach_text::ReachText;
pub use route_decisions::{RouteDecision, RouteDecisions};
pub use route_path::{RoutePath, RoutePathFault};
pub use route_summary::RouteSummary;
pub use script_decisions::ScriptDecisions;
pub use services::service_name;
pub use theorems::requests_are_answered;
