//! Coverage: the rules of a start list that decide a session request in scenarios, and its scripts by the services that they
//! request. `test` calls it, as `cover(alloc, &list, exchanges)?`.
#![tactic(auto)]

mod deciding_rules;
mod event;
mod lines;
mod records;
mod report;
mod row;
mod scenario_coverage;
mod table;

pub use event::{CoverageEvent, RouteOwner, RulePlace, ScriptService};
pub use report::{CoverageCount, CoverageReport};
pub use row::CoverageRow;
pub use scenario_coverage::{Coverage, cover};
