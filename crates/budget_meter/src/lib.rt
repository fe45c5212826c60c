//! Meters of budgets: the amounts that calls and requests need of accounts, and the minimum budgets that suffice for an
//! account's tests. Searches for minimum budgets and observers of runs call it. Example: `meter.hear(call, answer, after)`
//! observes a call, and `meter.least()` is the minimum budget so far.
#![tactic(auto)]

mod account;
mod budget;
mod file_sizes;
mod growth;
mod meter;
mod needed_amounts;
mod object_requests;
mod object_sizes;
mod outcomes;
mod session;
mod theorems;

pub use account::AccountMeter;
pub use budget::{Budget, Bytes};
pub use meter::Meter;
pub use needed_amounts::{call_amounts, named_by};
pub use session::SessionMeter;
pub use theorems::session_runs_are_exact;
