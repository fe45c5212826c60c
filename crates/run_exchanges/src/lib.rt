//! The answered calls of a scenario, as values. `view_runs::answers` makes them from a run; `view_coverage` and `list_diff` read them,
//! so that neither depends on `view_runs`. Example: `exchange.answer().outcome` is the outcome of the call that `exchange.line()`
//! makes.
#![tactic(auto)]

mod exchange;

pub use exchange::Exchange;
