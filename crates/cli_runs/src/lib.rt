//! The commands `run`, `trace`, `accounts`, `alone` and `record` of `nethrywel`: a scenario is read, run on a machine, and what
//! is asked for is printed.
//!
//! `nethrywel` calls a function for each command with its host and options, and exits with the status that the function returns. For
//! example `trace_scenario(host, asked, settings)` prints the table of a scenario's lines.
#![tactic(auto)]

mod accounts;
mod alone;
mod line_errors;
mod record;
mod run;
mod run_end;
mod run_request;
mod trace;
mod view;

pub use accounts::list_accounts;
pub use alone::{show_all_alone, show_alone};
pub use record::record_scenario;
pub use run::run_scenario;
pub use trace::trace_scenario;
