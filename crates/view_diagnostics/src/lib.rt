//! Diagnostics: what is wrong at which place of which file, as a line for people and editors, or as a document of JSON.
//!
//! `run_scenario` writes the errors of a scenario's lines with it, `nethrywel` all other diagnostics. For example an error in line 3 of
//! `x.scenario`:
//!
//! ```text
//! x.scenario:3:1: error: unknown component `carol`
//! ```
#![tactic(auto)]

mod counts;
mod diagnostics;
mod escape;
mod front;
mod place;

pub use counts::Counts;
pub use diagnostics::{DiagnosticForm, Diagnostics, Severity, Subject};
pub use place::FilePlace;
