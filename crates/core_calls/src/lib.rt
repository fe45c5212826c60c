//! Calls to the core and their results: replies, outcomes, quotas and labels. `pd_core` carries calls out and writes each
//! reply; `run_lines` reads it. After `core.step(component, call, &mut reply)`, `reply.outcome()` is the outcome and
//! `reply.text()` its text.
#![tactic(auto)]

mod answer;
mod bounded_bytes;
mod call;
mod file_error;
mod label;
mod object_error;
mod outcome;
mod quotas;
mod reply;
mod reserve;
mod service_reply;

pub use answer::Answer;
pub use call::Call;
pub use file_error::FileError;
pub use label::{LONGEST_CLIENT, LONGEST_LABEL, label_of};
pub use object_error::ObjectError;
pub use outcome::{Outcome, ServiceOutcome};
pub use quotas::Quotas;
pub use reply::{MOST_LINES, Reply};
pub use reserve::Reserve;
