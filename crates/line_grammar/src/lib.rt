//! Parses lines that make calls: which component a line names, and which call it makes. `run_lines` parses each line of
//! a scenario with it. Example: `call_in(b"app alloc 4096")` is the call `Alloc(4096)` of `app`.
#![tactic(auto)]

mod form;
mod line;

pub use core_calls::Call;
pub use form::CallForm;
pub use line::{LONGEST_LINE, NamedCall, call_in, read_line, read_named};
