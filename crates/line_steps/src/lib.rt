//! The steps of a run through a scenario: the position, and each line with the values of its names. The run of a scenario, its
//! recording and the search for its minimum budgets call it.
//!
//! Example: `RunPosition::new(known, marks)?` is before the first line. For each line, `resolve(None, position.known(), line,
//! buffers)` returns what the line is, `position.pass()` its number, and then `position.arrive()?` enters and leaves the rounds
//! there.
#![tactic(auto)]

mod line_resolution;
mod resolved_line;
mod run_position;
mod unread_line;

pub use line_resolution::{LineBuffers, is_skipped, resolve};
pub use resolved_line::{ResolvedLine, ScenarioCall};
pub use run_position::RunPosition;
pub use unread_line::{UnreadLine, UnreadMessage, UnreadReason};
