//! Scenarios with the replies of their calls written after them.
//!
//! `cli_runs` calls it. For example `record(alloc, machine, scenario, start, false)?` makes `alice alloc 4K => cap 1` of the line
//! `alice alloc 4K`.
#![tactic(auto)]

mod bare;
mod line_marks;
mod line_record;
mod pieces;
mod recorded_call;
mod recorded_text;
mod recording;
mod recording_error;
mod recording_run;
mod writing;

pub use pieces::first_piece;
pub use recording::{Recording, Scenario, record};
pub use recording_error::RecordingError;
